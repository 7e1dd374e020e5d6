// The table of weeks: for each week that has sheets, in order, the week in the high bits and how many sheets in the low ones.
ghost use Rattle.std.specs.Prelude.{true, ◌≡◌, ◌+◌, ◌-◌, ◌≤◌, ◌<◌, ◌^◌, length, get_or, take, drop};
ghost use Rattle.sheets.specs.Sheets.{week_of};
ghost use Rattle.sheet_list.specs.Adding.{over, same};
ghost use Rattle.sheet_list.specs.Ascending.{ascending};
ghost use Rattle.sheet_list.specs.Private.{week_run, counted_in, week_in, is_week_at, Listed};
ghost use Rattle.sheet_list.specs.Weeks.{table_of};

use crate::ascending::{put_at, rank};
use sheets::{next_week, week_of};

// What one of a week's bits is in a word of the table.
const WEEK: u64 = 17592186044416;

// Where the words from `from` on end that are of the week of the first of them.
fn week_end(words: &[u64], from: usize) -> usize
    requires { (from < length words.now) × Listed words.now }
    ensures { result ≡ from + week_run (week_of (get_or words.now from 0)) (drop from words.now) }
{
    let later = next_week(words[from]);
    match words[from..].iter().position(|word| later <= *word) {
        Some(n) => from + n,
        None => words.len(),
    }
}

// Whether a table is as a list gives.
pub(crate) fn is_table(words: &[u64], table: &[u64]) -> bool
    requires { Listed words.now }
    ensures { result ≡ same table.now (table_of words.now) }
{
    let mut i = 0;
    let mut j = 0;
    while i < words.len() {
        if table.len() <= j {
            return false;
        }
        let week = week_of(words[i]);
        let end = week_end(words, i);
        if table[j] != week * WEEK + (end - i) as u64 {
            return false;
        }
        i = end;
        j += 1;
    }
    j == table.len()
}

// Whether the word at a place of a table is that of a week.
fn is_week_at(table: &[u64], at: usize, week: u64) -> bool
    ensures { result ≡ is_week_at week at table.now }
{
    at < table.len() && table[at] / WEEK == week
}

// Whether a week is in a table.
pub(crate) fn has_week(table: &[u64], week: u64) -> bool
    requires { (ascending table.now ≡ true) × (week < 2 ^ 20) }
    ensures { result ≡ week_in week table.now }
{
    let at = rank(table, week * WEEK);
    is_week_at(table, at, week)
}

// Counts one sheet more of a week in the first `weeks` words of a table, and answers how many they are then.
pub(crate) fn count_week(table: &mut [u64], weeks: usize, week: u64) -> usize
    requires weeks_in_bounds { weeks ≤ length table.old }
    requires table_value { (ascending (take weeks table.old) ≡ true) × (week + 1 < 2 ^ 20) }
    requires table_in_bounds { length (counted_in week (take weeks table.old)) ≤ length table.old }
    ensures value { result ≡ length (counted_in week (take weeks table.old)) }
    ensures table_after { table.new ≡ over (counted_in week (take weeks table.old)) table.old }
{
    let at = rank(&table[..weeks], week * WEEK);
    if is_week_at(&table[..weeks], at, week) {
        table[at] = table[at] + 1;
        return weeks;
    }
    put_at(table, at, weeks, week * WEEK + 1);
    weeks + 1
}
