// Sheets counted by their weeks alone, one after another and without a list.
ghost use Rattle.std.specs.Prelude.{true, ◌&&◌, ◌≡◌, ◌+◌, ◌<◌, length, take};
ghost use Rattle.sheets.specs.Sheets.{is_packing, week_of};
ghost use Rattle.sheet_list.specs.Adding.{most_words, table_length};
ghost use Rattle.sheet_list.specs.Ascending.{ascending};
ghost use Rattle.sheet_list.specs.Private.{room_in, IsTallied};

use crate::judging::{MOST_WORDS, TABLE_LENGTH};
use crate::weeks::{count_week, has_week};
use sheets::{is_packing, week_of};

// How many weeks a table has, and how many sheets were left out of it.
#[derive(Clone, Copy)]
pub struct Tallied {
    pub weeks: usize,
    pub left: usize,
}

// Whether the word of a sheet is to be counted in a table: it is a packing, and there is room for its week.
fn is_counted(word: u64, table: &[u64]) -> bool
    requires { ascending table.now ≡ true }
    ensures { result ≡ (is_packing word && room_in (week_of word) table.now) }
{
    is_packing(word) && (table.len() != TABLE_LENGTH || has_week(table, week_of(word)))
}

// Counts the sheet with an index, where those before it are counted.
fn count_sheet(words: &[u64], index: usize, table: &mut [u64], tallied: Tallied) -> Tallied
    requires index_in_bounds { (index < length words.now) × ((index < most_words) × (length table.old ≡ table_length)) }
    requires tallied { IsTallied (take index words.now) table.old table.old tallied }
    ensures { IsTallied (take (index + 1) words.now) table.old table.new result }
{
    let weeks = tallied.weeks;
    let left = tallied.left;
    let word = words[index];
    if !is_counted(word, &table[..weeks]) {
        return Tallied {
            weeks,
            left: left + 1,
        };
    }
    let weeks = count_week(table, weeks, week_of(word));
    Tallied { weeks, left }
}

// Counts sheets in a table from nothing, by their words, of which at most 65,536 are looked at. Words of the table past the weeks are left
// as they were.
pub fn count_sheets(words: &[u64], table: &mut [u64; TABLE_LENGTH]) -> Tallied
    ensures { IsTallied (take most_words words.now) table.old table.new result }
{
    let mut tallied = Tallied { weeks: 0, left: 0 };
    for index in 0..words.len().min(MOST_WORDS) {
        tallied = count_sheet(words, index, table, tallied);
    }
    tallied
}
