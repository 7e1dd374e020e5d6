// Sheets added to a list and its table.
ghost use Rattle.std.specs.Prelude.{true, false, Some, ◌≡◌, ◌+◌, ◌*◌, ◌≤◌, ◌<◌, ◌^◌, length};
ghost use Rattle.sheets.specs.Sheets.{is_packing};
ghost use Rattle.sheet_list.specs.Adding.{number_of, place_of};
ghost use Rattle.sheet_list.specs.Adding.{held, outcome_of, is_held, is_full, with, adding_word, adding, adding_words};

use crate::ascending::insert;
use crate::judging::{TABLE_LENGTH, is_held};
use crate::weeks::{count_week, has_week};
use sheets::{SheetFields, Unpackable, pack, week_of, words_fields};
use values::Field;

// Why a sheet is not added: 2, a bad field; 13, no day is said; 14, no room; 15, the arrays do not hold what they should.
#[derive(Clone, Copy, PartialEq, Eq)]
pub enum AddRefusal {
    BadField(Field),
    Undated,
    NoRoom,
    NotHeld,
}

impl AddRefusal {
    // Its number and its place (RULES 11.3).
    #[tactic(auto, unfolding(crate::specs::Adding::number_of))]
    pub fn number(self) -> u32
        ensures { result ≡ number_of (Some self) }
    {
        match self {
            AddRefusal::BadField(_) => 2,
            AddRefusal::Undated => 13,
            AddRefusal::NoRoom => 14,
            AddRefusal::NotHeld => 15,
        }
    }

    #[tactic(auto, unfolding(crate::specs::Adding::place_of))]
    pub fn place(self) -> u32
        ensures { result ≡ place_of (Some self) }
    {
        match self {
            AddRefusal::BadField(field) => field.number(),
            _ => 0,
        }
    }
}

// What adding gives: the refusal that ended it, if one did, how many sheets were added before, and how many words and weeks are then held.
#[derive(Clone, Copy)]
pub struct Added {
    pub refused: Option<AddRefusal>,
    pub index: usize,
    pub count: usize,
    pub weeks: usize,
}

// How many words a sheet has.
const SHEET_WORDS: usize = 11;

// Arrays and counts go one by one: a struct of two `&mut` slices has each method promise that both references stay the same.

// Whether there is no room for the word of a sheet.
fn is_full(word: u64, words: &[u64], count: usize, table: &[u64], weeks: usize) -> bool
    requires weeks_value { is_held (held words.now count table.now weeks) ≡ true }
    requires word_value { is_packing word ≡ true }
    ensures { result ≡ is_full word (held words.now count table.now weeks) }
{
    count == words.len() || (weeks == TABLE_LENGTH && !has_week(&table[..weeks], week_of(word)))
}

// Puts the word of a sheet into the list, and counts it in the table.
fn put_word(word: u64, words: &mut [u64], count: usize, table: &mut [u64], weeks: usize) -> usize
    requires weeks_value { is_held (held words.old count table.old weeks) ≡ true }
    requires word_value { is_packing word ≡ true }
    requires weeks_value_2 { is_full word (held words.old count table.old weeks) ≡ false }
    ensures { held words.new (count + 1) table.new result
        ≡ with word (held words.old count table.old weeks) }
{
    insert(words, count, word);
    count_week(table, weeks, week_of(word))
}

// Whether the arrays hold what they should, where that may have been judged before.
fn is_sound(judged: bool, words: &[u64], count: usize, table: &[u64], weeks: usize) -> bool
    requires { judged ≡ true → is_held (held words.now count table.now weeks) ≡ true }
    ensures { result ≡ is_held (held words.now count table.now weeks) }
{
    judged || is_held(words, count, table, weeks)
}

fn add_word(
    judged: bool,
    index: usize,
    word: u64,
    words: &mut [u64],
    count: usize,
    table: &mut [u64],
    weeks: usize,
) -> Added
    requires weeks_value { judged ≡ true → is_held (held words.old count table.old weeks) ≡ true }
    requires word_value { (is_packing word ≡ true) × (index + 1 < 2 ^ 64) }
    ensures { outcome_of result words.new table.new
        ≡ adding_word index word (held words.old count table.old weeks) }
{
    if !is_sound(judged, words, count, table, weeks) {
        return Added {
            refused: Some(AddRefusal::NotHeld),
            index,
            count,
            weeks,
        };
    }
    if is_full(word, words, count, table, weeks) {
        return Added {
            refused: Some(AddRefusal::NoRoom),
            index,
            count,
            weeks,
        };
    }
    let weeks = put_word(word, words, count, table, weeks);
    Added {
        refused: None,
        index: index + 1,
        count: count + 1,
        weeks,
    }
}

// Adds the sheet with an index, where what is held may have been judged before.
fn add_sheet(
    judged: bool,
    index: usize,
    fields: SheetFields,
    words: &mut [u64],
    count: usize,
    table: &mut [u64],
    weeks: usize,
) -> Added
    requires weeks_value { judged ≡ true → is_held (held words.old count table.old weeks) ≡ true }
    requires index_bound { index + 1 < 2 ^ 64 }
    ensures { outcome_of result words.new table.new
        ≡ adding index fields (held words.old count table.old weeks) }
{
    match pack(fields) {
        Err(Unpackable::NoDay) => Added {
            refused: Some(AddRefusal::Undated),
            index,
            count,
            weeks,
        },
        Err(Unpackable::Bad(field)) => Added {
            refused: Some(AddRefusal::BadField(field)),
            index,
            count,
            weeks,
        },
        Ok(word) => add_word(judged, index, word, words, count, table, weeks),
    }
}

// Adds one sheet.
pub fn add(
    fields: SheetFields,
    words: &mut [u64],
    count: usize,
    table: &mut [u64],
    weeks: usize,
) -> Added
    ensures { outcome_of result words.new table.new
        ≡ adding 0 fields (held words.old count table.old weeks) }
{
    add_sheet(false, 0, fields, words, count, table, weeks)
}

// Adds many sheets, eleven words each, one after another up to the first refusal. What is held is judged once, before the first is added.
pub fn add_all(
    sheets: &[u32],
    words: &mut [u64],
    count: usize,
    table: &mut [u64],
    weeks: usize,
) -> Added
    ensures { outcome_of result words.new table.new
        ≡ adding_words sheets.now (held words.old count table.old weeks) }
{
    let mut added = Added {
        refused: None,
        index: 0,
        count,
        weeks,
    };
    for sheet in sheets.as_chunks::<SHEET_WORDS>().0 {
        added = add_sheet(
            0 < added.index,
            added.index,
            words_fields(sheet),
            words,
            added.count,
            table,
            added.weeks,
        );
        if added.refused.is_some() {
            return added;
        }
    }
    added
}
