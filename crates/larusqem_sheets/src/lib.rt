// Lists of sheets for C (RULES 10.4): each function is on numbers and slices alone, has no `requires`, and says all that it returns and
// leaves in what it is lent. They are an object of their own in the library, as those of `larusqem_reasons` are.
#![tactic(auto)]

ghost use Rattle.std.specs.Prelude.{[], ◌∷◌, ◌≡◌, ◌<◌, ◌^◌};
ghost use Rattle.sheets.specs.Sheets.{packing, unpacking};
ghost use Rattle.sheet_list.specs.Adding.{adding_words};
ghost use Rattle.larusqem_sheets.specs.Sheets.{fields_of, words_of, unpacked_number, unpacked_words, packed_number, packed_word};
ghost use Rattle.larusqem_sheets.specs.Sheets.{week_fields, held_by, judged, counts_of, answer_of};

use sheet_list::{add_all, is_held};
use sheets::{Sheet, Unpackable, pack, unpack, words_fields};
use words::{flag, number_or_0, offset_flag, offset_word};

// Leaves the words of a sheet.
fn tell(sheet: Sheet, words: &mut [u32; 11])
    ensures { words.new ≡ words_of sheet }
{
    *words = [
        sheet.date.year as u32,
        sheet.date.month as u32,
        sheet.date.day as u32,
        flag(sheet.hour),
        number_or_0(sheet.hour),
        flag(sheet.minute),
        number_or_0(sheet.minute),
        flag(sheet.second),
        number_or_0(sheet.second),
        offset_flag(sheet.offset),
        offset_word(sheet.offset),
    ];
}

// Packs a sheet into a word.
#[unsafe(no_mangle)]
pub extern "C" fn larusqem_pack_words(sheet: &[u32; 11], word: &mut [u64; 1]) -> u64
    ensures value { result ≡ packed_number (packing (fields_of sheet.now)) }
    ensures word_after { word.new ≡ packed_word (packing (fields_of sheet.now)) ∷ [] }
{
    match pack(words_fields(sheet)) {
        Ok(packed) => {
            *word = [packed];
            0
        }
        Err(Unpackable::NoDay) => {
            *word = [0];
            13 * 4294967296
        }
        Err(Unpackable::Bad(field)) => {
            *word = [0];
            2 * 4294967296 + field.number() as u64
        }
    }
}

// Unpacks a word into the sheet that it is the packing of, and answers whether it is one.
#[unsafe(no_mangle)]
pub extern "C" fn larusqem_unpack_words(word: u64, sheet: &mut [u32; 11]) -> u32
    ensures value { result ≡ unpacked_number (unpacking word) }
    ensures sheet_after { sheet.new ≡ unpacked_words (unpacking word) }
{
    match unpack(word) {
        Some(held) => {
            tell(held, sheet);
            1
        }
        None => {
            *sheet = [0; 11];
            0
        }
    }
}

// The ISO year, the week and how many sheets of a word of the table.
#[unsafe(no_mangle)]
pub extern "C" fn larusqem_week_words(word: u64, week: &mut [u64; 3])
    ensures { week.new ≡ week_fields word }
{
    let in_year = word % 1125899906842624;
    *week = [
        word / 1125899906842624,
        in_year / 17592186044416,
        in_year % 17592186044416,
    ];
}

// Judges a list and its table: 0 or 15.
#[unsafe(no_mangle)]
pub extern "C" fn larusqem_list_words(words: &[u64], weeks: &[u64], counts: &[u32; 2]) -> u32
    ensures { result ≡ judged (held_by words.now weeks.now counts.now) }
{
    if is_held(words, counts[0] as usize, weeks, counts[1] as usize) {
        return 0;
    }
    15
}

// Adds sheets, eleven words each, to a list and its table.
#[unsafe(no_mangle)]
pub extern "C" fn larusqem_add_words(
    sheets: &[u32],
    words: &mut [u64],
    weeks: &mut [u64],
    counts: &mut [u32; 2],
    answer: &mut [u32; 3],
)
    ensures words_after { words.new
        ≡ (adding_words sheets.now (held_by words.old weeks.old counts.old)).held.words }
    ensures weeks_after { weeks.new
        ≡ (adding_words sheets.now (held_by words.old weeks.old counts.old)).held.table }
    ensures counts_after { counts.new
        ≡ counts_of (adding_words sheets.now (held_by words.old weeks.old counts.old)) }
    ensures answer_after { answer.new
        ≡ answer_of (adding_words sheets.now (held_by words.old weeks.old counts.old)) }
{
    let added = add_all(sheets, words, counts[0] as usize, weeks, counts[1] as usize);
    *counts = [added.count as u32, added.weeks as u32];
    let (number, place) = match added.refused {
        Some(why) => (why.number(), why.place()),
        None => (0, 0),
    };
    *answer = [number, place, added.index as u32];
}
