// A sheet (RULES 11): its date, and what is said of hour, minute, second and zone offset; its word of 64 bits; its week.
#![tactic(auto)]

ghost use Rattle.std.specs.Prelude.{◌≡◌, true, ◌+◌, ◌*◌, ◌<◌, ◌^◌};
ghost use Rattle.sheets.specs.declared.Unpackable.TheVariants.{Bad};
ghost use Rattle.words.specs.Words.{flag, number_or0, offset_flag};
ghost use Rattle.sheets.specs.Sheets.{offset_field, word_of, said_from, field_offset, sheet_of, is_valid};
ghost use Rattle.sheets.specs.Private.{is_field, is_date};
ghost use Rattle.sheets.specs.Sheets.{week_of_date, week_of, date_word, next_week};
ghost use Rattle.sheets.specs.Sheets.{is_packing, unpacking, packing, day_fields, reading_fields, date_from, fields_from, words_fields};

use calendar::Date;
use strptime::Reading;
use values::{Field, Moment, magnitude, offset_of};
use words::{number_or_0, offset_from};

#[derive(Clone, Copy)]
pub struct Sheet {
    pub date: Date,
    pub hour: Option<u32>,
    pub minute: Option<u32>,
    pub second: Option<u32>,
    pub offset: Option<i32>,
}

// What is said of a sheet's date, valid or not.
#[derive(Clone, Copy)]
pub struct DateFields {
    pub year: u32,
    pub month: u32,
    pub day: u32,
}

// A sheet as it comes: what is said of it, valid or not.
#[derive(Clone, Copy)]
pub struct SheetFields {
    pub date: Option<DateFields>,
    pub hour: Option<u32>,
    pub minute: Option<u32>,
    pub second: Option<u32>,
    pub offset: Option<i32>,
}

// Why the fields of a sheet give no word: 13, no day is said, or 2 with the first bad field.
#[derive(Clone, Copy, PartialEq, Eq)]
pub enum Unpackable {
    NoDay,
    Bad(Field),
}

impl From<Field> for Unpackable {
    ghost from_gives = { λ field why. why ≡ Bad field };

    fn from(field: Field) -> Unpackable {
        Unpackable::Bad(field)
    }
}

// What one of each field is in a word: two to the bits of all fields after it.
const YEAR: u64 = 1125899906842624;

const MONTH: u64 = 70368744177664;

const DAY: u64 = 2199023255552;

const HOUR_SAID: u64 = 1099511627776;

const HOUR: u64 = 34359738368;

const MINUTE_SAID: u64 = 17179869184;

const MINUTE: u64 = 268435456;

const SECOND_SAID: u64 = 134217728;

const SECOND: u64 = 2097152;

const OFFSET_SAID: u64 = 1048576;

const OFFSET: u64 = 256;

// Whether an hour, minute or second is said, and its number, which is below `size`.
fn said_field(said: Option<u32>, size: u64) -> u64
    requires { size < 2 ^ 32 }
    ensures { result ≡ flag said * size + number_or0 said }
{
    said.map_or(0, |n| size + n as u64)
}

// Whether an offset is said, and its number: the offset and 1439 more.
fn offset_field(offset: Option<i32>) -> u64
    ensures { (result ≡ offset_flag offset * 4096 + offset_field offset) × (result < 2 ^ 33) }
{
    match offset {
        None => 0,
        Some(east) => 4096 + magnitude(east as i64 + 1439),
    }
}

// The word of a valid sheet, each field behind those before it.
fn word_of(sheet: Sheet) -> u64
    requires { is_valid sheet ≡ true }
    ensures { result ≡ word_of sheet }
{
    let date = sheet.date;
    let to_day = date.year as u64 * 512 + date.month as u64 * 32 + date.day as u64;
    let to_hour = to_day * 64 + said_field(sheet.hour, 32);
    let to_minute = to_hour * 128 + said_field(sheet.minute, 64);
    let to_second = to_minute * 128 + said_field(sheet.second, 64);
    let to_offset = to_second * 8192 + offset_field(sheet.offset);
    to_offset * 256
}

// The word of a sheet with these fields.
pub fn pack(fields: SheetFields) -> Result<u64, Unpackable>
    ensures { result ≡ packing fields }
{
    let Some(date) = fields.date else {
        return Err(Unpackable::NoDay);
    };
    let moment = Moment::from_fields(
        date.year,
        date.month,
        date.day,
        number_or_0(fields.hour),
        number_or_0(fields.minute),
        number_or_0(fields.second),
        fields.offset,
    )?;
    Ok(word_of(Sheet {
        date: moment.date,
        hour: fields.hour,
        minute: fields.minute,
        second: fields.second,
        offset: fields.offset,
    }))
}

fn said_from(flag: u32, n: u32) -> Option<u32>
    ensures { result ≡ said_from flag n }
{
    if flag == 0 {
        return None;
    }
    Some(n)
}

// The offset of a word's fields.
fn field_offset(flag: u32, n: u32) -> Option<i32>
    requires { n < 2 ^ 31 }
    ensures { result ≡ field_offset flag n }
{
    if flag == 0 {
        return None;
    }
    offset_of(n + 1)
}

// The date of a word.
fn date_of(word: u64) -> Date
    ensures { result ≡ (sheet_of word).date }
{
    let in_year = word % YEAR;
    Date {
        year: (word / YEAR) as u16,
        month: (in_year / MONTH) as u8,
        day: (in_year % MONTH / DAY) as u8,
    }
}

// The sheet that a word unpacks to, valid or not.
fn sheet_of(word: u64) -> Sheet
    ensures { result ≡ sheet_of word }
{
    let date = date_of(word);
    let time = word % YEAR % MONTH % DAY;
    let hour = time % HOUR_SAID;
    let from_minute = hour % HOUR;
    let minute = from_minute % MINUTE_SAID;
    let from_second = minute % MINUTE;
    let second = from_second % SECOND_SAID;
    let from_offset = second % SECOND;
    let offset = from_offset % OFFSET_SAID;
    Sheet {
        date,
        hour: said_from((time / HOUR_SAID) as u32, (hour / HOUR) as u32),
        minute: said_from((from_minute / MINUTE_SAID) as u32, (minute / MINUTE) as u32),
        second: said_from((from_second / SECOND_SAID) as u32, (second / SECOND) as u32),
        offset: field_offset((from_offset / OFFSET_SAID) as u32, (offset / OFFSET) as u32),
    }
}

// Whether a field with its flag, which is worth `size`, is zero, or is said and has one of the `most` lowest numbers.
fn is_field(field: u64, size: u64, most: u64) -> bool
    ensures { result ≡ is_field field size most }
{
    field == 0 || (size <= field && field - size < most)
}

fn is_date(date: Date) -> bool
    ensures { result ≡ is_date date }
{
    Date::from_fields(date.year as u32, date.month as u32, date.day as u32).is_ok()
}

// Whether a word is the packing of a sheet: field by field, which is quicker than to unpack it and to pack that again.
pub fn is_packing(word: u64) -> bool
    ensures { result ≡ is_packing word }
{
    is_date(date_of(word))
        && is_field(word / HOUR % 64, 32, 24)
        && is_field(word / MINUTE % 128, 64, 60)
        && is_field(word / SECOND % 128, 64, 61)
        && is_field(word / OFFSET % 8192, 4096, 2879)
        && word % OFFSET == 0
}

// The sheet that a word is the packing of.
pub fn unpack(word: u64) -> Option<Sheet>
    ensures { result ≡ unpacking word }
{
    if is_packing(word) {
        Some(sheet_of(word))
    } else {
        None
    }
}

fn day_fields(day: Option<Date>) -> Option<DateFields>
    ensures { result ≡ day_fields day }
{
    day.map(|date| DateFields {
        year: date.year as u32,
        month: date.month as u32,
        day: date.day as u32,
    })
}

// What a reading says of a sheet.
pub fn reading_fields(reading: Reading) -> SheetFields
    ensures { result ≡ reading_fields reading }
{
    SheetFields {
        date: day_fields(reading.day),
        hour: reading.hour,
        minute: reading.minute,
        second: reading.second,
        offset: reading.offset,
    }
}

// A date from three words: all 0 is none.
fn date_from(year: u32, month: u32, day: u32) -> Option<DateFields>
    ensures { result ≡ date_from year month day }
{
    if year == 0 && month == 0 && day == 0 {
        return None;
    }
    Some(DateFields { year, month, day })
}

// A sheet as it comes in words (RULES 10.4): year, month and day, then whether each other field is said and which it is.
pub fn words_fields(words: &[u32; 11]) -> SheetFields
    ensures { result ≡ words_fields words.now }
{
    SheetFields {
        date: date_from(words[0], words[1], words[2]),
        hour: said_from(words[3], words[4]),
        minute: said_from(words[5], words[6]),
        second: said_from(words[7], words[8]),
        offset: offset_from(words[9], words[10]),
    }
}

// The same, word by word.
pub fn fields_from(
    year: u32,
    month: u32,
    day: u32,
    hour_said: u32,
    hour: u32,
    minute_said: u32,
    minute: u32,
    second_said: u32,
    second: u32,
    offset_said: u32,
    offset: u32,
) -> SheetFields
    ensures { result
        ≡ fields_from year month day hour_said hour minute_said minute second_said second offset_said offset }
{
    words_fields(&[
        year,
        month,
        day,
        hour_said,
        hour,
        minute_said,
        minute,
        second_said,
        second,
        offset_said,
        offset,
    ])
}

// The ISO week of a date: 64 times its year, and its week.
fn week_of_date(date: Date) -> u64
    ensures { result ≡ week_of_date date }
{
    date.iso_year() as u64 * 64 + date.iso_week() as u64
}

// The ISO week of a word's date.
pub fn week_of(word: u64) -> u64
    ensures { result ≡ week_of word }
{
    week_of_date(date_of(word))
}

// The lowest word of a date.
fn date_word(date: Date) -> u64
    requires { date.year < 10000 }
    ensures { result ≡ date_word date }
{
    date.year as u64 * YEAR + date.month as u64 * MONTH + date.day as u64 * DAY
}

// The lowest word of a later week, for a packing.
pub fn next_week(word: u64) -> u64
    ensures { result ≡ next_week word }
{
    let date = date_of(word);
    match Date::from_day_number(date.day_number() + 8 - date.weekday()) {
        Some(monday) => date_word(monday),
        None => u64::MAX,
    }
}
