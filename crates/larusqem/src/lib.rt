// The library for C (RULES 10): each function is on numbers and slices alone, has no `requires`, and says all that it returns and
// leaves in what it is lent. include/larusqem.h describes them for callers.
#![tactic(auto)]

ghost use Rattle.std.specs.Prelude.{◌≡◌, ◌<◌, ◌^◌, Some};
ghost use Rattle.calendar.specs.Calendar.{days};
ghost use Rattle.calendar.specs.Dates.{from_fields, from_day_number};
ghost use Rattle.format.specs.Opening.{opened_into};
ghost use Rattle.kinds.specs.Kinds.{weekday, day_of_year, iso_year, iso_week};
ghost use Rattle.strftime.specs.Writing.{writing, elements_writing};
ghost use Rattle.strptime.specs.Answers.{showing, refused, finished, naming, examining, reading_of, reading_by, elements_reading_by};
ghost use Rattle.strptime.specs.declared.Shown.TheVariants.{Days, Hours};
ghost use Rattle.values.specs.Values.{day_number_of, date_value};
ghost use Rattle.larusqem.specs.Dates.{value_from, three_in_one, date_word, version_word};
ghost use Rattle.larusqem.specs.Packed.{packed, packed_writing, packed_reading, engine_of, side_of, opened_for};
ghost use Rattle.larusqem.specs.Words.{fields_of, day_or_zero, form_number, words_of};

use calendar::Date;
use format::{Opened, Side, Unopened, open};
use judge::Engine;
use matching::Forms;
use names::NameForm;
use strftime::{Fields, Writing, strftime, write_elements, writing_of};
use strptime::{Answer, Done, ReadRefusal, read_elements, strptime};
use values::date_value;
use words::{flag, number_or_0, offset_flag, offset_from, offset_word};

fn packed(number: u32, place: usize) -> u64
    requires { place < 2 ^ 32 }
    ensures { result ≡ packed number place }
{
    number as u64 * 4294967296 + place as u64
}

// ---- Writing

fn fields_of(moment: &[u32; 8]) -> Fields
    ensures { result ≡ fields_of moment.now }
{
    Fields {
        year: moment[0],
        month: moment[1],
        day: moment[2],
        hour: moment[3],
        minute: moment[4],
        second: moment[5],
        offset: offset_from(moment[6], moment[7]),
    }
}

fn packed_writing(w: Writing) -> u64
    requires { w.place < 2 ^ 32 }
    ensures { result ≡ packed_writing w }
{
    packed(w.number, w.place)
}

// Writes a moment by a format over the start of the buffer.
#[unsafe(no_mangle)]
pub extern "C" fn larusqem_strftime_words(format: &[u8], moment: &[u32; 8], out: &mut [u8]) -> u64
    ensures value { result
        ≡ packed_writing (writing format.now (fields_of moment.now) out.old).answer }
    ensures out_after { out.new
        ≡ (writing format.now (fields_of moment.now) out.old).buffer }
{
    packed_writing(writing_of(strftime(format, fields_of(moment), out)))
}

// Writes a moment by the elements of a format that was opened before.
#[unsafe(no_mangle)]
pub extern "C" fn larusqem_write_words(elements: &[u32], moment: &[u32; 8], out: &mut [u8]) -> u64
    ensures value { result
        ≡ packed_writing (elements_writing elements.now (fields_of moment.now) out.old).answer }
    ensures out_after { out.new
        ≡ (elements_writing elements.now (fields_of moment.now) out.old).buffer }
{
    packed_writing(writing_of(write_elements(elements, fields_of(moment), out)))
}

// ---- Opening a format

// The side that a number asks for: 0 the reader, any other the writer.
#[tactic(auto, unfolding(crate::specs::Packed::side_of))]
fn side_of(for_writing: u32) -> Side
    ensures { result ≡ side_of for_writing }
{
    match for_writing {
        0 => Side::Reader,
        _ => Side::Writer,
    }
}

// Opens a format into elements, for `larusqem_read_words` where `for_writing` is 0, and otherwise for `larusqem_write_words`.
#[unsafe(no_mangle)]
pub extern "C" fn larusqem_open_words(format: &[u8], for_writing: u32, elements: &mut [u32]) -> u64
    ensures value { result ≡ opened_for (side_of for_writing) format.now elements.old }
    ensures elements_after { elements.new ≡ opened_into (side_of for_writing) format.now elements.old }
{
    match open(side_of(for_writing), format, elements) {
        Ok(count) => {
            if elements.len() < count {
                return packed(4, count);
            }
            packed(0, count)
        }
        Err(Unopened::TooLong) => packed(1, 0),
        Err(Unopened::Bad { at }) => packed(3, at),
    }
}

// ---- Reading

fn day_or_zero(day: Option<Date>) -> Date
    ensures { result ≡ day_or_zero day }
{
    day.unwrap_or(Date {
        year: 0,
        month: 0,
        day: 0,
    })
}

// The number of a name's form: 0 none, 1 full, 2 middle, 3 short.
fn form_number(form: Option<NameForm>) -> u32
    ensures { result ≡ form_number form }
{
    match form {
        None => 0,
        Some(NameForm::Full) => 1,
        Some(NameForm::Middle) => 2,
        Some(NameForm::Short) => 3,
    }
}

// An answer's words, and its number and place, by what it shows. A refusal: nothing.
fn refuse(number: u32, place: usize, examined: u32, words: &mut [u32; 20]) -> u64
    requires { place < 2 ^ 32 }
    ensures value { result ≡ packed number place }
    ensures words_after { words.new ≡ words_of (examining examined (refused number place)) }
{
    *words = [
        number,
        place as u32,
        0,
        0,
        0,
        0,
        0,
        0,
        0,
        0,
        0,
        0,
        0,
        0,
        0,
        examined,
        0,
        0,
        0,
        0,
    ];
    packed(number, place)
}

// Two days.
fn show_days(first: Date, second: Date, examined: u32, words: &mut [u32; 20]) -> u64
    ensures value { result ≡ packed 10 1 }
    ensures words_after { words.new ≡ words_of (examining examined (showing 10 1 (Some (Days first second)))) }
{
    *words = [
        10,
        1,
        first.year as u32,
        first.month as u32,
        first.day as u32,
        0,
        0,
        0,
        0,
        0,
        0,
        second.year as u32,
        second.month as u32,
        second.day as u32,
        0,
        examined,
        0,
        0,
        0,
        0,
    ];
    packed(10, 1)
}

// Two hours.
fn show_hours(first: u32, second: u32, examined: u32, words: &mut [u32; 20]) -> u64
    ensures value { result ≡ packed 10 2 }
    ensures words_after { words.new ≡ words_of (examining examined (showing 10 2 (Some (Hours first second)))) }
{
    *words = [
        10, 2, 0, 0, 0, 0, first, 0, 0, 0, 0, 0, 0, 0, second, examined, 0, 0, 0, 0,
    ];
    packed(10, 2)
}

// A finished reading: its values.
fn finish(
    place: usize,
    day: Option<Date>,
    hour: Option<u32>,
    minute: Option<u32>,
    second: Option<u32>,
    offset: Option<i32>,
    forms: Forms,
    examined: u32,
    words: &mut [u32; 20],
) -> u64
    requires { place < 2 ^ 32 }
    ensures value { result ≡ packed 0 place }
    ensures words_after { words.new ≡ words_of (naming forms (examining examined (finished place day hour minute second offset))) }
{
    let date = day_or_zero(day);
    let weekday = forms.weekday;
    let month = forms.month;
    *words = [
        0,
        place as u32,
        date.year as u32,
        date.month as u32,
        date.day as u32,
        flag(hour),
        number_or_0(hour),
        flag(minute),
        number_or_0(minute),
        flag(second),
        number_or_0(second),
        0,
        0,
        0,
        0,
        examined,
        form_number(weekday),
        form_number(month),
        offset_flag(offset),
        offset_word(offset),
    ];
    packed(0, place)
}

// The same of any answer. The words come from the answer itself: a Reading between costs some 5 ns.
#[tactic(auto, unfolding(strptime::specs::Answers::computes))]
fn tell(answer: Answer, words: &mut [u32; 20]) -> u64
    requires { (reading_of answer).place < 2 ^ 32 }
    ensures value { result ≡ packed_reading (reading_of answer) }
    ensures words_after { words.new ≡ words_of (reading_of answer) }
{
    match answer {
        Ok(
            Done {
                unread,
                day,
                hour,
                minute,
                second,
                offset,
                forms,
                examined,
            },
        ) => finish(
            unread, day, hour, minute, second, offset, forms, examined, words,
        ),
        Err(ReadRefusal::FormatTooLong) => refuse(1, 0, 0, words),
        Err(ReadRefusal::TextTooLong) => refuse(5, 0, 0, words),
        Err(ReadRefusal::BadConversion { at }) => refuse(3, at, 0, words),
        Err(ReadRefusal::NoMatch { at }) => refuse(6, at, 0, words),
        Err(ReadRefusal::OutOfRange { at }) => refuse(7, at, 0, words),
        Err(ReadRefusal::Contradiction { at }) => refuse(8, at, 0, words),
        Err(ReadRefusal::OverBudget { budget }) => refuse(11, budget as usize, budget, words),
        Err(ReadRefusal::NoDay { examined }) => refuse(9, 1, examined, words),
        Err(ReadRefusal::NoHour { examined }) => refuse(9, 2, examined, words),
        Err(
            ReadRefusal::OpenDay {
                first,
                second,
                examined,
            },
        ) => show_days(first, second, examined, words),
        Err(
            ReadRefusal::OpenHour {
                first,
                second,
                examined,
            },
        ) => show_hours(first, second, examined, words),
    }
}

// The engine that a number asks for: 0 the one that skips, 1 the plain one, any other the plain one with the budget.
#[tactic(auto, unfolding(crate::specs::Packed::engine_of))]
fn engine_of(engine: u32, budget: u32) -> Engine
    ensures { result ≡ engine_of engine budget }
{
    match engine {
        0 => Engine::Skipping,
        1 => Engine::Plain,
        _ => Engine::Within { budget },
    }
}

// Reads a text by a format, with the engine that a number asks for.
#[unsafe(no_mangle)]
pub extern "C" fn larusqem_strptime_words(
    format: &[u8],
    text: &[u8],
    engine: u32,
    budget: u32,
    words: &mut [u32; 20],
) -> u64
    ensures value { result ≡ packed_reading (reading_by (engine_of engine budget) format.now text.now) }
    ensures words_after { words.new ≡ words_of (reading_by (engine_of engine budget) format.now text.now) }
{
    tell(strptime(engine_of(engine, budget), format, text), words)
}

// Reads a text by the elements of a format that was opened before, likewise.
#[unsafe(no_mangle)]
pub extern "C" fn larusqem_read_words(
    elements: &[u32],
    text: &[u8],
    engine: u32,
    budget: u32,
    words: &mut [u32; 20],
) -> u64
    ensures value { result ≡ packed_reading (elements_reading_by (engine_of engine budget) elements.now text.now) }
    ensures words_after { words.new
        ≡ words_of (elements_reading_by (engine_of engine budget) elements.now text.now) }
{
    tell(
        read_elements(engine_of(engine, budget), elements, text),
        words,
    )
}

// ---- The calendar

// How many days the calendar has: the day number of its last.
#[unsafe(no_mangle)]
pub extern "C" fn larusqem_days() -> u32
    ensures { result ≡ days }
{
    Date::ends().days
}

// The day number of a date. This and the functions of a date below give 0 where the fields are no date.
#[unsafe(no_mangle)]
pub extern "C" fn larusqem_day_number(year: u32, month: u32, day: u32) -> u32
    ensures { result ≡ value_from day_number_of (from_fields year month day) }
{
    Date::from_fields(year, month, day).map_or(0, |date| date.day_number())
}

// The value of a kind of fact that bears on the day.
fn value_from(kind: u32, year: u32, month: u32, day: u32) -> u32
    ensures { result ≡ value_from (date_value kind) (from_fields year month day) }
{
    Date::from_fields(year, month, day).map_or(0, |date| date_value(kind, date))
}

// Monday 1 to Sunday 7.
#[unsafe(no_mangle)]
pub extern "C" fn larusqem_weekday(year: u32, month: u32, day: u32) -> u32
    ensures { result ≡ value_from (date_value weekday) (from_fields year month day) }
{
    value_from(kinds::WEEKDAY, year, month, day)
}

#[unsafe(no_mangle)]
pub extern "C" fn larusqem_day_of_year(year: u32, month: u32, day: u32) -> u32
    ensures { result ≡ value_from (date_value day_of_year) (from_fields year month day) }
{
    value_from(kinds::DAY_OF_YEAR, year, month, day)
}

#[unsafe(no_mangle)]
pub extern "C" fn larusqem_iso_year(year: u32, month: u32, day: u32) -> u32
    ensures { result ≡ value_from (date_value iso_year) (from_fields year month day) }
{
    value_from(kinds::ISO_YEAR, year, month, day)
}

#[unsafe(no_mangle)]
pub extern "C" fn larusqem_iso_week(year: u32, month: u32, day: u32) -> u32
    ensures { result ≡ value_from (date_value iso_week) (from_fields year month day) }
{
    value_from(kinds::ISO_WEEK, year, month, day)
}

fn three_in_one(first: u16, second: u8, third: u8) -> u32
    ensures { result ≡ three_in_one first second third }
{
    first as u32 * 65536 + second as u32 * 256 + third as u32
}

// The date of a day number: year * 65536 + month * 256 + day, 0 where it is no day's.
#[unsafe(no_mangle)]
pub extern "C" fn larusqem_date_word(number: u32) -> u32
    ensures { result ≡ date_word (from_day_number number) }
{
    Date::from_day_number(number).map_or(0, |date| three_in_one(date.year, date.month, date.day))
}

// ---- The version

// major * 65536 + minor * 256 + patch
#[unsafe(no_mangle)]
pub extern "C" fn larusqem_version() -> u32
    ensures { result ≡ version_word }
{
    three_in_one(
        version::MAJOR as u16,
        version::MINOR as u8,
        version::PATCH as u8,
    )
}
