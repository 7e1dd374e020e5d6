// The reader's answer: what was read, then the day, then the hour.
ghost use Rattle.std.specs.Prelude.{◌≡◌, ◌*◌, ◌≤◌, ◌<◌, length};
ghost use Rattle.calendar.specs.Calendar.{days, date_of};
ghost use Rattle.format.specs.Opening.{longest, most_elements};
ghost use Rattle.agreement.specs.Demand.{DayAgrees};
ghost use Rattle.agreement.specs.Verdicts.{day_verdict, hour_verdict};
ghost use Rattle.strptime.specs.Answers.{showing, refused, examining, naming, reading_of, said_of, done, with_hour, with_day, judged};
ghost use Rattle.strptime.specs.Private.{ComesTo, refusal_by, over_by};
ghost use Rattle.strptime.specs.Answers.{read_by, unless_long, reading_by, elements_reading_by};

use crate::{Answer, Done, ReadRefusal, Reading, Shown};
use agreement::{Facts, Verdict};
use calendar::Date;
use format::{
    LONGEST, MIDDLE_BYTES, MIDDLE_ELEMENTS, MOST_ELEMENTS, SHORT_BYTES, SHORT_ELEMENTS, Side,
    Unopened, elements_in, entry_place, open,
};
use judge::{Engine, Judged, OverBudget, judge_day, judge_hour};
use matching::{Forms, Refused, State, read_all};
use values::offset_of;

// A number and a place, what is shown, and the days examined; all else is unsaid.
#[tactic(auto, unfolding(crate::specs::Answers::computes, matching::specs::Steps::no_forms))]
fn showing(number: u32, place: usize, shown: Option<Shown>, examined: u32) -> Reading
    ensures { result ≡ examining examined (showing number place shown) }
{
    Reading {
        number,
        place,
        day: None,
        hour: None,
        minute: None,
        second: None,
        offset: None,
        forms: Forms {
            weekday: None,
            month: None,
        },
        shown,
        examined,
    }
}

#[tactic(auto, unfolding(crate::specs::Answers::computes))]
fn refused(number: u32, place: usize, examined: u32) -> Reading
    ensures { result ≡ examining examined (refused number place) }
{
    showing(number, place, None, examined)
}

// The number, place and values of each answer.
#[tactic(auto, unfolding(crate::specs::Answers::computes))]
pub fn reading_of(answer: Answer) -> Reading
    ensures { result ≡ reading_of answer }
{
    match answer {
        Ok(
            Done {
                unread,
                day,
                hour,
                minute,
                second,
                offset,
                forms,
                examined,
            },
        ) => Reading {
            number: 0,
            place: unread,
            day,
            hour,
            minute,
            second,
            offset,
            forms,
            shown: None,
            examined,
        },
        Err(ReadRefusal::FormatTooLong) => refused(1, 0, 0),
        Err(ReadRefusal::TextTooLong) => refused(5, 0, 0),
        Err(ReadRefusal::BadConversion { at }) => refused(3, at, 0),
        Err(ReadRefusal::NoMatch { at }) => refused(6, at, 0),
        Err(ReadRefusal::OutOfRange { at }) => refused(7, at, 0),
        Err(ReadRefusal::Contradiction { at }) => refused(8, at, 0),
        Err(ReadRefusal::OverBudget { budget }) => refused(11, budget as usize, budget),
        Err(ReadRefusal::NoDay { examined }) => refused(9, 1, examined),
        Err(ReadRefusal::NoHour { examined }) => refused(9, 2, examined),
        Err(
            ReadRefusal::OpenDay {
                first,
                second,
                examined,
            },
        ) => showing(10, 1, Some(Shown::Days { first, second }), examined),
        Err(
            ReadRefusal::OpenHour {
                first,
                second,
                examined,
            },
        ) => showing(10, 2, Some(Shown::Hours { first, second }), examined),
    }
}

#[tactic(auto, unfolding(crate::specs::Answers::computes))]
fn said_of(s: u32) -> Option<u32>
    ensures { result ≡ said_of s }
{
    s.checked_sub(1)
}

// What follows has the days examined in its answer, and the forms of names where it is finished.

#[tactic(auto, unfolding(crate::specs::Answers::computes))]
fn done(state: State, forms: Forms, day: Option<Date>, hour: Option<u32>, examined: u32) -> Answer
    ensures { reading_of result ≡ naming forms (examining examined (done state day hour)) }
{
    let said = state.facts.said;
    Ok(Done {
        unread: state.at,
        day,
        hour,
        minute: said_of(said[kinds::MINUTE as usize]),
        second: said_of(said[kinds::SECOND as usize]),
        offset: offset_of(said[kinds::ZONE_OFFSET as usize]),
        forms,
        examined,
    })
}

#[tactic(auto, unfolding(crate::specs::Answers::computes))]
fn with_hour(state: State, forms: Forms, day: Option<Date>, examined: u32) -> Answer
    ensures { reading_of result ≡ naming forms (examining examined (with_hour state day (hour_verdict state.facts))) }
{
    match judge_hour(state.facts) {
        Verdict::Unsaid => done(state, forms, day, None, examined),
        Verdict::Impossible => Err(ReadRefusal::NoHour { examined }),
        Verdict::Open { first, second } => Err(ReadRefusal::OpenHour {
            first,
            second,
            examined,
        }),
        Verdict::Agreed(hour) => done(state, forms, day, Some(hour), examined),
    }
}

// ---- The day

// The day that the verdict on it fixes, or none where nothing was said of it, and the days examined.
#[derive(Clone, Copy)]
pub struct Dated {
    pub day: Option<Date>,
    pub examined: u32,
}

// The date of a day number. A number of no day is the first day; the search gives none.
fn date_at(number: u32) -> Date
    requires { (0 < number) × (number ≤ days) }
    ensures { result ≡ date_of number }
{
    Date::from_day_number(number).unwrap_or(Date::FIRST)
}

// The date of the one day that agrees: as it was said, where year, month and day were.
fn said_date(facts: Facts, number: u32) -> Date
    requires number_nonzero { (0 < number) × (number ≤ days) }
    requires day_agrees { DayAgrees facts number }
    ensures { result ≡ date_of number }
{
    let said = facts.said;
    let year = said[kinds::YEAR as usize];
    let month = said[kinds::MONTH as usize];
    let day = said[kinds::DAY as usize];
    if year == 0 || month == 0 || day == 0 {
        return date_at(number);
    }
    Date {
        year: (year - 1) as u16,
        month: (month - 1) as u8,
        day: (day - 1) as u8,
    }
}

#[tactic(auto, unfolding(crate::specs::Answers::computes, crate::specs::Private::with_dated))]
fn by_verdict(state: State, verdict: Verdict, examined: u32) -> Result<Dated, ReadRefusal>
    requires { verdict ≡ day_verdict state.facts }
    ensures { ComesTo state (examining examined (with_day state verdict (hour_verdict state.facts))) result }
{
    match verdict {
        Verdict::Unsaid => Ok(Dated {
            day: None,
            examined,
        }),
        Verdict::Impossible => Err(ReadRefusal::NoDay { examined }),
        Verdict::Open { first, second } => Err(ReadRefusal::OpenDay {
            first: date_at(first),
            second: date_at(second),
            examined,
        }),
        Verdict::Agreed(day) => Ok(Dated {
            day: Some(said_date(state.facts, day)),
            examined,
        }),
    }
}

// 11.
impl From<OverBudget> for ReadRefusal {
    ghost from_gives = { λ over r. r ≡ over_by over };

    fn from(over: OverBudget) -> ReadRefusal {
        ReadRefusal::OverBudget {
            budget: over.budget,
        }
    }
}

#[tactic(auto, unfolding(crate::specs::Answers::computes, crate::specs::Private::with_dated))]
fn date_by(engine: Engine, state: State) -> Result<Dated, ReadRefusal>
    ensures { ComesTo state (judged engine state) result }
{
    let Judged { verdict, examined } = judge_day(engine, state.facts)?;
    by_verdict(state, verdict, examined)
}

// The day, then the hour. It is asked for at one place, so that the compiler puts it there: a call would hand the answer on in memory.
#[tactic(auto, unfolding(crate::specs::Answers::computes, crate::specs::Private::with_dated))]
fn judged(engine: Engine, state: State, forms: Forms) -> Answer
    ensures { reading_of result ≡ naming forms (judged engine state) }
{
    let Dated { day, examined } = date_by(engine, state)?;
    with_hour(state, forms, day, examined)
}

// 6, 7 or 8, where an element is refused.
impl From<Refused> for ReadRefusal {
    ghost from_gives = { λ why r. r ≡ refusal_by why };

    fn from(why: Refused) -> ReadRefusal {
        match why {
            Refused::Mismatch { at } => ReadRefusal::NoMatch { at },
            Refused::Range { at } => ReadRefusal::OutOfRange { at },
            Refused::Conflict { at } => ReadRefusal::Contradiction { at },
        }
    }
}

// Reads a text by elements that opening a format stored.
fn read_by(engine: Engine, elements: &[u32], s: &[u8]) -> Answer
    ensures { reading_of result ≡ read_by engine elements.now s.now }
{
    let stepped = read_all(elements, s);
    stepped.outcome?;
    judged(engine, stepped.state, stepped.forms)
}

// 5, then the reading.
fn read_short(engine: Engine, elements: &[u32], text: &[u8]) -> Answer
    ensures { reading_of result ≡ unless_long text.now (read_by engine elements.now text.now) }
{
    if LONGEST < text.len() {
        return Err(ReadRefusal::TextTooLong);
    }
    read_by(engine, elements, text)
}

// 5, then 3.
fn bad_conversion(at: usize, text: &[u8]) -> Answer
    ensures { reading_of result ≡ unless_long text.now (refused 3 at) }
{
    if text.len() <= LONGEST {
        return Err(ReadRefusal::BadConversion { at });
    }
    Err(ReadRefusal::TextTooLong)
}

// Reads a text by the elements of a format that was opened before.
pub fn read_elements(engine: Engine, elements: &[u32], text: &[u8]) -> Answer
    ensures { reading_of result ≡ elements_reading_by engine elements.now text.now }
{
    let good = elements_in(Side::Reader, elements);
    if good != elements.len() {
        return bad_conversion(entry_place(elements, good), text);
    }
    read_short(engine, elements, text)
}

// Opens the format into `room`, which has space for all its elements, and reads. It is apart from `read_in`, which would be three readers.
fn read_opened(engine: Engine, format: &[u8], text: &[u8], room: &mut [u32]) -> Answer
    requires { length format.now ≤ longest → 13 * length format.now ≤ 2 * length room.old }
    ensures { reading_of result ≡ reading_by engine format.now text.now }
{
    match open(Side::Reader, format, room) {
        Err(Unopened::TooLong) => Err(ReadRefusal::FormatTooLong),
        Err(Unopened::Bad { at }) => bad_conversion(at, text),
        Ok(count) => read_short(engine, &room[..count], text),
    }
}

// The same in an array of N elements.
fn read_in<const N: usize>(engine: Engine, format: &[u8], text: &[u8]) -> Answer
    requires most { N ≤ most_elements }
    requires room { length format.now ≤ longest → 13 * length format.now ≤ 2 * N }
    ensures { reading_of result ≡ reading_by engine format.now text.now }
{
    read_opened(engine, format, text, &mut [0; N])
}

// Reads a text by a format: the day and hour that all its facts fix, or the refusal with its place. The format is opened into the smallest
// of three arrays that has room for it.
pub fn strptime(engine: Engine, format: &[u8], text: &[u8]) -> Answer
    ensures { reading_of result ≡ reading_by engine format.now text.now }
{
    if format.len() <= SHORT_BYTES {
        return read_in::<SHORT_ELEMENTS>(engine, format, text);
    }
    if format.len() <= MIDDLE_BYTES {
        return read_in::<MIDDLE_ELEMENTS>(engine, format, text);
    }
    read_in::<MOST_ELEMENTS>(engine, format, text)
}
