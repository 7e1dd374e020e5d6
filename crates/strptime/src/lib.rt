// The reader (RULES 6): a format and a text; the facts that the text says, and the day and hour that they fix.
#![tactic(auto)]

use calendar::Date;
use matching::Forms;

mod answers;

pub use answers::{read_elements, reading_of, strptime};

// The first two days, or hours, of an open reading.
#[derive(Clone, Copy)]
pub enum Shown {
    Days { first: Date, second: Date },
    Hours { first: u32, second: u32 },
}

// A finished reading: the first unread offset, what the text says and fixes, the forms of its names, and the days examined for it.
#[derive(Clone, Copy)]
pub struct Done {
    pub unread: usize,
    pub day: Option<Date>,
    pub hour: Option<u32>,
    pub minute: Option<u32>,
    pub second: Option<u32>,
    pub offset: Option<i32>,
    pub forms: Forms,
    pub examined: u32,
}

// Why a reading is refused: 1, 5, 3, 6, 7, 8 in the order in which they are judged, then 11, then 9 and 10, each for the day and for the
// hour. The day is judged before the hour. From 11 on days may have been examined.
#[derive(Clone, Copy)]
pub enum ReadRefusal {
    FormatTooLong,
    TextTooLong,
    BadConversion {
        at: usize,
    },
    NoMatch {
        at: usize,
    },
    OutOfRange {
        at: usize,
    },
    Contradiction {
        at: usize,
    },
    OverBudget {
        budget: u32,
    },
    NoDay {
        examined: u32,
    },
    NoHour {
        examined: u32,
    },
    OpenDay {
        first: Date,
        second: Date,
        examined: u32,
    },
    OpenHour {
        first: u32,
        second: u32,
        examined: u32,
    },
}

// The answer to a reading.
pub type Answer = Result<Done, ReadRefusal>;

// The number, place and values of an answer (RULES 3), the forms of names in it, and how many days were examined for it.
#[derive(Clone, Copy)]
pub struct Reading {
    pub number: u32,
    pub place: usize,
    pub day: Option<Date>,
    pub hour: Option<u32>,
    pub minute: Option<u32>,
    pub second: Option<u32>,
    pub offset: Option<i32>,
    pub forms: Forms,
    pub shown: Option<Shown>,
    pub examined: u32,
}
