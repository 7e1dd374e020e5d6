// Lists of texts (RULES 9): a format on the first line, a text on each other one; and what the reports on them are made of.
#![tactic(auto)]

use format::Opened;

mod answers;
mod beginning;
mod lines;
mod places;
mod putting;

pub use answers::{answer_to, elements_of};
pub use beginning::begin;
pub use lines::line_end;
pub use places::{first_place, put_byte, put_bytes, put_date, put_four, put_plain, put_two};
pub use putting::Writer;

// The bytes of the longest input.
pub const LONGEST_INPUT: usize = 32768;

// The bytes of a part's buffer.
pub const PART: usize = 65536;

// The first part of a report: what opening the format answered, how many bytes were put, and where the texts begin.
#[derive(Clone, Copy)]
pub struct First {
    pub opened: Opened,
    pub count: usize,
    pub next: usize,
}

// Another part: how many bytes were put, and where the texts begin that are left.
#[derive(Clone, Copy)]
pub struct Next {
    pub count: usize,
    pub next: usize,
}
