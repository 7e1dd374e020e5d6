// Matching a text to the elements of a format (RULES 6): what each element reads, and the facts of all of them (RULES 7).
#![tactic(auto)]

use agreement::Facts;
use names::NameForm;

mod elements;
mod extents;
mod steps;
mod zones;

pub use extents::{Extent, first_said, nowhere};
pub use steps::read_all;

// Where a reading stands: the facts so far, and the first unread offset of the text.
#[derive(Clone, Copy)]
pub struct State {
    pub facts: Facts,
    pub at: usize,
}

// The forms of the last weekday name and of the last month name that were read.
#[derive(Clone, Copy)]
pub struct Forms {
    pub weekday: Option<NameForm>,
    pub month: Option<NameForm>,
}

// Why an element is refused: the text does not match it, its number is out of range, or it was said before, differently; with the place.
#[derive(Clone, Copy, PartialEq, Eq)]
pub enum Refused {
    Mismatch { at: usize },
    Range { at: usize },
    Conflict { at: usize },
}

// Where a reading ended, and whether all elements were read.
// The forms stand beside the state, and not in it: as two bytes of what is copied whole they would cost 7 ns a reading.
#[derive(Clone, Copy)]
pub struct Stepped {
    pub state: State,
    pub forms: Forms,
    pub outcome: Result<(), Refused>,
}
