// Why a reading is refused by 9 or 10 (RULES 8.5): the words that quarrel, or in what the first two days or hours differ.
#![tactic(auto)]

use matching::Extent;

mod explaining;
mod quarrels;

pub use explaining::{differing, explain, explain_by_format};
pub use quarrels::quarrelling;

// What is judged.
#[derive(Clone, Copy)]
pub enum About {
    Day,
    Hour,
}

// The parts of a date, in the order in which two days are compared.
#[derive(Clone, Copy)]
pub enum Part {
    Year,
    Month,
    Day,
}

// With 9 a quarrel; with 10 the first part in which the two days differ, or the two hours.
#[derive(Clone, Copy)]
pub enum Reason {
    Quarrel(About),
    Differ(Part),
    Hours { first: u32, second: u32 },
}

// A reason, or none with every other number; and where each kind that quarrels was first said, at the kind's number. Every other kind
// stands nowhere.
#[derive(Clone, Copy)]
pub struct Explained {
    pub reason: Option<Reason>,
    pub words: [Extent; kinds::KINDS],
}
