// Agreement: what was said, the hours that agree with all of it, and the verdict on the first two that do (RULES 8).
#![tactic(auto)]

mod agreement;
mod search;
mod verdicts;

pub use agreement::hour_agrees;
pub use search::{hit, is_two, search_hours};
pub use verdicts::verdict_of;

// What was said of each kind of fact, at the kind's number: 0 where nothing was, else one more than the number.
#[derive(Clone, Copy)]
pub struct Facts {
    pub said: [u32; kinds::KINDS],
}

// The first two that were found, earliest first.
#[derive(Clone, Copy)]
pub enum Found {
    Nothing,
    One(u32),
    Two { first: u32, second: u32 },
}

#[derive(Clone, Copy)]
pub enum Verdict {
    Unsaid,
    Impossible,
    Open { first: u32, second: u32 },
    Agreed(u32),
}
