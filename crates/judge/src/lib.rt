// Judging facts: which days, and which hours, agree with all of them (RULES 8).
#![tactic(auto)]

mod counting;
mod judging;
mod plain;
mod skipping;
mod spans;
mod testing;

use agreement::Verdict;
pub use judging::{judge_day, judge_hour};
pub use skipping::search_days;

// How the day is looked for: by skipping what cannot agree, or plainly day by day, all of them or as many as a budget allows.
#[derive(Clone, Copy)]
pub enum Engine {
    Skipping,
    Plain,
    Within { budget: u32 },
}

// What an engine gives: the verdict on the day, and how many days it examined.
#[derive(Clone, Copy)]
pub struct Judged {
    pub verdict: Verdict,
    pub examined: u32,
}

// There are more days to examine than the budget allows.
#[derive(Clone, Copy, PartialEq, Eq)]
pub struct OverBudget {
    pub budget: u32,
}
