// The format layer (RULES 4): opening a format into elements.
#![tactic(auto)]

mod opening;

pub use opening::{
    LONGEST, MOST_ELEMENTS, Opened, PLAIN, Side, Unopened, elements_in, entry_place, open, style_of,
};

// The room that a short format and a middling one need: to clear room for the longest takes longer than to write or read by a short one.
pub const SHORT_BYTES: usize = 16;

pub const SHORT_ELEMENTS: usize = 104;

pub const MIDDLE_BYTES: usize = 128;

pub const MIDDLE_ELEMENTS: usize = 832;
