// The text layer: decimal digits and white space.
#![tactic(auto)]

mod digits;
mod space;

pub use digits::{Digits, digit_count, is_digit, read_digits, write_number};
pub use space::{is_space, skip_space};
