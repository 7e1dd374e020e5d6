// What a conversion writes for a moment (RULES 5), with a flag and a width: how long it is, and what the flag chooses. What is put into a
// buffer, and the order of refusals, is in `strftime`.
#![tactic(auto)]

mod measuring;
mod styles;
mod zones;

pub use measuring::{full_length, places_by, short_length, styled_length};
pub use styles::{case_by, fill_by};
pub use zones::{BILLION, seconds_length, zone_length, zone_sign};
