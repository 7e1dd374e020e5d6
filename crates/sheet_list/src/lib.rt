// The packed list of sheets and its table of weeks (RULES 11), in arrays that the caller lends.
#![tactic(auto)]

mod adding;
mod ascending;
mod judging;
mod tallies;
mod weeks;

pub use adding::{AddRefusal, Added, add, add_all};
pub use judging::{TABLE_LENGTH, is_held};
pub use tallies::{Tallied, count_sheets};
