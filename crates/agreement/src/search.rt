// The first two that are found, in order; and the search over the hours.
ghost use Rattle.std.specs.Prelude.{◌≡◌};
ghost use Rattle.agreement.specs.Agreement.{hour_agrees};
ghost use Rattle.agreement.specs.Search.{hit, is_two, first_two};

use crate::agreement::hour_agrees;
use crate::{Facts, Found};

// What is found once `number` has passed too: two stay as they are.
#[tactic(auto, unfolding(crate::specs::Search::hit))]
pub fn hit(number: u32, found: Found) -> Found
    ensures { result ≡ hit number found }
{
    match found {
        Found::Nothing => Found::One(number),
        Found::One(first) => Found::Two {
            first,
            second: number,
        },
        Found::Two { .. } => found,
    }
}

#[tactic(auto, unfolding(crate::specs::Search::is_two))]
pub fn is_two(found: Found) -> bool
    ensures { result ≡ is_two found }
{
    matches!(found, Found::Two { .. })
}

// The first two hours that agree with all hour facts.
pub fn search_hours(facts: Facts) -> Found
    ensures { result ≡ first_two (hour_agrees facts) 0 24 }
{
    let mut found = Found::Nothing;
    for hour in 0..24 {
        if hour_agrees(facts, hour) {
            found = hit(hour, found);
            if is_two(found) {
                break;
            }
        }
    }
    found
}
