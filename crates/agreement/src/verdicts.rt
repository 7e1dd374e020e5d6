// The verdict on what was found.
ghost use Rattle.std.specs.Prelude.{◌≡◌};
ghost use Rattle.agreement.specs.Verdicts.{verdict_of};

use crate::{Found, Verdict};

#[tactic(auto, unfolding(crate::specs::Verdicts::verdict_of))]
pub fn verdict_of(found: Found) -> Verdict
    ensures { result ≡ verdict_of found }
{
    match found {
        Found::Nothing => Verdict::Impossible,
        Found::One(only) => Verdict::Agreed(only),
        Found::Two { first, second } => Verdict::Open { first, second },
    }
}
