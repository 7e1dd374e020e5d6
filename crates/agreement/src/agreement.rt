// Agreement: the value that the writer would write is the one that was said.
ghost use Rattle.std.specs.Prelude.{◌≡◌};
ghost use Rattle.agreement.specs.Agreement.{said, agrees, hour_agrees};

use crate::Facts;
use kinds::{FIRST_HOUR_KIND, LAST_HOUR_KIND};
use values::hour_value;

impl Facts {
    // What was said of a kind: 0 where nothing was, else one more than the number.
    pub fn said(&self, kind: u32) -> u32
        ensures { result ≡ said self.now kind }
    {
        self.said.get(kind as usize).copied().unwrap_or(0)
    }

    // Whether what was said of a kind, if anything was, is this value.
    #[tactic(auto, unfolding(crate::specs::Agreement::agrees))]
    pub fn agree(&self, kind: u32, value: u32) -> bool
        ensures { result ≡ agrees (said self.now kind) value }
    {
        let said = self.said(kind);
        said == 0 || said - 1 == value
    }
}

pub fn hour_agrees(facts: Facts, hour: u32) -> bool
    ensures { result ≡ hour_agrees facts hour }
{
    (FIRST_HOUR_KIND..LAST_HOUR_KIND + 1).all(|kind| facts.agree(kind, hour_value(kind, hour)))
}
