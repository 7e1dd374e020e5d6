// Where a kind of fact was first said.
ghost use Rattle.std.specs.Prelude.{◌≡◌};
ghost use Rattle.matching.specs.Extents.{nowhere, first_said};

use crate::elements::{Item, read_element};

// Where words stand in a text: from the first digit or letter up to `next`, the offset after the last; 0 and 0 where none stand.
#[derive(Clone, Copy)]
pub struct Extent {
    pub from: usize,
    pub next: usize,
}

// No words.
#[tactic(auto, unfolding(crate::specs::Extents::nowhere))]
pub fn nowhere() -> Extent
    ensures { result ≡ nowhere }
{
    Extent { from: 0, next: 0 }
}

// Where elements first say a kind, read one after the other from the text's start on.
pub fn first_said(kind: u32, elements: &[u32], s: &[u8]) -> Extent
    ensures { result ≡ first_said kind elements.now s.now 0 }
{
    let mut at = 0;
    for element in elements {
        let Ok(item) = read_element(*element, s, at) else {
            return nowhere();
        };
        at = match item {
            Item::Skip { next } => next,
            Item::Fact {
                kind: said,
                from,
                next,
                ..
            } => {
                if said == kind {
                    return Extent { from, next };
                }
                next
            }
        };
    }
    nowhere()
}
