// Why a text is refused by 9 or 10, for C (RULES 10.3): each function is on numbers and slices alone, has no `requires`, and says all that
// it leaves in what it is lent. These functions are an object of their own in the library: the compiler puts a function in place where it
// is called once, and beside the readings of `larusqem` these would be second callers.
#![tactic(auto)]

ghost use Rattle.std.specs.Prelude.{◌∷◌, ◌≡◌};
ghost use Rattle.judge.specs.declared.Engine.TheVariants.{Skipping};
ghost use Rattle.laws.specs.Lists.{range};
ghost use Rattle.reasons.specs.Reasons.{explained_by, elements_explained_by};
ghost use Rattle.larusqem_reasons.specs.Reasons.{part_number, differ_number, told, AllFit, extent_words, reason_words};

use judge::Engine;
use matching::Extent;
use reasons::{Explained, Part, Reason, explain, explain_by_format};
use strptime::{read_elements, strptime};

// How many kinds of fact a reason's words tell of: 0 to 15, of which 0 is none.
const TOLD: usize = 16;

fn part_number(part: Part) -> u32
    ensures { result ≡ part_number part }
{
    match part {
        Part::Year => 1,
        Part::Month => 2,
        Part::Day => 3,
    }
}

// The part in which two days differ, 0 where there are no two.
fn differ_number(reason: Option<Reason>) -> u32
    ensures { result ≡ differ_number reason }
{
    match reason {
        Some(Reason::Differ(part)) => part_number(part),
        None | Some(Reason::Quarrel(_)) | Some(Reason::Hours { .. }) => 0,
    }
}

// Where the words of each kind stand, from word 1 on.
fn extent_words(extents: [Extent; kinds::KINDS]) -> [u32; 33]
    requires { AllFit extents }
    ensures { result ≡ 0 ∷ extent_words extents (range 0 told) }
{
    let mut words = [0; 33];
    for kind in 0..TOLD {
        let extent = extents[kind];
        words[2 * kind + 1] = extent.from as u32;
        words[2 * kind + 2] = extent.next as u32;
    }
    words
}

// A reason's words.
fn reason_words(explained: Explained) -> [u32; 33]
    requires { AllFit explained.words }
    ensures { result ≡ reason_words explained }
{
    let extents = explained.words;
    let reason = explained.reason;
    let mut words = extent_words(extents);
    words[0] = differ_number(reason);
    words
}

// Why a text is refused by 9 or 10 where it is read by a format. The engine that skips reads it: every engine that answers has its reason.
#[unsafe(no_mangle)]
pub extern "C" fn larusqem_explain_words(format: &[u8], text: &[u8], reason: &mut [u32; 33])
    ensures { reason.new ≡ reason_words (explained_by Skipping format.now text.now) }
{
    let answer = strptime(Engine::Skipping, format, text);
    *reason = reason_words(explain_by_format(answer, format, text));
}

// The same by the elements of a format that was opened before.
#[unsafe(no_mangle)]
pub extern "C" fn larusqem_explain_read_words(elements: &[u32], text: &[u8], reason: &mut [u32; 33])
    ensures { reason.new ≡ reason_words (elements_explained_by Skipping elements.now text.now) }
{
    let answer = read_elements(Engine::Skipping, elements, text);
    *reason = reason_words(explain(answer, elements, text));
}
