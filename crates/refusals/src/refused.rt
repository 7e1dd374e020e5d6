// A text that is refused.
ghost use Rattle.std.specs.Prelude.{◌<◌, ◌^◌};
ghost use Rattle.refusals.specs.Private.{AllInside};
ghost use Rattle.strptime.specs.Answers.{refusal_of};

use matching::Extent;
use strptime::ReadRefusal;

// A text, why it is refused, and the words of it that quarrel, by kind.
#[derive(Clone, Copy)]
pub(crate) struct Refused<'a> {
    pub(crate) text: &'a [u8],
    pub(crate) refusal: ReadRefusal,
    pub(crate) words: [Extent; kinds::KINDS],
    ghost place_fits: { (refusal_of refusal).place < 2 ^ 32 },
    ghost all_inside: { AllInside words text.now },
}
