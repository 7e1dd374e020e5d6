// Moments that were judged.
ghost use Rattle.std.specs.Prelude.{◌≡◌};
ghost use Rattle.values.specs.Values.{value};
ghost use Rattle.strftime.specs.Private.{IsMoment};

use values::Moment;

// A moment whose fields are in range: what it writes has a bound, so that it can be measured.
#[derive(Clone, Copy)]
pub(crate) struct ValidMoment {
    pub(crate) moment: Moment,
    ghost valid: { IsMoment moment },
}

// The kinds up to this one bear on the day.
const LAST_DAY_KIND: u32 = 12;

// The value of a kind of fact.
pub(crate) fn value_of(moment: Moment, kind: u32) -> u32
    ensures { result ≡ value kind moment }
{
    if kind <= LAST_DAY_KIND {
        return moment.value(kind);
    }
    value_of_time(moment, kind)
}

// The same, of any kind. In place those of the hour would be worked out ahead of the elements, whatever they write.
#[inline(never)]
fn value_of_time(moment: Moment, kind: u32) -> u32
    ensures { result ≡ value kind moment }
{
    moment.value(kind)
}
