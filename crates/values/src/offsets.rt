// Zone offsets: minutes east of UTC, or none that is said.
ghost use Rattle.std.specs.Prelude.{◌≡◌, nat_abs};
ghost use Rattle.values.specs.Offsets.{is_offset, is_negative, offset_of};

pub fn is_negative(z: i64) -> bool
    ensures { result ≡ is_negative z }
{
    z < 0
}

// How far a number lies from zero.
pub fn magnitude(z: i64) -> u64
    ensures { result ≡ nat_abs z }
{
    z.unsigned_abs()
}

// Whether an offset is one, if it is said.
#[tactic(auto, unfolding(crate::specs::Offsets::is_offset))]
pub(crate) fn is_offset(offset: Option<i32>) -> bool
    ensures { result ≡ is_offset offset }
{
    match offset {
        None => true,
        Some(east) => east.unsigned_abs() <= 1439,
    }
}

// The offset that was said of kind 18.
#[tactic(auto, unfolding(crate::specs::Offsets::offset_of))]
pub fn offset_of(said: u32) -> Option<i32>
    ensures { result ≡ offset_of said }
{
    match said {
        1..=2879 => Some(said as i32 - 1440),
        _ => None,
    }
}
