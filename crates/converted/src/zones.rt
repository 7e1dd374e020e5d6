// What %z and %s write: how long it is, and its sign.
ghost use Rattle.std.specs.Prelude.{◌^◌, ◌<◌, ◌≡◌, cond, nat_abs, length};
ghost use Rattle.text.specs.Digits.{plain};
ghost use Rattle.values.specs.Offsets.{is_negative};
ghost use Rattle.converted.specs.Zones.{zone, whole, epoch_seconds};

use text::digit_count;
use values::{Moment, is_negative, magnitude};

// One more than nine digits hold.
pub const BILLION: u64 = 1000000000;

pub fn zone_length(moment: Moment) -> usize
    ensures { result ≡ length (zone moment.offset) }
{
    match moment.offset {
        None => 0,
        Some(_) => 5,
    }
}

pub fn seconds_length(moment: Moment) -> usize
    ensures { result ≡ length (epoch_seconds moment moment.offset) }
{
    match moment.offset {
        None => 0,
        Some(east) => whole_length(moment.seconds(east)),
    }
}

fn whole_length(z: i64) -> usize
    requires { nat_abs z < 10 ^ 15 }
    ensures { result ≡ length (whole z) }
{
    let digits = long_count(magnitude(z));
    if is_negative(z) {
        return digits + 1;
    }
    digits
}

// How many digits a number has that may not fit 32 bits: nine, and those before them.
fn long_count(n: u64) -> usize
    requires { n < 10 ^ 15 }
    ensures { result ≡ length (plain n) }
{
    if n < BILLION {
        return digit_count(n as u32);
    }
    digit_count((n / BILLION) as u32) + 9
}

// The sign of an offset.
pub fn zone_sign(minutes: i64) -> u8
    ensures { result ≡ cond (is_negative minutes) 45 43 }
{
    if is_negative(minutes) { b'-' } else { b'+' }
}
