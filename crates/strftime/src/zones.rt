// What %z and %s write, put into a buffer that has room for it.
ghost use Rattle.std.specs.Prelude.{◌+◌, ◌^◌, ◌≤◌, ◌<◌, [], ◌∷◌, nat_abs, length};
ghost use Rattle.laws.specs.Stores.{Puts};
ghost use Rattle.text.specs.Digits.{plain};
ghost use Rattle.converted.specs.Zones.{hours_minutes, east, zone, whole, epoch_seconds};

use crate::putting::put_number;
use converted::{BILLION, zone_sign};
use text::digit_count;
use values::{Moment, is_negative, magnitude};

// Not in place, where the digits would be worked out ahead of the elements, whatever they write.
#[inline(never)]
pub(crate) fn put_zone(out: &mut [u8], at: usize, moment: Moment) -> usize
    requires { at + length (zone moment.offset) ≤ length out.old }
    ensures { Puts (zone moment.offset) out.old at out.new result }
{
    match moment.offset {
        None => at,
        Some(minutes) => put_east(out, at, minutes as i64),
    }
}

// An offset that is said: its sign, hours and minutes. (The bound is all that 32 bits can ask: the offset of a moment is far below.)
fn put_east(out: &mut [u8], at: usize, minutes: i64) -> usize
    requires minutes_bound { nat_abs minutes < 10 ^ 10 }
    requires minutes_in_bounds { at + length (east minutes) ≤ length out.old }
    ensures { Puts (east minutes) out.old at out.new result }
{
    let next = put_byte(out, at, zone_sign(minutes));
    put_hours(out, next, magnitude(minutes))
}

fn put_byte(out: &mut [u8], at: usize, b: u8) -> usize
    requires { at < length out.old }
    ensures { Puts (b ∷ []) out.old at out.new result }
{
    out[at] = b;
    at + 1
}

fn put_hours(out: &mut [u8], at: usize, minutes: u64) -> usize
    requires minutes_bound { minutes < 10 ^ 10 }
    requires at_in_bounds { at + 4 ≤ length out.old }
    ensures { Puts (hours_minutes minutes) out.old at out.new result }
{
    let middle = put_number(out, at, 2, b'0', (minutes / 60) as u32);
    put_number(out, middle, 2, b'0', (minutes % 60) as u32)
}

pub(crate) fn put_seconds(out: &mut [u8], at: usize, moment: Moment) -> usize
    requires { at + length (epoch_seconds moment moment.offset) ≤ length out.old }
    ensures { Puts (epoch_seconds moment moment.offset) out.old at out.new result }
{
    match moment.offset {
        None => at,
        Some(east) => put_whole(out, at, moment.seconds(east)),
    }
}

fn put_whole(out: &mut [u8], at: usize, z: i64) -> usize
    requires z_bound { nat_abs z < 10 ^ 15 }
    requires z_in_bounds { at + length (whole z) ≤ length out.old }
    ensures { Puts (whole z) out.old at out.new result }
{
    if is_negative(z) {
        let next = put_byte(out, at, b'-');
        return put_long(out, next, magnitude(z));
    }
    put_long(out, at, magnitude(z))
}

// A number that may not fit 32 bits: the digits before the last nine, and these.
fn put_long(out: &mut [u8], at: usize, n: u64) -> usize
    requires n_bound { n < 10 ^ 15 }
    requires n_in_bounds { at + length (plain n) ≤ length out.old }
    ensures { Puts (plain n) out.old at out.new result }
{
    if n < BILLION {
        return put_plain(out, at, n as u32);
    }
    let middle = put_plain(out, at, (n / BILLION) as u32);
    put_number(out, middle, 9, b'0', (n % BILLION) as u32)
}

fn put_plain(out: &mut [u8], at: usize, n: u32) -> usize
    requires { at + length (plain n) ≤ length out.old }
    ensures { Puts (plain n) out.old at out.new result }
{
    put_number(out, at, digit_count(n), b'0', n)
}
