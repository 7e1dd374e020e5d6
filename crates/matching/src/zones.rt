// Reading a zone offset.
ghost use Rattle.std.specs.Prelude.{◌≡◌, ◌+◌, ◌≤◌, ◌<◌, ◌^◌, length};
ghost use Rattle.values.specs.Offsets.{offset_number};
ghost use Rattle.matching.specs.Zones.{is_sign, signed_by, offset_at, read_zone};

use crate::Refused;
use crate::elements::Item;
use conversions::Conversion;
use text::{Digits, read_digits};

#[tactic(auto, unfolding(crate::specs::Zones::is_sign))]
fn is_sign(b: u8) -> bool
    ensures { result ≡ is_sign b }
{
    matches!(b, b'+' | b'-')
}

// The number of the fact that so many minutes after a sign are.
#[tactic(auto, using(crate::proofs::Zoned::number_ways))]
fn offset_number(sign: u8, minutes: u32) -> u32
    requires { minutes ≤ 1439 }
    ensures { result ≡ offset_number (signed_by sign minutes) }
{
    if sign == b'-' {
        return 1439 - minutes;
    }
    1439 + minutes
}

// What digits after the sign at `at` say.
#[tactic(auto, unfolding(crate::specs::Zones::offset_at))]
fn offset_at(kind: u32, sign: u8, digits: Digits, at: usize) -> Result<Item, Refused>
    requires { at + 5 < 2 ^ 64 }
    ensures { result ≡ offset_at kind sign digits at }
{
    if digits.count != 4 {
        return Err(Refused::Mismatch { at });
    }
    let hours = digits.value / 100;
    let minutes = digits.value % 100;
    if 23 < hours || 59 < minutes {
        return Err(Refused::Range { at });
    }
    Ok(Item::Fact {
        kind,
        number: offset_number(sign, 60 * hours + minutes),
        form: None,
        from: at,
        next: at + 5,
    })
}

// A sign and four digits, right there.
#[tactic(auto, using(crate::proofs::Zoned::zone_ways))]
pub(crate) fn read_zone(c: Conversion, s: &[u8], at: usize) -> Result<Item, Refused>
    requires { at ≤ length s.now }
    ensures { result ≡ read_zone c s.now at }
{
    if s.len() <= at {
        return Err(Refused::Mismatch { at });
    }
    let sign = s[at];
    if !is_sign(sign) {
        return Err(Refused::Mismatch { at });
    }
    offset_at(c.kind, sign, read_digits(s, at + 1, 4), at)
}
