// Reading one element of a format.
ghost use Rattle.std.specs.Prelude.{◌≡◌, ◌≤◌, length};
ghost use Rattle.matching.specs.Elements.{read_byte, read_number, from_sunday, read_named, read_conversion, read_element};

use crate::Refused;
use crate::zones::read_zone;
use conversions::{Conversion, Form, conversion_of};
use names::{NameForm, Names, read_name, value_at};
use text::{is_space, read_digits, skip_space};

// What an element found: nothing to say, or a fact, with its form if it is a name and with the offset of its first digit, letter or sign.
#[derive(Clone, Copy)]
pub enum Item {
    Skip {
        next: usize,
    },
    Fact {
        kind: u32,
        number: u32,
        form: Option<NameForm>,
        from: usize,
        next: usize,
    },
}

// The space that is skipped ends within the text. `min` says so to the compiler, which otherwise puts `next` together from four parts for
// each byte of a format: a long one took a third more instructions.
#[tactic(auto, using(crate::proofs::Ways::byte_ways))]
fn read_byte(b: u8, s: &[u8], at: usize) -> Result<Item, Refused>
    requires { at ≤ length s.now }
    ensures { result ≡ read_byte b s.now at }
{
    if is_space(b) {
        return Ok(Item::Skip {
            next: skip_space(s, at).min(s.len()),
        });
    }
    if s.len() <= at || s[at] != b {
        return Err(Refused::Mismatch { at });
    }
    let next = at + 1;
    Ok(Item::Skip { next })
}

#[tactic(auto, using(crate::proofs::Ways::number_ways))]
fn read_number(c: Conversion, s: &[u8], at: usize) -> Result<Item, Refused>
    requires { (c.width ≤ 9) × (at ≤ length s.now) }
    ensures { result ≡ read_number c s.now at }
{
    let start = skip_space(s, at);
    let digits = read_digits(s, start, c.width);
    if digits.count == 0 {
        return Err(Refused::Mismatch { at: start });
    }
    if digits.value < c.low || c.high < digits.value {
        return Err(Refused::Range { at: start });
    }
    Ok(Item::Fact {
        kind: c.kind,
        number: digits.value,
        form: None,
        from: start,
        next: start + digits.count,
    })
}

#[tactic(auto, unfolding(crate::specs::Elements::from_sunday))]
fn from_sunday(item: Result<Item, Refused>) -> Result<Item, Refused>
    ensures { result ≡ from_sunday item }
{
    match item {
        Ok(
            Item::Fact {
                kind,
                number: 0,
                form,
                from,
                next,
            },
        ) => Ok(Item::Fact {
            kind,
            number: 7,
            form,
            from,
            next,
        }),
        other => other,
    }
}

#[tactic(auto, using(crate::proofs::Ways::name_ways))]
fn read_named(names: Names, c: Conversion, s: &[u8], at: usize) -> Result<Item, Refused>
    requires { at ≤ length s.now }
    ensures { result ≡ read_named names c s.now at }
{
    let Some(name) = read_name(names, s, at) else {
        return Err(Refused::Mismatch { at });
    };
    Ok(Item::Fact {
        kind: c.kind,
        number: value_at(names, name.index as u8),
        form: Some(name.form),
        from: at,
        next: at + name.length,
    })
}

#[tactic(auto, unfolding(crate::specs::Elements::read_conversion, crate::specs::Elements::read_form))]
fn read_conversion(c: Conversion, s: &[u8], at: usize) -> Result<Item, Refused>
    requires { (c.width ≤ 9) × (at ≤ length s.now) }
    ensures { result ≡ read_conversion c s.now at }
{
    match c.form {
        Form::Zeros | Form::Blanks => read_number(c, s, at),
        Form::FromSunday => from_sunday(read_number(c, s, at)),
        Form::Short(names) | Form::Full(names) | Form::Lower(names) => read_named(names, c, s, at),
        Form::Zone => read_zone(c, s, at),
        Form::Seconds | Form::Unknown => Err(Refused::Mismatch { at }),
    }
}

// An element at an offset of a text.
#[tactic(auto, unfolding(crate::specs::Elements::read_element))]
pub(crate) fn read_element(element: u32, s: &[u8], at: usize) -> Result<Item, Refused>
    requires { at ≤ length s.now }
    ensures { result ≡ read_element element s.now at }
{
    if element < 256 {
        return read_byte(element as u8, s, at);
    }
    read_conversion(conversion_of((element % 256) as u8), s, at)
}
