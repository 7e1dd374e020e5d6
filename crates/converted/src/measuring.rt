// How many bytes a conversion writes.
ghost use Rattle.std.specs.Prelude.{◌≡◌, length};
ghost use Rattle.names.specs.Names.{short};
ghost use Rattle.names.specs.Naming.{name_for};
ghost use Rattle.converted.specs.Converted.{places_by, converted};

use crate::zones::{seconds_length, zone_length};
use conversions::{Conversion, Form, Style};
use names::{Names, name_length, place_for};
use text::digit_count;
use values::Moment;

// With a flag or a width.
pub fn styled_length(style: Style, c: Conversion, moment: Moment) -> usize
    ensures { result ≡ length (converted style c moment) }
{
    let places = places_by(style, c.width);
    let width = style.width as usize;
    let value = moment.value(c.kind);
    match c.form {
        Form::Zeros | Form::Blanks => places.max(digit_count(value)),
        Form::FromSunday => places.max(digit_count(value % 7)),
        Form::Short(t) => width.max(short_length(t, value)),
        Form::Full(t) | Form::Lower(t) => width.max(full_length(t, value)),
        Form::Zone => zone_length(moment),
        Form::Seconds => seconds_length(moment),
        Form::Unknown => 0,
    }
}

// The places that a number is filled to.
pub fn places_by(style: Style, own: usize) -> usize
    ensures { result ≡ places_by style own }
{
    if style.flag == b'-' {
        return 0;
    }
    own.max(style.width as usize)
}

pub fn full_length(t: Names, value: u32) -> usize
    ensures { result ≡ length (name_for t value) }
{
    name_length(t, place_for(t, value))
}

// Three letters, or as many as the name has.
pub fn short_length(t: Names, value: u32) -> usize
    ensures { result ≡ length (short (name_for t value)) }
{
    full_length(t, value).min(3)
}
