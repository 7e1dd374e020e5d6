// How many bytes elements write.
ghost use Rattle.std.specs.Prelude.{◌≡◌, ◌≤◌, length};
ghost use Rattle.conversions.specs.Pieces.{unstyled};
ghost use Rattle.format.specs.Opening.{most_elements};
ghost use Rattle.strftime.specs.Private.{HasRoom};
ghost use Rattle.converted.specs.Converted.{converted};
ghost use Rattle.strftime.specs.Writing.{element, text};

use crate::moments::ValidMoment;
use conversions::{Conversion, Form, conversion_of};
use converted::{full_length, seconds_length, short_length, styled_length, zone_length};
use format::{PLAIN, style_of};
use values::Moment;

pub(crate) fn measure(elements: &[u32], valid: ValidMoment) -> usize
    requires { length elements.now ≤ most_elements }
    ensures { result ≡ length (text valid.moment elements.now) }
{
    let mut n = 0;
    for e in elements {
        n += element_length(*e, valid);
    }
    n
}

fn element_length(e: u32, valid: ValidMoment) -> usize
    ensures { result ≡ length (element valid.moment e) }
{
    if e < 256 {
        return 1;
    }
    let c = conversion_of((e % 256) as u8);
    if e < PLAIN {
        return converted_length(c, valid.moment);
    }
    styled_length(style_of(e), c, valid.moment)
}

// Without flag and width a number is as long as its own width; only the lengths of names, of an offset and of seconds depend on the moment.
fn converted_length(c: Conversion, moment: Moment) -> usize
    requires { HasRoom c moment }
    ensures { result ≡ length (converted unstyled c moment) }
{
    match c.form {
        Form::Zeros | Form::Blanks | Form::FromSunday => c.width,
        Form::Short(t) => short_length(t, moment.value(c.kind)),
        Form::Full(t) | Form::Lower(t) => full_length(t, moment.value(c.kind)),
        Form::Zone => zone_length(moment),
        Form::Seconds => seconds_length(moment),
        Form::Unknown => 0,
    }
}
