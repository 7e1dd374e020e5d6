// What elements write, put into a buffer that has room for it. Each function puts from a place on and answers the place after.
ghost use Rattle.std.specs.Prelude.{◌+◌, ◌-◌, ◌≤◌, length, replicate, take};
ghost use Rattle.laws.specs.Stores.{Puts};
ghost use Rattle.names.specs.Case.{cased};
ghost use Rattle.text.specs.Digits.{filled};
ghost use Rattle.names.specs.Naming.{name_for};
ghost use Rattle.conversions.specs.Pieces.{unstyled};
ghost use Rattle.strftime.specs.Private.{HasRoom};
ghost use Rattle.converted.specs.Converted.{number, name, converted};
ghost use Rattle.strftime.specs.Writing.{element, text};

use crate::moments::{ValidMoment, value_of};
use crate::zones::{put_seconds, put_zone};
use conversions::{Conversion, Form, Style, conversion_of};
use converted::{case_by, fill_by, full_length, places_by, short_length};
use format::{PLAIN, style_of};
use names::{Case, Names, place_for, write_name};
use text::{digit_count, write_number};
use values::Moment;

// All elements, one after the other, over the start.
pub(crate) fn put_elements(out: &mut [u8], elements: &[u32], valid: ValidMoment) -> usize
    requires { length (text valid.moment elements.now) ≤ length out.old }
    ensures { Puts (text valid.moment elements.now) out.old 0 out.new result }
{
    let mut at = 0;
    for e in elements {
        at = put_element(out, at, *e, valid);
    }
    at
}

fn put_element(out: &mut [u8], at: usize, e: u32, valid: ValidMoment) -> usize
    requires { at + length (element valid.moment e) ≤ length out.old }
    ensures { Puts (element valid.moment e) out.old at out.new result }
{
    if e < 256 {
        out[at] = e as u8;
        return at + 1;
    }
    let c = conversion_of((e % 256) as u8);
    if e < PLAIN {
        return put_converted(out, at, c, valid.moment);
    }
    put_styled(out, at, style_of(e), c, valid.moment)
}

// A conversion without flag and width. A number is put on its own width at once, since no value has more digits.
fn put_converted(out: &mut [u8], at: usize, c: Conversion, moment: Moment) -> usize
    requires moment_in_bounds { at + length (converted unstyled c moment) ≤ length out.old }
    requires has_room { HasRoom c moment }
    ensures { Puts (converted unstyled c moment) out.old at out.new result }
{
    let width = c.width;
    let value = value_of(moment, c.kind);
    match c.form {
        Form::Zeros => put_number(out, at, width, b'0', value),
        Form::Blanks => put_number(out, at, width, b' ', value),
        Form::FromSunday => put_number(out, at, width, b'0', value % 7),
        Form::Short(t) => put_name(out, at, short_length(t, value), t, value, Case::AsIs),
        Form::Full(t) => put_name(out, at, full_length(t, value), t, value, Case::AsIs),
        Form::Lower(t) => put_name(out, at, full_length(t, value), t, value, Case::Small),
        Form::Zone => put_zone(out, at, moment),
        Form::Seconds => put_seconds(out, at, moment),
        Form::Unknown => at,
    }
}

// A conversion with a flag or a width: the fill, and then what it fills.
fn put_styled(out: &mut [u8], at: usize, style: Style, c: Conversion, moment: Moment) -> usize
    requires { at + length (converted style c moment) ≤ length out.old }
    ensures { Puts (converted style c moment) out.old at out.new result }
{
    let width = c.width;
    let value = value_of(moment, c.kind);
    match c.form {
        Form::Zeros => put_styled_number(out, at, style, b'0', width, value),
        Form::Blanks => put_styled_number(out, at, style, b' ', width, value),
        Form::FromSunday => put_styled_number(out, at, style, b'0', width, value % 7),
        Form::Short(t) => put_styled_name(
            out,
            at,
            style,
            Case::AsIs,
            short_length(t, value),
            t,
            value,
        ),
        Form::Full(t) => put_styled_name(
            out,
            at,
            style,
            Case::AsIs,
            full_length(t, value),
            t,
            value,
        ),
        Form::Lower(t) => put_styled_name(
            out,
            at,
            style,
            Case::Small,
            full_length(t, value),
            t,
            value,
        ),
        Form::Zone => put_zone(out, at, moment),
        Form::Seconds => put_seconds(out, at, moment),
        Form::Unknown => at,
    }
}

fn put_styled_number(
    out: &mut [u8],
    at: usize,
    style: Style,
    own: u8,
    width: usize,
    value: u32,
) -> usize
    requires { at + length (number style own width value) ≤ length out.old }
    ensures { Puts (number style own width value) out.old at out.new result }
{
    let n = digit_count(value);
    let from = put_fill(
        out,
        at,
        fill_by(style.flag, own),
        places_by(style, width),
        n,
    );
    put_number(out, from, n, b'0', value)
}

fn put_styled_name(
    out: &mut [u8],
    at: usize,
    style: Style,
    own: Case,
    n: usize,
    t: Names,
    value: u32,
) -> usize
    requires n_bound { n ≤ length (name_for t value) }
    requires n_in_bounds { at + length (name style own (take n (name_for t value))) ≤ length out.old }
    ensures { Puts (name style own (take n (name_for t value))) out.old at out.new result }
{
    let from = put_fill(out, at, b' ', style.width as usize, n);
    put_name(out, from, n, t, value, case_by(style.flag, own))
}

// The fill before `n` bytes that are to stand on `places` places, if they are fewer.
fn put_fill(out: &mut [u8], at: usize, fill: u8, places: usize, n: usize) -> usize
    requires { at + (places - n) ≤ length out.old }
    ensures { Puts (replicate (places - n) fill) out.old at out.new result }
{
    let end = at + places.saturating_sub(n);
    out[at..end].fill(fill);
    end
}

// A number on exactly `width` places.
pub(crate) fn put_number(out: &mut [u8], at: usize, width: usize, fill: u8, value: u32) -> usize
    requires { at + width ≤ length out.old }
    ensures { Puts (filled fill width value) out.old at out.new result }
{
    let end = at + width;
    write_number(&mut out[at..end], fill, value);
    end
}

// The first `n` letters of a name.
fn put_name(out: &mut [u8], at: usize, n: usize, t: Names, value: u32, case: Case) -> usize
    requires n_bound { n ≤ length (name_for t value) }
    requires n_in_bounds { at + n ≤ length out.old }
    ensures { Puts (cased case (take n (name_for t value))) out.old at out.new result }
{
    let end = at + n;
    write_name(&mut out[at..end], t, place_for(t, value), case);
    end
}
