ghost use Rattle.std.specs.Prelude.{◌≡◌};
ghost use Rattle.conversions.specs.Conversions.{conversion_of};

use names::Names;

// How a conversion is written and read: numbers filled with zeros or blanks, the weekday counted from Sunday 0; names of a table
// in three letters, in full, or in full with small letters; a zone offset; the seconds of %s; or no conversion at all.
// (No Option around it: conversion_of answers a row for every letter, and Unknown is the form of that row.)
#[derive(Clone, Copy)]
pub enum Form {
    Zeros,
    Blanks,
    FromSunday,
    Short(Names),
    Full(Names),
    Lower(Names),
    Zone,
    Seconds,
    Unknown,
}

// A conversion: its kind of fact, its form, and for a number its width and range.
#[derive(Clone, Copy)]
pub struct Conversion {
    pub kind: u32,
    pub form: Form,
    pub width: usize,
    pub low: u32,
    pub high: u32,
}

fn number(kind: u32, form: Form, width: usize, low: u32, high: u32) -> Conversion
    ensures { result ≡ record { kind = kind; form = form; width = width; low = low; high = high } }
{
    Conversion {
        kind,
        form,
        width,
        low,
        high,
    }
}

fn other(kind: u32, form: Form) -> Conversion
    ensures { result ≡ record { kind = kind; form = form; width = 0; low = 0; high = 0 } }
{
    number(kind, form, 0, 0, 0)
}

// The conversion of a letter, a row for each in the order of the kinds of fact. (A constant array would be copied at each use.)
#[tactic(auto, unfolding(crate::specs::Conversions::computes))]
pub fn conversion_of(letter: u8) -> Conversion
    ensures { result ≡ conversion_of letter }
{
    match letter {
        b'Y' => number(kinds::YEAR, Form::Zeros, 4, 1, 9999),
        b'C' => number(kinds::CENTURY, Form::Zeros, 2, 0, 99),
        b'y' => number(kinds::YEAR_IN_CENTURY, Form::Zeros, 2, 0, 99),
        b'm' => number(kinds::MONTH, Form::Zeros, 2, 1, 12),
        b'b' | b'h' => other(kinds::MONTH, Form::Short(Names::Months)),
        b'B' => other(kinds::MONTH, Form::Full(Names::Months)),
        b'd' => number(kinds::DAY, Form::Zeros, 2, 1, 31),
        b'e' => number(kinds::DAY, Form::Blanks, 2, 1, 31),
        b'j' => number(kinds::DAY_OF_YEAR, Form::Zeros, 3, 1, 366),
        b'u' => number(kinds::WEEKDAY, Form::Zeros, 1, 1, 7),
        b'w' => number(kinds::WEEKDAY, Form::FromSunday, 1, 0, 6),
        b'a' => other(kinds::WEEKDAY, Form::Short(Names::Weekdays)),
        b'A' => other(kinds::WEEKDAY, Form::Full(Names::Weekdays)),
        b'U' => number(kinds::SUNDAY_WEEK, Form::Zeros, 2, 0, 53),
        b'W' => number(kinds::MONDAY_WEEK, Form::Zeros, 2, 0, 53),
        b'G' => number(kinds::ISO_YEAR, Form::Zeros, 4, 1, 9999),
        b'g' => number(kinds::ISO_YEAR_IN_CENTURY, Form::Zeros, 2, 0, 99),
        b'V' => number(kinds::ISO_WEEK, Form::Zeros, 2, 1, 53),
        b'H' => number(kinds::HOUR, Form::Zeros, 2, 0, 23),
        b'k' => number(kinds::HOUR, Form::Blanks, 2, 0, 23),
        b'I' => number(kinds::HOUR_OF_TWELVE, Form::Zeros, 2, 1, 12),
        b'l' => number(kinds::HOUR_OF_TWELVE, Form::Blanks, 2, 1, 12),
        b'p' => other(kinds::HALF_OF_DAY, Form::Full(Names::Halves)),
        b'P' => other(kinds::HALF_OF_DAY, Form::Lower(Names::Halves)),
        b'M' => number(kinds::MINUTE, Form::Zeros, 2, 0, 59),
        b'S' => number(kinds::SECOND, Form::Zeros, 2, 0, 60),
        b'z' => other(kinds::ZONE_OFFSET, Form::Zone),
        b's' => other(0, Form::Seconds),
        _ => other(0, Form::Unknown),
    }
}
