// What is said of a text that is refused.
ghost use Rattle.lists.specs.Putting.{Writes};
ghost use Rattle.refusals.specs.Sentences.{bad_conversion, mismatch, noun, quarrel, part_name, open_day, missing_hour};
ghost use Rattle.refusals.specs.Sentences.{open_hour, sentence};
ghost use Rattle.strptime.specs.Answers.{refusal_of};

use crate::refused::Refused;
use crate::words::put_word_list;
use calendar::Date;
use lists::Writer;
use reasons::{About, Part, differing};
use strptime::ReadRefusal;

fn put_bad_conversion(w: &mut Writer, place: u32)
    ensures { Writes (bad_conversion place) w.old w.new }
{
    w.bytes(b"the format has a conversion at byte ");
    w.plain(place);
    w.bytes(b" that is unknown or unfinished, or that has a flag or a width");
}

fn put_mismatch(w: &mut Writer, place: usize, text: &[u8])
    ensures { Writes (mismatch place text.now) w.old w.new }
{
    if place < text.len() {
        w.bytes(b"the text does not go on as the format wants");
    } else {
        w.bytes(b"the text ends before the format does");
    }
}

fn put_noun(w: &mut Writer, about: About)
    ensures { Writes (noun about) w.old w.new }
{
    match about {
        About::Day => w.bytes(b"day"),
        About::Hour => w.bytes(b"hour"),
    }
}

// The words that quarrel.
fn put_quarrel(w: &mut Writer, about: About, refused: &Refused)
    ensures { Writes (quarrel about refused.now.words refused.now.text.now) w.old w.new }
{
    w.bytes(b"no ");
    put_noun(w, about);
    w.bytes(b" is ");
    put_word_list(w, refused);
    w.bytes(b" together");
}

fn put_part(w: &mut Writer, part: Part)
    ensures { Writes (part_name part) w.old w.new }
{
    match part {
        Part::Year => w.bytes(b"year"),
        Part::Month => w.bytes(b"month"),
        Part::Day => w.bytes(b"day"),
    }
}

fn put_open_day(w: &mut Writer, first: Date, second: Date)
    ensures { Writes (open_day first second) w.old w.new }
{
    w.bytes(b"more than one day agrees, the earliest ");
    w.date(first);
    w.bytes(b" and ");
    w.date(second);
    w.bytes(b"; the ");
    put_part(w, differing(first, second));
    w.bytes(b" is missing");
}

// Two hours that are 12 apart differ in AM and PM alone.
fn put_missing_hour(w: &mut Writer, first: u32, second: u32)
    ensures { Writes (missing_hour first second) w.old w.new }
{
    if 12 <= second && second - 12 == first {
        w.bytes(b"AM or PM");
    } else {
        w.bytes(b"the hour");
    }
}

fn put_open_hour(w: &mut Writer, first: u32, second: u32)
    ensures { Writes (open_hour first second) w.old w.new }
{
    w.bytes(b"more than one hour agrees, the earliest ");
    w.plain(first);
    w.bytes(b" and ");
    w.plain(second);
    w.bytes(b"; ");
    put_missing_hour(w, first, second);
    w.bytes(b" is missing");
}

// By why it is refused; nothing for a budget's number, which no list has.
pub(crate) fn put_sentence(w: &mut Writer, refused: &Refused)
    ensures { Writes (sentence (refusal_of refused.now.refusal) refused.now.words refused.now.text.now) w.old w.new }
{
    match refused.refusal {
        ReadRefusal::FormatTooLong => w.bytes(b"the format has more than 1,024 bytes"),
        ReadRefusal::BadConversion { at } => put_bad_conversion(w, at as u32),
        ReadRefusal::TextTooLong => w.bytes(b"the text has more than 1,024 bytes"),
        ReadRefusal::NoMatch { at } => put_mismatch(w, at, refused.text),
        ReadRefusal::OutOfRange { .. } => w.bytes(b"this number is outside its range"),
        ReadRefusal::Contradiction { .. } => w.bytes(b"this was said before, differently"),
        ReadRefusal::NoDay { .. } => put_quarrel(w, About::Day, refused),
        ReadRefusal::NoHour { .. } => put_quarrel(w, About::Hour, refused),
        ReadRefusal::OpenDay { first, second, .. } => put_open_day(w, first, second),
        ReadRefusal::OpenHour { first, second, .. } => put_open_hour(w, first, second),
        ReadRefusal::OverBudget { .. } => {}
    }
}
