// The writer (RULES 5): a format, a moment's fields and a buffer; all or nothing.
#![tactic(auto)]

mod measuring;
mod moments;
mod putting;
mod zones;

ghost use Rattle.std.specs.Prelude.{◌≡◌, min, ◌-◌, ◌*◌, ◌≤◌, length, MatchResult};
ghost use Rattle.format.specs.Opening.{longest, after_sign, most_elements};
ghost use Rattle.strftime.specs.Private.{fields_moment, moment_writing, unopened_refusal};
ghost use Rattle.strftime.specs.declared.WriteRefusal.TheVariants.{BadMoment};
ghost use Rattle.strftime.specs.Writing.{text, put, is_seconds, first_seconds, lacking, offered, writing_of, writing, elements_writing};

use format::{
    LONGEST, MIDDLE_BYTES, MIDDLE_ELEMENTS, MOST_ELEMENTS, SHORT_BYTES, SHORT_ELEMENTS, Side,
    Unopened, elements_in, open,
};
use measuring::measure;
use moments::ValidMoment;
use putting::put_elements;
use values::{Field, Moment};

#[derive(Clone, Copy)]
pub struct Fields {
    pub year: u32,
    pub month: u32,
    pub day: u32,
    pub hour: u32,
    pub minute: u32,
    pub second: u32,
    pub offset: Option<i32>,
}

// Why nothing is written, in the order in which refusals are judged.
#[derive(Clone, Copy, PartialEq, Eq)]
pub enum WriteRefusal {
    FormatTooLong,
    BadMoment { field: Field },
    BadConversion { at: usize },
    NoOffset { at: usize },
    BufferTooSmall { needed: usize },
}

impl From<Field> for WriteRefusal {
    ghost from_gives = { λ f w. w ≡ BadMoment f };

    fn from(field: Field) -> WriteRefusal {
        WriteRefusal::BadMoment { field }
    }
}

impl From<Unopened> for WriteRefusal {
    ghost from_gives = { λ why w. w ≡ unopened_refusal why };

    fn from(why: Unopened) -> WriteRefusal {
        match why {
            Unopened::TooLong => WriteRefusal::FormatTooLong,
            Unopened::Bad { at } => WriteRefusal::BadConversion { at },
        }
    }
}

// The answer to a writing: how many bytes were written.
pub type Written = Result<usize, WriteRefusal>;

// The number and place of an answer (RULES 3).
#[derive(Clone, Copy)]
pub struct Writing {
    pub number: u32,
    pub place: usize,
}

#[tactic(auto, unfolding(crate::specs::Writing::writing_of))]
pub fn writing_of(w: Written) -> Writing
    ensures { result ≡ writing_of w }
{
    match w {
        Ok(count) => Writing {
            number: 0,
            place: count,
        },
        Err(WriteRefusal::FormatTooLong) => Writing {
            number: 1,
            place: 0,
        },
        Err(WriteRefusal::BadMoment { field }) => Writing {
            number: 2,
            place: field.number() as usize,
        },
        Err(WriteRefusal::BadConversion { at }) => Writing {
            number: 3,
            place: at,
        },
        Err(WriteRefusal::NoOffset { at }) => Writing {
            number: 12,
            place: at,
        },
        Err(WriteRefusal::BufferTooSmall { needed }) => Writing {
            number: 4,
            place: needed,
        },
    }
}

// The most bytes that an element for reading writes; and no entry writes more than the seven bits of a width hold.
const WIDEST: usize = 9;

const WIDEST_STYLED: usize = 127;

// Writes a moment by a format over the start of the buffer. A format that is not long is opened as for the reader first, into the smallest
// array that has room for it: most have neither flags nor widths nor %s.
pub fn strftime(format: &[u8], fields: Fields, out: &mut [u8]) -> Written
    ensures result_value { writing_of result ≡ (writing format.now fields out.old).answer }
    ensures out_after { out.new ≡ (writing format.now fields out.old).buffer }
{
    // 1 is judged before 2.
    if LONGEST < format.len() {
        return Err(WriteRefusal::FormatTooLong);
    }
    let valid = moment_of(fields)?;
    if format.len() <= SHORT_BYTES {
        return write_plain::<SHORT_ELEMENTS>(format, valid, out);
    }
    if format.len() <= MIDDLE_BYTES {
        return write_plain::<MIDDLE_ELEMENTS>(format, valid, out);
    }
    write_styled(format, valid, out)
}

// Writes a moment by the elements of a format that was opened before, whose entries are looked at first.
pub fn write_elements(elements: &[u32], fields: Fields, out: &mut [u8]) -> Written
    ensures result_value { writing_of result ≡ (elements_writing elements.now fields out.old).answer }
    ensures out_after { out.new ≡ (elements_writing elements.now fields out.old).buffer }
{
    let valid = moment_of(fields)?;
    if elements_in(Side::Reader, elements) == elements.len() {
        return write_opened(elements, valid, out, WIDEST * elements.len());
    }
    let good = elements_in(Side::Writer, elements);
    if good < elements.len() {
        return Err(WriteRefusal::BadConversion { at: good });
    }
    write_any(elements, valid, out)
}

// The moment with these fields, or the first bad one.
fn moment_of(t: Fields) -> Result<ValidMoment, Field>
    ensures { MatchResult result (λ v. fields_moment t ≡ Ok v.moment) (λ f. fields_moment t ≡ Err f) }
{
    let moment = Moment::from_fields(t.year, t.month, t.day, t.hour, t.minute, t.second, t.offset)?;
    Ok(ValidMoment { moment })
}

// Opens the format into N entries, which have room for 13 to two bytes, and writes those where they are elements for reading too: such
// need not be measured in a buffer of usual size.
fn write_plain<const N: usize>(format: &[u8], valid: ValidMoment, out: &mut [u8]) -> Written
    requires format_bound { 13 * min longest (length format.now) ≤ 2 * N }
    requires entries_bound { N ≤ most_elements }
    ensures result_value { writing_of result ≡ (moment_writing format.now valid.moment out.old).answer }
    ensures out_after { out.new ≡ (moment_writing format.now valid.moment out.old).buffer }
{
    let mut elements = [0u32; N];
    let Ok(count) = open(Side::Reader, format, &mut elements) else {
        return write_styled(format, valid, out);
    };
    write_opened(&elements[..count], valid, out, WIDEST * count)
}

// The same by any format, opened into the smallest of three arrays that has room for it.
fn write_styled(format: &[u8], valid: ValidMoment, out: &mut [u8]) -> Written
    ensures result_value { writing_of result ≡ (moment_writing format.now valid.moment out.old).answer }
    ensures out_after { out.new ≡ (moment_writing format.now valid.moment out.old).buffer }
{
    if format.len() <= SHORT_BYTES {
        return write_in::<SHORT_ELEMENTS>(format, valid, out);
    }
    if format.len() <= MIDDLE_BYTES {
        return write_in::<MIDDLE_ELEMENTS>(format, valid, out);
    }
    write_in::<MOST_ELEMENTS>(format, valid, out)
}

// The same, opened into N entries, which have room for 13 to two bytes.
fn write_in<const N: usize>(format: &[u8], valid: ValidMoment, out: &mut [u8]) -> Written
    requires format_bound { 13 * min longest (length format.now) ≤ 2 * N }
    requires entries_bound { N ≤ most_elements }
    ensures result_value { writing_of result ≡ (moment_writing format.now valid.moment out.old).answer }
    ensures out_after { out.new ≡ (moment_writing format.now valid.moment out.old).buffer }
{
    let mut elements = [0u32; N];
    let count = open(Side::Writer, format, &mut elements)?;
    write_any(&elements[..count], valid, out)
}

// The offset of the % of a conversion.
fn sign_of(e: u32) -> usize
    ensures { result ≡ after_sign e - 1 }
{
    (e / 256 % 1024).saturating_sub(1) as usize
}

fn is_seconds(e: u32) -> bool
    ensures { result ≡ is_seconds e }
{
    256 <= e && e % 256 == 115
}

// The first %s among some elements, by the offset of its %.
fn first_seconds(elements: &[u32]) -> Option<usize>
    ensures { result ≡ first_seconds elements.now }
{
    for e in elements {
        if is_seconds(*e) {
            return Some(sign_of(*e));
        }
    }
    None
}

// What a moment lacks to be written by some elements: its zone offset for the first %s, or nothing.
fn lacking(offset: Option<i32>, elements: &[u32]) -> Option<usize>
    ensures { result ≡ lacking offset elements.now }
{
    match offset {
        None => first_seconds(elements),
        Some(_) => None,
    }
}

// Writes a moment by any elements, where it has what they want.
fn write_any(elements: &[u32], valid: ValidMoment, out: &mut [u8]) -> Written
    requires { length elements.now ≤ most_elements }
    ensures result_value { writing_of result ≡ (offered elements.now out.old valid.moment).answer }
    ensures out_after { out.new ≡ (offered elements.now out.old valid.moment).buffer }
{
    match lacking(valid.moment.offset, elements) {
        Some(at) => Err(WriteRefusal::NoOffset { at }),
        None => write_opened(elements, valid, out, WIDEST_STYLED * elements.len()),
    }
}

// Writes a moment by elements, which write at most `most` bytes. Their text is measured first, unless the buffer has room for so many:
// nothing is put before it is known to fit.
fn write_opened(elements: &[u32], valid: ValidMoment, out: &mut [u8], most: usize) -> Written
    requires elements_len_bound { length elements.now ≤ most_elements }
    requires most_bound { length (text valid.moment elements.now) ≤ most }
    ensures result_value { writing_of result ≡ (put (text valid.moment elements.now) out.old).answer }
    ensures out_after { out.new ≡ (put (text valid.moment elements.now) out.old).buffer }
{
    if out.len() < most {
        let needed = measure(elements, valid);
        if out.len() < needed {
            return Err(WriteRefusal::BufferTooSmall { needed });
        }
    }
    let n = put_elements(out, elements, valid);
    Ok(n)
}
