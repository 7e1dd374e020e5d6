ghost use Rattle.std.specs.Prelude.{◌≡◌, ◌&&◌, ◌≤◌, ◌<◌, set};
ghost use Rattle.std.proofs.lemmas.List.Edits.{sets};
ghost use Rattle.conversions.specs.Conversions.{is_conversion};
ghost use Rattle.format.specs.Opening.{longest, conversion_at, signed, piece_of, sign_at, open_to, opened, opened_into, most_elements};
ghost use Rattle.format.specs.Opening.{style_of, is_element, elements_in, entry_place};
ghost use Rattle.format.specs.Private.{takes_letter, CanOpen, answered};

use conversions::{
    Act, CONVERSIONS, Piece, Style, begins_seconds, conversion, holds, is_flag, is_read,
    own_format, read_letter, styled, takes_style,
};

// The most bytes of a format, and of a text.
pub const LONGEST: usize = 1024;

// The most elements that a format opens to, 13 to two bytes.
pub const MOST_ELEMENTS: usize = 6656;

// An element below this has neither flag nor width.
pub const PLAIN: u32 = 262144;

// The side that a format is opened for: the writer takes flags, widths and %s, the reader none of them.
#[derive(Clone, Copy)]
pub enum Side {
    Writer,
    Reader,
}

// Why a format is not opened: it has over 1,024 bytes, or a bad %, with the offset of the first.
#[derive(Clone, Copy, PartialEq, Eq)]
pub enum Unopened {
    TooLong,
    Bad { at: usize },
}

// The answer to opening a format: how many elements it has.
pub type Opened = Result<usize, Unopened>;

// What stands after %.
#[tactic(auto, using(conversions::proofs::Seconds::of_conversions), unfolding(crate::specs::Opening::signed))]
fn signed(side: Side, s: &[u8]) -> Piece
    ensures { result ≡ signed side s.now }
{
    match side {
        Side::Writer => styled(s),
        Side::Reader if begins_seconds(s) => Piece {
            act: Act::Refuse,
            length: 2,
        },
        Side::Reader => conversion(s),
    }
}

// What `b` and the bytes after it begin with. A letter right after % that both sides take is looked at first: most conversions have
// nothing between.
#[tactic(auto, using(crate::proofs::Sides::first_looks), unfolding(crate::specs::Opening::piece_of))]
fn piece_of(side: Side, b: u8, after: &[u8]) -> Piece
    ensures { result ≡ piece_of side b after.now }
{
    if b != b'%' {
        return Piece {
            act: Act::Byte(b),
            length: 1,
        };
    }
    let [next, ..] = after else {
        return Piece {
            act: Act::Refuse,
            length: 1,
        };
    };
    match read_letter(*next) {
        Act::Refuse => signed(side, after),
        act => Piece { act, length: 2 },
    }
}

// The offset that the % at `i` counts as: its own, or within a composite that of the composite's %.
#[tactic(auto, unfolding(crate::specs::Opening::sign_at))]
fn sign_at(sign: Option<usize>, i: usize) -> usize
    ensures { result ≡ sign_at sign i }
{
    sign.unwrap_or(i)
}

// The element of a conversion whose % is at `sign`.
fn conversion_at(sign: usize, style: Style, letter: u8) -> u32
    requires { (sign < longest) × (style.flag < 127) × (style.width < 128) }
    ensures { result ≡ conversion_at sign style letter }
{
    33554432 * style.flag as u32
        + (262144 * style.width as u32 + (256 * (sign as u32 + 1) + letter as u32))
}

// Stores an element, where there is room. (A slice's get_mut says nothing of its elements once the borrow is over.)
fn store(out: &mut [u32], n: usize, e: u32)
    ensures { out.new ≡ set out.old n e }
{
    if n < out.len() {
        out[n] = e;
    }
}

// Opens a format, its composites at most `depth` deep: counts its elements from `from` on, and stores those that fit.
fn open_to(
    side: Side,
    depth: u32,
    sign: Option<usize>,
    format: &[u8],
    out: &mut [u32],
    from: usize,
) -> Opened
    requires { CanOpen side depth sign format.now from }
    ensures value { result ≡ answered from (open_to side depth sign format.now) }
    ensures out_after { out.new ≡ sets out.old from (open_to side depth sign format.now).elements }
{
    let mut n = from;
    let mut i = 0;
    while i < format.len() {
        let piece = piece_of(side, format[i], &format[i + 1..]);
        let next = i + piece.length;
        match piece.act {
            Act::Byte(b) => {
                store(out, n, b as u32);
                n += 1;
            }
            Act::Convert { letter, style } => {
                store(out, n, conversion_at(sign_at(sign, i), style, letter));
                n += 1;
            }
            Act::Open(c) => {
                let at = sign_at(sign, i);
                if depth == 0 {
                    return Err(Unopened::Bad { at });
                }
                n = open_to(side, depth - 1, Some(at), own_format(c), out, n)?;
            }
            Act::Refuse => {
                return Err(Unopened::Bad {
                    at: sign_at(sign, i),
                });
            }
        }
        i = next;
    }
    Ok(n)
}

// Opens a format: counts its elements, those before its first bad % or all, and stores as many of them as fit at the front of `out`.
#[tactic(auto, unfolding(crate::specs::Opening::opened, crate::specs::Opening::opened_into, crate::specs::Opening::opening))]
pub fn open(side: Side, format: &[u8], out: &mut [u32]) -> Opened
    ensures value { result ≡ opened side format.now }
    ensures out_after { out.new ≡ opened_into side format.now out.old }
{
    if LONGEST < format.len() {
        return Err(Unopened::TooLong);
    }
    open_to(side, 2, None, format, out, 0)
}

pub fn style_of(e: u32) -> Style
    ensures { result ≡ style_of e }
{
    Style {
        flag: (e / 33554432) as u8,
        width: (e / 262144 % 128) as u8,
    }
}

// Whether an entry that is not plain is a conversion with a flag and a width that it takes.
#[tactic(auto, using(conversions::proofs::Sets::sets), unfolding(crate::specs::Opening::is_element, crate::specs::Opening::is_taken))]
fn is_styled(e: u32) -> bool
    requires { 262144 ≤ e }
    ensures { result ≡ is_element Side.Writer e }
{
    let letter = (e % 256) as u8;
    let style = style_of(e);
    holds(CONVERSIONS, letter)
        && e / 256 % 1024 != 0
        && style.width <= 99
        && is_flag(style.flag)
        && takes_style(style, letter)
}

// Whether a letter stands for a conversion that a side takes without flag and width.
#[tactic(auto, using(conversions::proofs::Sets::sets), unfolding(crate::specs::Private::takes_letter))]
fn is_taken(side: Side, letter: u8) -> bool
    ensures { result ≡ (is_conversion letter && takes_letter side letter) }
{
    holds(CONVERSIONS, letter) && (matches!(side, Side::Writer) || is_read(letter))
}

// Whether an entry is an element.
#[tactic(auto, using(crate::proofs::Entry::plain_is), unfolding(crate::specs::Opening::is_element, crate::specs::Opening::is_taken))]
fn is_element(side: Side, e: u32) -> bool
    ensures { result ≡ is_element side e }
{
    if e < 256 {
        return true;
    }
    if e < PLAIN {
        return is_taken(side, (e % 256) as u8);
    }
    matches!(side, Side::Writer) && is_styled(e)
}

// How many entries, from the first on, are elements.
pub fn elements_in(side: Side, elements: &[u32]) -> usize
    ensures { result ≡ elements_in side most_elements elements.now }
{
    let seen = &elements[..elements.len().min(MOST_ELEMENTS)];
    for (k, e) in seen.iter().enumerate() {
        if !is_element(side, *e) {
            return k;
        }
    }
    seen.len()
}

// The place of an entry that the reader refuses: the offset of its %, where it is an element for writing, or its index.
#[tactic(auto, unfolding(crate::specs::Opening::entry_place, crate::specs::Opening::is_element, crate::specs::Opening::is_taken))]
pub fn entry_place(elements: &[u32], k: usize) -> usize
    ensures { result ≡ entry_place elements.now k }
{
    match elements.get(k) {
        Some(&e) if is_element(Side::Writer, e) && !is_element(Side::Reader, e) => {
            (e / 256 % 1024 - 1) as usize
        }
        _ => k,
    }
}
