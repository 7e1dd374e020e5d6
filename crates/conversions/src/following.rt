ghost use Rattle.std.specs.Prelude.{◌≡◌, not, List, ◌∷◌, ℕ, length, get_or};
ghost use Rattle.text.specs.Digits.{decimal};
ghost use Rattle.conversions.specs.Conversions.{among, own_format};
ghost use Rattle.conversions.specs.Pieces.{letter, paired, conversion, flags, flag_run, width_run};
ghost use Rattle.conversions.specs.Pieces.{is_unstyled, takes_style, with_style, styled, is_read, to_read};
ghost use Rattle.conversions.specs.Private.{holds, SetOf};

use text::{Digits, read_digits};

// A flag, one of the bytes `_`, `-`, `0` and `^`, and a width; 0 where there is none.
// (Numbers: an element holds 7 bits of each, and format::style_of answers for every element, whatever its bits are.)
#[derive(Clone, Copy)]
pub struct Style {
    pub flag: u8,
    pub width: u8,
}

// What a piece of a format does: a byte or a conversion is stored, a composite is opened, or the conversion is bad.
// (Four cases that are told apart once: an Option of the first three would be matched at two levels at each use.)
#[derive(Clone, Copy)]
pub enum Act {
    Byte(u8),
    Convert { letter: u8, style: Style },
    Open(u8),
    Refuse,
}

// A piece, what a format begins with: what it does, and how many bytes it takes.
#[derive(Clone, Copy)]
pub struct Piece {
    pub act: Act,
    pub length: usize,
}

// Sets of letters: the bit at 64 less than its byte says whether a letter is in. (An array would be copied at each use.)

// ABCGHIMPSUVWY abdeghjklmpsuwyz
pub const CONVERSIONS: u64 = 0x06a9_3db6_02e9_238e;

// CGHIMSUVWY degjklmuwy: the numbers among them
const NUMBERS: u64 = 0x02a0_3cb0_02e8_2388;

// ABP abhp: the names among them
const NAMES: u64 = 0x0001_0106_0001_0006;

// DFRTX crx
const COMPOSITES: u64 = 0x0104_0008_0114_0050;

// CXY cxy
const AFTER_E: u64 = 0x0300_0008_0300_0008;

// HIMSUVW demuwy
const AFTER_O: u64 = 0x02a0_2030_00e8_2300;

#[tactic(auto, unfolding(crate::specs::Private::holds))]
pub fn holds(set: u64, b: u8) -> bool
    ensures { result ≡ holds set b }
{
    64 <= b && b < 128 && (set >> (b - 64)) % 2 == 1
}

// What a letter after % stands for.
#[tactic(auto, using(crate::proofs::Sets::sets), unfolding(crate::specs::Pieces::letter))]
fn letter(b: u8) -> Act
    ensures { result ≡ letter b }
{
    match b {
        b'n' => Act::Byte(b'\n'),
        b't' => Act::Byte(b'\t'),
        b'%' => Act::Byte(b'%'),
        _ if holds(COMPOSITES, b) => Act::Open(b),
        _ if holds(CONVERSIONS, b) => Act::Convert {
            letter: b,
            style: Style { flag: 0, width: 0 },
        },
        _ => Act::Refuse,
    }
}

// What stands after %E or %O, where only some letters are taken.
#[tactic(auto, unfolding(crate::specs::Pieces::paired))]
fn paired(set: u64, s: &[u8]) -> Piece
    ensures { (letters : List ℕ) → SetOf set letters → result ≡ paired letters s.now }
{
    match s {
        [] => Piece {
            act: Act::Refuse,
            length: 2,
        },
        [b, ..] if holds(set, *b) => Piece {
            act: letter(*b),
            length: 3,
        },
        _ => Piece {
            act: Act::Refuse,
            length: 3,
        },
    }
}

// What stands after % where no flag and no width do: E, O or neither, and a letter.
#[tactic(auto, unfolding(crate::specs::Pieces::conversion))]
pub fn conversion(s: &[u8]) -> Piece
    ensures { result ≡ conversion s.now }
{
    match s {
        [] => Piece {
            act: Act::Refuse,
            length: 1,
        },
        [b'E', rest @ ..] => paired(AFTER_E, rest),
        [b'O', rest @ ..] => paired(AFTER_O, rest),
        [b, ..] => Piece {
            act: letter(*b),
            length: 2,
        },
    }
}

// Whether a byte is a flag, or 0.
#[tactic(auto, unfolding(crate::specs::Conversions::computes, crate::specs::Pieces::flags))]
pub fn is_flag(b: u8) -> bool
    ensures { result ≡ among b (0 ∷ flags) }
{
    matches!(b, 0 | b'_' | b'-' | b'0' | b'^')
}

// The flag that stands first, or 0.
#[tactic(auto, unfolding(crate::specs::Pieces::flag_run, crate::specs::Conversions::among))]
fn flag_at(s: &[u8]) -> u8
    ensures { result ≡ get_or (flag_run s.now) 0 0 }
{
    match s {
        [b, ..] if is_flag(*b) => *b,
        _ => 0,
    }
}

// The width that stands first, and how many digits it has; 0 where there is none.
#[tactic(auto, unfolding(crate::specs::Pieces::computes, text::specs::Digits::read_digits))]
fn width_at(s: &[u8]) -> Digits
    ensures { (result.value ≡ decimal 0 (width_run s.now)) × (result.count ≡ length (width_run s.now)) }
{
    match s {
        [b'0', ..] => Digits { value: 0, count: 0 },
        _ => read_digits(s, 0, 2),
    }
}

#[tactic(auto, unfolding(crate::specs::Pieces::is_unstyled))]
fn is_unstyled(style: Style) -> bool
    ensures { result ≡ is_unstyled style }
{
    style.flag == 0 && style.width == 0
}

// Whether a conversion takes a flag and a width.
#[tactic(auto, using(crate::proofs::Sets::sets), unfolding(crate::specs::Pieces::takes_style))]
pub fn takes_style(style: Style, letter: u8) -> bool
    ensures { result ≡ takes_style style letter }
{
    if is_unstyled(style) {
        return true;
    }
    match style.flag {
        0 => holds(NAMES, letter) || holds(NUMBERS, letter),
        b'^' => holds(NAMES, letter),
        _ => holds(NUMBERS, letter),
    }
}

// What stands after a flag and a width.
#[tactic(auto, unfolding(crate::specs::Pieces::with_style))]
fn with_style(style: Style, act: Act) -> Act
    ensures { result ≡ with_style style act }
{
    match act {
        Act::Byte(_) | Act::Open(_) if is_unstyled(style) => act,
        Act::Convert { letter, .. } if takes_style(style, letter) => Act::Convert { letter, style },
        _ => Act::Refuse,
    }
}

// A flag, a width and what follows them.
pub fn styled(s: &[u8]) -> Piece
    ensures { result ≡ styled s.now }
{
    let flag = flag_at(s);
    let from = usize::from(flag != 0);
    let width = width_at(&s[from..]);
    let n = from + width.count;
    let piece = conversion(&s[n..]);
    let style = Style {
        flag,
        width: width.value as u8,
    };
    Piece {
        act: with_style(style, piece.act),
        length: n + piece.length,
    }
}

// Whether a conversion is read: %s is not.
#[tactic(auto, unfolding(crate::specs::Pieces::is_read))]
pub fn is_read(letter: u8) -> bool
    ensures { result ≡ is_read letter }
{
    letter != b's'
}

// What a letter right after % stands for, where both sides take it.
#[tactic(auto, using(crate::proofs::Seconds::of_letters))]
pub fn read_letter(b: u8) -> Act
    ensures { result ≡ to_read (letter b) }
{
    if is_read(b) { letter(b) } else { Act::Refuse }
}

// Whether an s stands first.
#[tactic(auto, unfolding(crate::specs::Pieces::is_read))]
pub fn begins_seconds(s: &[u8]) -> bool
    ensures { result ≡ not (is_read (get_or s.now 0 0)) }
{
    matches!(s, [b, ..] if !is_read(*b))
}

// The own format of a composite; of any other letter, nothing.
#[tactic(auto, unfolding(crate::specs::Conversions::computes))]
pub fn own_format(c: u8) -> &'static [u8]
    ensures { result.now ≡ own_format c }
{
    match c {
        b'c' => b"%a %b %e %T %Y",
        b'x' => b"%D",
        b'X' => b"%T",
        b'D' => b"%m/%d/%y",
        b'F' => b"%Y-%m-%d",
        b'R' => b"%H:%M",
        b'T' => b"%H:%M:%S",
        b'r' => b"%I:%M:%S %p",
        _ => b"",
    }
}
