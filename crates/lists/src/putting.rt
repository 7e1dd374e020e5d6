// Bytes put into a buffer, one after the other. So whoever puts one thing after the other looks for room once, for all of it.
ghost use Rattle.std.specs.Prelude.{◌≤◌, length};

use calendar::Date;
use text::{digit_count, write_number};

// A buffer, and the place in it where the next byte goes, at most its end. Each method puts some bytes there, as many as fit, and moves the
// place on.
#[derive(Drop)]
pub struct Writer<'a> {
    pub out: &'a mut [u8],
    pub at: usize,
    ghost inside: { at ≤ length out.now },
}

impl<'a> Writer<'a> {
    ghost use Rattle.std.specs.Prelude.{◌≡◌, min, [], ◌∷◌};
    ghost use Rattle.text.specs.Digits.{filled, plain};
    ghost use Rattle.lists.specs.Putting.{Writes, date_shown};

    pub fn new(out: &'a mut [u8]) -> Writer<'a>
        ensures same_buffer { result.out.ghost_name ≡ out.entry.ghost_name }
        ensures starts { (result.out.now ≡ out.old) × (result.at ≡ 0) }
    {
        Writer { out, at: 0 }
    }

    // A writer that goes on from a place, at most the buffer's end.
    pub fn from_place(out: &'a mut [u8], at: usize) -> Writer<'a>
        ensures same_buffer { result.out.ghost_name ≡ out.entry.ghost_name }
        ensures starts { (result.out.now ≡ out.old) × (result.at ≡ min at (length out.old)) }
    {
        let at = at.min(out.len());
        Writer { out, at }
    }

    pub fn byte(&mut self, b: u8)
        ensures { Writes (b ∷ []) self.old self.new }
    {
        if self.at < self.out.len() {
            self.out[self.at] = b;
            self.at += 1;
        }
    }

    pub fn bytes(&mut self, bytes: &[u8])
        ensures { Writes bytes.now self.old self.new }
    {
        for b in bytes {
            self.byte(*b);
        }
    }

    fn filled<const N: usize>(&mut self, n: u32)
        requires { N ≤ 4 }
        ensures { Writes (filled 48 N n) self.old self.new }
    {
        let mut digits = [0u8; N];
        write_number(&mut digits, b'0', n);
        self.bytes(&digits);
    }

    // A number on four places, filled with zeros.
    pub fn four(&mut self, n: u32)
        ensures { Writes (filled 48 4 n) self.old self.new }
    {
        self.filled::<4>(n);
    }

    // A number on two places, filled with zeros.
    pub fn two(&mut self, n: u32)
        ensures { Writes (filled 48 2 n) self.old self.new }
    {
        self.filled::<2>(n);
    }

    // A number with no zeros before it.
    pub fn plain(&mut self, n: u32)
        ensures { Writes (plain n) self.old self.new }
    {
        let count = digit_count(n);
        let mut digits = [0u8; 10];
        write_number(&mut digits[..count], b'0', n);
        self.bytes(&digits[..count]);
    }

    pub fn date(&mut self, date: Date)
        ensures { Writes (date_shown date) self.old self.new }
    {
        self.four(date.year as u32);
        self.byte(b'-');
        self.two(date.month as u32);
        self.byte(b'-');
        self.two(date.day as u32);
    }
}
