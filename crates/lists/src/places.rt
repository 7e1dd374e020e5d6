// Bytes put by a caller that keeps the place: each function puts some bytes into `out` from `at` on, whatever that is, as many as fit, and
// answers the place after them, at most the buffer's end.
ghost use Rattle.std.specs.Prelude.{[], ◌∷◌};
ghost use Rattle.text.specs.Digits.{filled, plain};
ghost use Rattle.lists.specs.Putting.{Put, date_shown};

use crate::putting::Writer;
use calendar::Date;

// A place in a buffer, at most its end.
pub fn first_place(out: &[u8], at: usize) -> usize
    ensures { Put [] out.now at out.now result }
{
    at.min(out.len())
}

pub fn put_byte(out: &mut [u8], at: usize, b: u8) -> usize
    ensures { Put (b ∷ []) out.old at out.new result }
{
    let mut w = Writer::from_place(out, at);
    w.byte(b);
    w.at
}

pub fn put_bytes(out: &mut [u8], at: usize, bytes: &[u8]) -> usize
    ensures { Put bytes.now out.old at out.new result }
{
    let mut w = Writer::from_place(out, at);
    w.bytes(bytes);
    w.at
}

// A number on four places, filled with zeros.
pub fn put_four(out: &mut [u8], at: usize, n: u32) -> usize
    ensures { Put (filled 48 4 n) out.old at out.new result }
{
    let mut w = Writer::from_place(out, at);
    w.four(n);
    w.at
}

// A number on two places, filled with zeros.
pub fn put_two(out: &mut [u8], at: usize, n: u32) -> usize
    ensures { Put (filled 48 2 n) out.old at out.new result }
{
    let mut w = Writer::from_place(out, at);
    w.two(n);
    w.at
}

// A number with no zeros before it.
pub fn put_plain(out: &mut [u8], at: usize, n: u32) -> usize
    ensures { Put (plain n) out.old at out.new result }
{
    let mut w = Writer::from_place(out, at);
    w.plain(n);
    w.at
}

pub fn put_date(out: &mut [u8], at: usize, date: Date) -> usize
    ensures { Put (date_shown date) out.old at out.new result }
{
    let mut w = Writer::from_place(out, at);
    w.date(date);
    w.at
}
