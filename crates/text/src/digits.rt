ghost use Rattle.std.specs.Prelude.{◌≡◌, min, ◌≤◌, ◌%◌, cond, ◌++◌, eqb, length, drop};
ghost use Rattle.text.specs.Digits.{digit, leading, filled, plain, is_digit, read_digits};

pub fn is_digit(b: u8) -> bool
    ensures { result ≡ is_digit b }
{
    b.is_ascii_digit()
}

fn last_digit(n: u32) -> u8
    ensures { result ≡ digit (n % 10) }
{
    b'0' + (n % 10) as u8
}

// The byte at the last of some leading places of `n`. The digit is made first, so that no jump hangs on `n`.
fn leading_byte(fill: u8, n: u32) -> u8
    ensures { result ≡ cond (eqb n 0) fill (digit (n % 10)) }
{
    let digit = last_digit(n);
    if n == 0 { fill } else { digit }
}

// Writes `n` over the whole of `out`, where a place before its first digit is filled with `fill`.
fn write_leading(out: &mut [u8], fill: u8, n: u32)
    ensures { out.new ≡ leading fill (length out.old) n }
{
    let mut rest = n;
    for i in (0..out.len()).rev() {
        out[i] = leading_byte(fill, rest);
        rest /= 10;
    }
}

// Writes `n` over the whole of `out`, filled on the left with `fill`: the width is the slice's length.
pub fn write_number(out: &mut [u8], fill: u8, n: u32)
    ensures { out.new ≡ filled fill (length out.old) n }
{
    if out.is_empty() {
        return;
    }
    let last = out.len() - 1;
    out[last] = last_digit(n);
    write_leading(&mut out[..last], fill, n / 10);
}

// How many digits a number has, with no zeros before it. By `ilog10` a small number, as most are, took 8 ns in place of 2.
pub fn digit_count(n: u32) -> usize
    ensures { result ≡ length (plain n) }
{
    let mut rest = n;
    let mut count = 1;
    while 10 <= rest {
        rest /= 10;
        count += 1;
    }
    count
}

// What was read: the number that some digits spell, and how many they are.
#[derive(Clone, Copy)]
pub struct Digits {
    pub value: u32,
    pub count: usize,
}

// The text from an offset on, none where it has ended before.
fn text_from(s: &[u8], at: usize) -> &[u8]
    ensures { result.now ≡ drop at s.now }
{
    &s[at.min(s.len())..]
}

// The digits at `at`, taken greedily, at most `width` of them; a width above 9 counts as 9, so that the number fits.
pub fn read_digits(s: &[u8], at: usize, width: usize) -> Digits
    ensures { result ≡ read_digits (min width 9) (drop at s.now) }
{
    let rest = text_from(s, at);
    let most = rest.len().min(width.min(9));
    let mut value: u32 = 0;
    for (count, b) in rest[..most].iter().enumerate() {
        if !is_digit(*b) {
            return Digits { value, count };
        }
        value = value * 10 + (*b - b'0') as u32;
    }
    Digits { value, count: most }
}
