// How many texts each number left out.
ghost use Rattle.std.specs.Prelude.{◌≡◌, [], ◌∷◌, ◌<◌, length, sum};
ghost use Rattle.lists.specs.Putting.{Writes};
ghost use Rattle.week_report.specs.Private.{tallied, sum_of, numbers_shown, left_shown};
ghost use Rattle.week_report.specs.Weeks.{total_line, number_line};

use lists::Writer;

// Numbers are below 16.
pub(crate) const NUMBERS: usize = 16;

// One more by a number.
pub(crate) fn count_number(counts: &mut [u32], number: usize)
    requires { (number < length counts.old) × (sum_of counts.old < 32768) }
    ensures { counts.new ≡ tallied (number ∷ []) counts.old }
{
    counts[number] += 1;
}

// All of them together.
fn sum_of(counts: &[u32]) -> u32
    requires { sum counts.now < 65536 }
    ensures { result ≡ sum counts.now }
{
    counts.iter().sum()
}

fn put_total(w: &mut Writer, n: u32)
    ensures { Writes (total_line n) w.old w.new }
{
    w.bytes(b"left out: ");
    w.plain(n);
    w.byte(b'\n');
}

fn put_number(w: &mut Writer, number: u32, n: u32)
    ensures { Writes (number_line number n) w.old w.new }
{
    if n == 0 {
        return;
    }
    w.bytes(b"number ");
    w.plain(number);
    w.bytes(b": ");
    w.plain(n);
    w.byte(b'\n');
}

// A line for each number that left some out.
fn put_numbers(w: &mut Writer, counts: &[u32])
    requires { length counts.now < 65536 }
    ensures { Writes (numbers_shown counts.now) w.old w.new }
{
    for (i, n) in counts.iter().enumerate() {
        put_number(w, i as u32, *n);
    }
}

// How many texts were left out, and by which numbers.
pub(crate) fn put_left_out(w: &mut Writer, counts: &[u32])
    requires { (length counts.now < 65536) × (sum_of counts.now < 65536) }
    ensures { Writes (left_shown counts.now) w.old w.new }
{
    put_total(w, sum_of(counts));
    put_numbers(w, counts);
}
