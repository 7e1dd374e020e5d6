// What the texts of a list give: each a sheet, or the number by which it is left out.
ghost use Rattle.std.specs.Prelude.{◌≡◌, ◌≤◌, ◌<◌, length};
ghost use Rattle.week_report.specs.Private.{sum_of, Took, Gathered};
ghost use Rattle.week_report.specs.Texts.{sheet_or_out, given_by};

use crate::counts::count_number;
use format::{MOST_ELEMENTS, Opened};
use lists::{LONGEST_INPUT, answer_to, line_end};
use sheets::{Unpackable, pack, reading_fields};
use strptime::{Reading, reading_of};

// The number by which a sheet that has no word is left out.
fn out_number(why: Unpackable) -> u32
    ensures { Err result ≡ sheet_or_out (Err why) }
{
    match why {
        Unpackable::NoDay => 13,
        Unpackable::Bad(_) => 2,
    }
}

// What a text gives: the word of its sheet, or the number by which it is left out.
fn given_by(reading: Reading) -> Result<u64, u32>
    ensures { result ≡ given_by reading }
{
    if reading.number != 0 {
        return Err(reading.number);
    }
    match pack(reading_fields(reading)) {
        Ok(word) => Ok(word),
        Err(why) => Err(out_number(why)),
    }
}

// Stores the sheet that a text gives behind `n` others, or counts it by its number; answers how many sheets there are then.
fn take_text(
    reading: Reading,
    words: &mut [u64; LONGEST_INPUT],
    n: usize,
    counts: &mut [u32],
) -> usize
    requires n_bound { (n < 32768) × (reading.number < 16) }
    requires counts_len { (length counts.old ≡ 16) × (sum_of counts.old < 32768) }
    ensures { Took (given_by reading) words.old n words.new counts.old counts.new result }
{
    match given_by(reading) {
        Ok(word) => {
            words[n] = word;
            n + 1
        }
        Err(number) => {
            count_number(counts, number as usize);
            n
        }
    }
}

// What the texts of `input` from `from` on give: stores the sheets in `words`, counts by number those that are left out, and answers how
// many sheets there are.
pub(crate) fn gather(
    opened: Opened,
    elements: &[u32; MOST_ELEMENTS],
    input: &[u8],
    from: usize,
    words: &mut [u64; LONGEST_INPUT],
    counts: &mut [u32],
) -> usize
    requires input_len_bound { (length input.now ≤ 32768) × (0 < from) }
    requires counts_len { (length counts.old ≡ 16) × (sum_of counts.old ≡ 0) }
    ensures { Gathered opened elements.now input.now from words.old words.new
        counts.old counts.new result }
{
    let mut n = 0;
    let mut next = from;
    while next < input.len() {
        let stop = line_end(input, next);
        let answer = answer_to(opened, elements, &input[next..stop]);
        n = take_text(reading_of(answer), words, n, counts);
        next = stop + 1;
    }
    n
}
