// The report on the weeks of a list of texts (RULES 9.3): a line for each ISO week that has sheets, then how many texts were left out, and
// by which numbers.
#![tactic(auto)]

ghost use Rattle.week_report.specs.Weeks.{week_report_of, Reported};

use counts::{NUMBERS, put_left_out};
use format::MOST_ELEMENTS;
use lists::{LONGEST_INPUT, PART, Writer, begin};
use sheet_list::{TABLE_LENGTH, count_sheets};
use texts::gather;
use weeks::put_weeks;

mod counts;
mod texts;
mod weeks;

// Puts the report on `input` at the front of `out`, and answers how many bytes it has.
pub fn report(input: &[u8], out: &mut [u8; PART]) -> usize
    ensures { Reported (week_report_of input.now) out.old out.new result }
{
    let mut elements = [0; MOST_ELEMENTS];
    let first = begin(b"", input, &mut elements, out);
    if LONGEST_INPUT < input.len() {
        return first.count;
    }
    let mut words = [0u64; LONGEST_INPUT];
    let mut counts = [0u32; NUMBERS];
    let opened = first.opened;
    let n = gather(
        opened,
        &elements,
        input,
        first.next,
        &mut words,
        &mut counts,
    );
    let mut table = [0u64; TABLE_LENGTH];
    let tallied = count_sheets(&words[..n], &mut table);
    let weeks = tallied.weeks;
    counts[14] += tallied.left as u32;
    let mut w = Writer::new(out);
    put_weeks(&mut w, &table[..weeks]);
    put_left_out(&mut w, &counts);
    w.at
}
