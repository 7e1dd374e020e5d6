// The report on a list of texts (RULES 9.1): a header, and a line for each text as it is read by the list's first line, the format. It is
// made in parts, so that a small buffer does: `first_part` once, then `next_part` while texts are left.
#![tactic(auto)]

ghost use Rattle.lists.specs.Parts.{FirstPart, NextPart};
ghost use Rattle.report.specs.Report.{report_of, lines_by};

use format::{MOST_ELEMENTS, Opened};
use line::put_line;
use lists::{First, Next, PART, Writer, answer_to, begin, line_end};
use strptime::reading_of;

mod line;

// The most bytes of a line.
const LONGEST_LINE: usize = 30;

// Opens the format of `input` into `elements`, and puts the header or the line `too long` at the front of `out`. Where no text is to be
// answered the next place is at the input's end or past it.
pub fn first_part(input: &[u8], elements: &mut [u32; MOST_ELEMENTS], out: &mut [u8; PART]) -> First
    ensures { FirstPart report_of lines_by input.now elements.old elements.new
        out.old out.new result }
{
    begin(b"number place date time\n", input, elements, out)
}

// Puts the lines for the texts of `input` from `from` on at the front of `out`, as long as there is room for a longest line.
pub fn next_part(
    opened: Opened,
    elements: &[u32; MOST_ELEMENTS],
    input: &[u8],
    from: usize,
    out: &mut [u8; PART],
) -> Next
    ensures { NextPart lines_by opened elements.now input.now from
        out.old out.new result }
{
    let mut w = Writer::new(out);
    let mut next = from;
    while next < input.len() {
        if PART - LONGEST_LINE < w.at {
            return Next { count: w.at, next };
        }
        let stop = line_end(input, next);
        let answer = answer_to(opened, elements, &input[next..stop]);
        put_line(&mut w, reading_of(answer));
        next = stop + 1;
    }
    Next { count: w.at, next }
}
