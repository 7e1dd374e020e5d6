// How a report begins.
ghost use Rattle.lists.specs.Parts.{Begun};

use crate::lines::line_end;
use crate::putting::Writer;
use crate::{First, LONGEST_INPUT};
use format::{Side, open};

// Opens the format of `input` into `elements`, and puts `header`, or the line `too long` where the input is, at the front of `out`. Where
// no text is to be answered the next place is at the input's end or past it.
pub fn begin(header: &[u8], input: &[u8], elements: &mut [u32], out: &mut [u8]) -> First
    ensures { Begun header.now input.now elements.old elements.new
        out.old out.new result }
{
    let end = line_end(input, 0);
    let opened = open(Side::Reader, &input[..end], elements);
    let mut w = Writer::new(out);
    if LONGEST_INPUT < input.len() {
        w.bytes(b"too long\n");
        return First {
            opened,
            count: w.at,
            next: input.len(),
        };
    }
    w.bytes(header);
    First {
        opened,
        count: w.at,
        next: end + 1,
    }
}
