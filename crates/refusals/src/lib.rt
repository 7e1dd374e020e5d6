// What is wrong with the texts of a list (RULES 9.2): for each that is refused the text, marks below it, and a sentence. It is made in
// parts, so that a small buffer does: `first_part` once, then `next_part` while texts are left.
#![tactic(auto)]

ghost use Rattle.std.specs.Prelude.{◌≡◌, ◌≤◌, length};
ghost use Rattle.lists.specs.Lines.{longest_input};
ghost use Rattle.lists.specs.Parts.{FirstPart, NextPart};
ghost use Rattle.refusals.specs.Blocks.{refusals_of, line_number, blocks_by};

use blocks::put_blocks;
use format::{MOST_ELEMENTS, Opened};
use lists::{First, LONGEST_INPUT, Next, PART, begin};

mod blocks;
mod marks;
mod refused;
mod sentences;
mod shown;
mod words;

// Opens the format of `input` into `elements`, and puts the line `too long` at the front of `out` where the input is. Where no text is to
// be answered the next place is at the input's end or past it.
pub fn first_part(input: &[u8], elements: &mut [u32; MOST_ELEMENTS], out: &mut [u8; PART]) -> First
    ensures { FirstPart refusals_of blocks_by input.now elements.old elements.new
        out.old out.new result }
{
    begin(b"", input, elements, out)
}

// The number of the line that begins at `from`. By std's `filter` and `count` each byte took three times as long.
fn line_number(input: &[u8], from: usize) -> usize
    requires { length input.now ≤ longest_input }
    ensures { result ≡ line_number input.now from }
{
    let before = &input[..from.min(input.len())];
    let mut number = 1;
    for b in before {
        if *b == b'\n' {
            number += 1;
        }
    }
    number
}

// Puts what is said of the texts of `input` from `from` on at the front of `out`, as long as there is room for the longest that can be.
pub fn next_part(
    opened: Opened,
    elements: &[u32; MOST_ELEMENTS],
    input: &[u8],
    from: usize,
    out: &mut [u8; PART],
) -> Next
    ensures { NextPart blocks_by opened elements.now input.now from
        out.old out.new result }
{
    if LONGEST_INPUT < input.len() {
        return Next {
            count: 0,
            next: input.len(),
        };
    }
    put_blocks(opened, elements, input, from, line_number(input, from), out)
}
