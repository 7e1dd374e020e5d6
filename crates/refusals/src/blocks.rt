// What is written for a text that is refused, and for one text after the other.
ghost use Rattle.std.specs.Prelude.{◌≡◌, ◌≤◌, length};
ghost use Rattle.lists.specs.Lines.{longest_input};
ghost use Rattle.lists.specs.Parts.{NextPart};
ghost use Rattle.lists.specs.Putting.{Writes};
ghost use Rattle.refusals.specs.Blocks.{block, opened_block, line_number, blocks_by};
ghost use Rattle.strptime.specs.Answers.{refusal_of};

use crate::marks::put_marked;
use crate::refused::Refused;
use crate::sentences::put_sentence;
use crate::shown::put_shown;
use format::{MOST_ELEMENTS, Opened};
use lists::{Next, PART, Writer, answer_to, elements_of, line_end};
use reasons::explain;

// No block has more bytes.
const LONGEST_BLOCK: usize = 59392;

fn put_block(w: &mut Writer, line: u32, refused: &Refused)
    ensures { Writes (block line (refusal_of refused.now.refusal) refused.now.words refused.now.text.now) w.old w.new }
{
    put_shown(w, refused.text);
    w.byte(b'\n');
    put_marked(w, refused);
    w.bytes(b"line ");
    w.plain(line);
    w.bytes(b": ");
    put_sentence(w, refused);
    w.bytes(b"\n\n");
}

// The block of a text, as it is read by what opening a format answered and stored; nothing where it is not refused.
fn put_text(w: &mut Writer, line: u32, opened: Opened, elements: &[u32], text: &[u8])
    ensures { Writes (opened_block opened elements.now line text.now) w.old w.new }
{
    let answer = answer_to(opened, elements, text);
    let Err(refusal) = answer else {
        return;
    };
    let count = elements_of(opened, elements);
    let words = explain(answer, &elements[..count], text).words;
    put_block(
        w,
        line,
        &Refused {
            text,
            refusal,
            words,
        },
    );
}

// The blocks of the texts from `from` on, of which the first is on line `first`.
pub(crate) fn put_blocks(
    opened: Opened,
    elements: &[u32; MOST_ELEMENTS],
    input: &[u8],
    from: usize,
    first: usize,
    out: &mut [u8; PART],
) -> Next
    requires { (length input.now ≤ longest_input) × (first ≡ line_number input.now from) }
    ensures { NextPart blocks_by opened elements.now input.now from
        out.old out.new result }
{
    let mut w = Writer::new(out);
    let mut next = from;
    let mut line = first as u32;
    while next < input.len() {
        if PART - LONGEST_BLOCK < w.at {
            return Next { count: w.at, next };
        }
        let stop = line_end(input, next);
        put_text(&mut w, line, opened, elements, &input[next..stop]);
        next = stop + 1;
        line += 1;
    }
    Next { count: w.at, next }
}
