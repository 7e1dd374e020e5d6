// Reads a list, a format and texts, from standard input or from a file, and says what is wrong with each text that is refused (RULES 9.2).
#![tactic(auto)]

use console::{Parts, Report, write_parts};
use format::{MOST_ELEMENTS, Opened};
use lists::{First, Next, PART};
use refusals::{first_part, next_part};
use std::io;

const MORE: &str = "\n\
Reads a list of texts, from FILE or standard input, and says what is wrong with\n\
those that cannot be dated. The first line is the format, such as %a %d %b %Y,\n\
and each other one a text. For each text that is refused it writes the text,\n\
marks under the words that quarrel or where the reading stopped, the number of\n\
its line with a sentence, and an empty line:\n\n  \
Tue 5 Mar 1934\n  \
^^^ ^ ^^^ ^^^^\n  \
line 3: no day is Tue, 5, Mar and 1934 together\n\n\
A text that is read gets nothing: date_lines gives its date. A list of more\n\
than 32,768 bytes gets the line: too long\n\n\
README.md, or quarrels(1) and larusqem(3), have the sentences and conversions.\n";

struct Quarrels;

impl Parts for Quarrels {
    fn first_part(
        &self,
        input: &[u8],
        elements: &mut [u32; MOST_ELEMENTS],
        out: &mut [u8; PART],
    ) -> First {
        first_part(input, elements, out)
    }

    fn next_part(
        &self,
        opened: Opened,
        elements: &[u32; MOST_ELEMENTS],
        input: &[u8],
        from: usize,
        out: &mut [u8; PART],
    ) -> Next {
        next_part(opened, elements, input, from, out)
    }
}

impl Report for Quarrels {
    fn write(&self, rt: &HostRuntime, input: &[u8]) -> io::Result<()> {
        write_parts(rt, input, self)
    }
}

fn main(rt: HostRuntime) {
    console::run(&rt, "quarrels", MORE, &Quarrels);
}
