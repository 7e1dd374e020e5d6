// Reads a list, a format and texts, from standard input or from a file, and writes the report on it (RULES 9.1).
#![tactic(auto)]

use console::{Parts, Report, write_parts};
use format::{MOST_ELEMENTS, Opened};
use lists::{First, Next, PART};
use report::{first_part, next_part};
use std::io;

const MORE: &str = "\n\
Reads a list of texts, from FILE or standard input, and reports their dates.\n\
The first line is the format, such as %d %b %Y, and each other one a text.\n\
The report has a header and a line for each text:\n\n  \
number place date time\n\n\
The number is 0 where the text was read; the place is then the offset after\n\
what was read, and what follows was not looked at. Any other number tells\n\
why there is no answer; quarrels says it in words. A date that is not fixed\n\
is -, an hour, minute or second --. A list over 32,768 bytes gets: too long\n\n\
README.md, or date_lines(1) and larusqem(3), have numbers and conversions.\n";

struct Lines;

impl Parts for Lines {
    fn first_part(
        &self,
        input: &[u8],
        elements: &mut [u32; MOST_ELEMENTS],
        out: &mut [u8; PART],
    ) -> First {
        first_part(input, elements, out)
    }

    fn next_part(
        &self,
        opened: Opened,
        elements: &[u32; MOST_ELEMENTS],
        input: &[u8],
        from: usize,
        out: &mut [u8; PART],
    ) -> Next {
        next_part(opened, elements, input, from, out)
    }
}

impl Report for Lines {
    fn write(&self, rt: &HostRuntime, input: &[u8]) -> io::Result<()> {
        write_parts(rt, input, self)
    }
}

fn main(rt: HostRuntime) {
    console::run(&rt, "date_lines", MORE, &Lines);
}
