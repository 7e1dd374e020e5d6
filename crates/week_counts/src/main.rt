// Reads a list, a format and texts, from standard input or from a file, and writes the report on its weeks (RULES 9.3).
#![tactic(auto)]

use console::Report;
use lists::PART;
use std::io;
use streams::write_all;
use week_report::report;

const MORE: &str = "\n\
Reads a list of texts, from FILE or standard input, and counts its sheets by\n\
weeks. The first line is the format, such as %d %b %Y, and each other one a\n\
text, which gives a sheet where a day is fixed. The report has a line for\n\
each ISO week that has sheets, in order:\n\n  \
1934-W10 3\n\n\
Then it says how many texts were left out, and how many by each number:\n\n  \
left out: 2\n  \
number 6: 2\n\n\
The numbers are those of date_lines; 13 is a text that fixes no day, and 14\n\
one of a week for which there is no room: a list has at most 1,024 weeks. A\n\
list over 32,768 bytes gets: too long\n\n\
README.md, or week_counts(1) and larusqem(3), have numbers and conversions.\n";

struct Weeks;

impl Report for Weeks {
    fn write(&self, rt: &HostRuntime, input: &[u8]) -> io::Result<()> {
        let mut out = [0; PART];
        let count = report(input, &mut out);
        write_all(rt, &mut rt.stdout(), &out[..count])?;
        Ok(())
    }
}

fn main(rt: HostRuntime) {
    console::run(&rt, "week_counts", MORE, &Weeks);
}
