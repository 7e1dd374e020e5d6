// Runs the reader on the cases that compare/src/bin/vectors/read.rs makes. The input is pairs of lines: a format, and a text. A line of the
// output is `number place date hour minute second offset | shown | examined | weekday month | reason`: what is unsaid is -, shown has the
// first two days or hours of number 10, the days examined are those of the engine that skips, then come the forms of names. The reason is
// -, or each kind that quarrels with where its words begin and end, or the part in which two days differ, or two hours.
#![tactic(auto)]

use calendar::Date;
use judge::Engine;
use matching::Extent;
use names::NameForm;
use reasons::{Explained, Part, Reason, explain_by_format};
use std::fmt;
use std::fmt::{Display, Formatter, Write};
use streams::read_full;
use strptime::{Reading, Shown, reading_of, strptime};

// A value of another crate, as the lines of the output show it.
#[derive(Clone, Copy)]
struct Told<T>(T);

impl Display for Told<Date> {
    fn fmt<W: Write>(&self, f: &mut Formatter<W>) -> fmt::Result {
        let date = self.0;
        write!(f, "{:04}-{:02}-{:02}", date.year, date.month, date.day)
    }
}

impl Display for Told<Option<Date>> {
    fn fmt<W: Write>(&self, f: &mut Formatter<W>) -> fmt::Result {
        match self.0 {
            None => f.write_str("-"),
            Some(date) => write!(f, "{}", Told(date)),
        }
    }
}

// A zone offset: its sign and its minutes.
impl Display for Told<Option<i32>> {
    fn fmt<W: Write>(&self, f: &mut Formatter<W>) -> fmt::Result {
        match self.0 {
            None => f.write_str("-"),
            Some(east) => write!(f, "{east:+}"),
        }
    }
}

impl Display for Told<Option<u32>> {
    fn fmt<W: Write>(&self, f: &mut Formatter<W>) -> fmt::Result {
        match self.0 {
            None => f.write_str("-"),
            Some(n) => write!(f, "{n}"),
        }
    }
}

// The first two days or hours.
impl Display for Told<Option<Shown>> {
    fn fmt<W: Write>(&self, f: &mut Formatter<W>) -> fmt::Result {
        match self.0 {
            None => Ok(()),
            Some(Shown::Days { first, second }) => write!(f, "{} {}", Told(first), Told(second)),
            Some(Shown::Hours { first, second }) => write!(f, "{first} {second}"),
        }
    }
}

impl Display for Told<Option<NameForm>> {
    fn fmt<W: Write>(&self, f: &mut Formatter<W>) -> fmt::Result {
        f.write_str(match self.0 {
            None => "-",
            Some(NameForm::Full) => "full",
            Some(NameForm::Middle) => "middle",
            Some(NameForm::Short) => "short",
        })
    }
}

impl Display for Told<Reading> {
    fn fmt<W: Write>(&self, f: &mut Formatter<W>) -> fmt::Result {
        let reading = self.0;
        write!(
            f,
            "{} {} {} ",
            reading.number,
            reading.place,
            Told(reading.day)
        )?;
        write!(f, "{} {} ", Told(reading.hour), Told(reading.minute))?;
        write!(f, "{} {} | ", Told(reading.second), Told(reading.offset))?;
        write!(f, "{} | {} | ", Told(reading.shown), reading.examined)?;
        let forms = reading.forms;
        write!(f, "{} {}", Told(forms.weekday), Told(forms.month))
    }
}

// Where the words of each kind stand, if they stand anywhere.
impl Display for Told<[Extent; kinds::KINDS]> {
    fn fmt<W: Write>(&self, f: &mut Formatter<W>) -> fmt::Result {
        for (kind, extent) in self.0.iter().enumerate() {
            if extent.next != 0 {
                write!(f, " {kind}:{}-{}", extent.from, extent.next)?;
            }
        }
        Ok(())
    }
}

impl Display for Told<Part> {
    fn fmt<W: Write>(&self, f: &mut Formatter<W>) -> fmt::Result {
        f.write_str(match self.0 {
            Part::Year => "year",
            Part::Month => "month",
            Part::Day => "day",
        })
    }
}

impl Display for Told<Explained> {
    fn fmt<W: Write>(&self, f: &mut Formatter<W>) -> fmt::Result {
        match self.0.reason {
            None => f.write_str(" -"),
            Some(Reason::Quarrel(_)) => write!(f, "{}", Told(self.0.words)),
            Some(Reason::Differ(part)) => write!(f, " {}", Told(part)),
            Some(Reason::Hours { first, second }) => write!(f, " hours {first} {second}"),
        }
    }
}

fn print_case(rt: &impl Print, format: &[u8], text: &[u8]) {
    let answer = strptime(Engine::Skipping, format, text);
    let explained = explain_by_format(answer, format, text);
    let _ = println!(rt; "{} |{}", Told(reading_of(answer)), Told(explained));
}

fn print_readings(rt: &impl Print, input: &[u8]) {
    let mut lines = input
        .split_inclusive(|b| *b == b'\n')
        .map(|line| line.strip_suffix(b"\n").unwrap_or(line));
    while let Some(format) = lines.next() {
        print_case(rt, format, lines.next().unwrap_or(&[]));
    }
}

fn main(rt: HostRuntime) {
    let mut input = [0u8; 262144];
    let n = read_full(&rt, &mut rt.stdin(), &mut input);
    print_readings(&rt, &input[..n]);
}
