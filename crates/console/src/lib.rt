// What the programs that report on lists have in common: what their arguments ask for, the list that they read, and what they print of
// themselves (RULES 9.1).
#![tactic(auto)]

ghost use Rattle.std.specs.Prelude.{◌≡◌, ◌<◌, ◌≤◌, length, option_copied};
ghost use Rattle.console.specs.Arguments.{asked_by, asked};

use format::{MOST_ELEMENTS, Opened};
use lists::{First, LONGEST_INPUT, Next, PART};
use std::env::{Env, FillError};
use std::fmt::Display;
use std::fs::File;
use std::io;
use std::io::{ErrorKind, Read, Write};
use streams::{read_all, write_all};

// What a program is asked for: its report, on standard input or on the file that its argument names; its help; its version; or nothing
// that it knows.
#[derive(Clone, Copy)]
pub enum Asked {
    Standard,
    File,
    Help,
    Version,
    Unknown,
}

fn asked_by(argument: &[u8]) -> Asked
    ensures { result ≡ asked_by argument.now }
{
    if argument == b"--help".as_slice() {
        return Asked::Help;
    }
    if argument == b"--version".as_slice() {
        return Asked::Version;
    }
    if argument.is_empty() {
        return Asked::Unknown;
    }
    if argument[0] == b'-' {
        return Asked::Unknown;
    }
    Asked::File
}

// What a program is asked for by so many arguments, its own name among them, and the first after that, if it was fetched whole.
#[tactic(auto, unfolding(crate::specs::Arguments::asked, crate::specs::Arguments::asked_first))]
pub fn what_is_asked(count: usize, first: Option<&[u8]>) -> Asked
    ensures { result ≡ asked count (option_copied first.entry) }
{
    if count < 2 {
        return Asked::Standard;
    }
    match first {
        Some(argument) if count == 2 => asked_by(argument),
        _ => Asked::Unknown,
    }
}

// How many arguments there are, the program's own name among them.
pub fn argument_count(rt: &impl Env) -> usize {
    for i in 0..usize::MAX {
        if let Err(FillError::NotPresent) = rt.arg(i, &mut []) {
            return i;
        }
    }
    usize::MAX
}

// Opens the file that an argument names, for reading.
pub fn open(rt: &HostRuntime, name: &[u8]) -> io::Result<File> {
    match std::str::from_utf8(name) {
        Ok(name) => File::open(rt, name),
        Err(_) => Err(io::Error::new(ErrorKind::InvalidFilename, "Its name is not UTF-8")),
    }
}

// The words of a failure, without the number that std puts after the system's.
fn words(text: &[u8]) -> &[u8] {
    match std::str::from_utf8(text) {
        Ok(text) => match text.split_once(" (os error ") {
            Some((words, _)) => words.as_bytes(),
            None => text.as_bytes(),
        },
        Err(_) => text,
    }
}

// A value's text at the front of `room`, as much of it as fits.
fn shown<'a>(room: &'a mut [u8], value: &impl Display) -> &'a [u8] {
    let most = room.len();
    let mut rest = &mut *room;
    let _ = write!(rest, "{value}");
    let count = most.saturating_sub(rest.len());
    &room[..count]
}

// Texts one after the other at the front of `room`, if they fit.
fn joined<'a>(room: &'a mut [u8], texts: &[&[u8]]) -> Option<&'a [u8]> {
    let most = room.len();
    let mut rest = &mut *room;
    for text in texts {
        if let Err(_) = rest.write_all(text) {
            return None;
        }
    }
    let count = most.saturating_sub(rest.len());
    Some(&room[..count])
}

// Writes texts one after the other, and answers whether all was written, or why not. Usual ones go in one write, so that the lines of two
// programs that write to one file do not mix.
fn put<W: Write>(rt: &HostRuntime, out: &mut W, texts: &[&[u8]]) -> io::Result<()> {
    let mut room = [0u8; 2048];
    if let Some(text) = joined(&mut room, texts) {
        write_all(rt, out, text)?;
        return Ok(());
    }
    for text in texts {
        write_all(rt, out, text)?;
    }
    Ok(())
}

// Says on standard error what a program could not do and why, in a line.
pub fn fail(rt: &HostRuntime, program: &[u8], what: &[u8], why: io::Error) {
    let mut room = [0u8; 320];
    let why = words(shown(&mut room, &why));
    let _ = put(
        rt,
        &mut rt.stderr(),
        &[program, b": ", what, b": ", why, b"\n"],
    );
}

// Says what failed where a text was not written whole.
fn tell(rt: &HostRuntime, program: &[u8], written: io::Result<()>) {
    if let Err(why) = written {
        fail(rt, program, b"the text could not be written whole", why);
    }
}

// What comes after a program's name where it says how it is used.
const USAGE: &[u8] = b" [FILE] | --help | --version\n";

// Prints how a program is used, and more about it, or says what failed.
pub fn print_help(rt: &HostRuntime, program: &[u8], more: &[u8]) {
    let texts = [b"usage: ", program, USAGE, more];
    tell(rt, program, put(rt, &mut rt.stdout(), &texts));
}

// Prints the version of the project after a program's name, or says what failed.
pub fn print_version(rt: &HostRuntime, program: &[u8]) {
    let mut room = [0u8; 40];
    let version = shown(
        &mut room,
        &format_args!(
            " {}.{}.{}\n",
            version::MAJOR,
            version::MINOR,
            version::PATCH
        ),
    );
    tell(rt, program, put(rt, &mut rt.stdout(), &[program, version]));
}

fn refuse(rt: &HostRuntime, program: &[u8]) {
    let _ = put(rt, &mut rt.stderr(), &[b"usage: ", program, USAGE]);
}

// A report that a program writes on a list.
pub trait Report {
    // Writes the report on `input`, and answers whether all of it was taken, or why not.
    fn write(&self, rt: &HostRuntime, input: &[u8]) -> io::Result<()>;
}

#[tactic(auto, unfolding(streams::specs::Got::Within))]
fn report_on<L: Read, R: Report>(rt: &HostRuntime, program: &str, list: &mut L, report: &R) {
    // One byte more than the longest input decides whether there is more.
    let mut input = [0u8; LONGEST_INPUT + 1];
    match read_all(rt, list, &mut input) {
        Ok(n) => {
            if let Err(why) = report.write(rt, &input[..n]) {
                fail(
                    rt,
                    program.as_bytes(),
                    b"the report could not be written whole",
                    why,
                );
            }
        }
        Err(why) => fail(
            rt,
            program.as_bytes(),
            b"the list could not be read to its end",
            why,
        ),
    }
}

fn report_on_file<R: Report>(rt: &HostRuntime, program: &str, name: &[u8], report: &R) {
    match open(rt, name) {
        Ok(mut list) => report_on(rt, program, &mut list, report),
        Err(why) => fail(rt, program.as_bytes(), b"the file could not be opened", why),
    }
}

// Runs a program that reads a list, on standard input or in the file that its argument names, and writes a report on it. A list that was
// not read to its end gets no report; what could not be done is said on standard error.
pub fn run<R: Report>(rt: &HostRuntime, program: &str, more: &str, report: &R) {
    let mut argument = [0u8; 4096];
    let first = match rt.arg(1, &mut argument) {
        Ok(n) => Some(&argument[..n]),
        Err(_) => None,
    };
    match what_is_asked(argument_count(rt), first) {
        Asked::Standard => report_on(rt, program, &mut rt.stdin(), report),
        Asked::File => report_on_file(rt, program, first.unwrap_or(b""), report),
        Asked::Help => print_help(rt, program.as_bytes(), more.as_bytes()),
        Asked::Version => print_version(rt, program.as_bytes()),
        Asked::Unknown => refuse(rt, program.as_bytes()),
    }
}

// A report that is made in parts: the first, and then one after the other from where the one before ended, up to the input's end.
pub trait Parts {
    // Opens the format, and puts the first part at the front of `out`.
    fn first_part(
        &self,
        input: &[u8],
        elements: &mut [u32; MOST_ELEMENTS],
        out: &mut [u8; PART],
    ) -> First
        ensures { result.count ≤ length out.new };

    // Puts the part for the texts from `from` on at the front of `out`; where there is a text, it goes on in the input.
    fn next_part(
        &self,
        opened: Opened,
        elements: &[u32; MOST_ELEMENTS],
        input: &[u8],
        from: usize,
        out: &mut [u8; PART],
    ) -> Next
        ensures fits { result.count ≤ length out.new }
        ensures goes { from < length input.now → from < result.next };
}

// Writes a report that is made in parts, and answers whether all of it was taken, or why not.
pub fn write_parts<P: Parts>(rt: &HostRuntime, input: &[u8], parts: &P) -> io::Result<()> {
    let mut elements = [0; MOST_ELEMENTS];
    let mut out = [0; PART];
    let first = parts.first_part(input, &mut elements, &mut out);
    write_all(rt, &mut rt.stdout(), &out[..first.count])?;
    let mut from = first.next;
    while from < input.len() {
        let part = parts.next_part(first.opened, &elements, input, from, &mut out);
        write_all(rt, &mut rt.stdout(), &out[..part.count])?;
        from = part.next;
    }
    Ok(())
}
