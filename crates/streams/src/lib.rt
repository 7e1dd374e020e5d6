// Input read to its end and output written whole, or a failure, and why. A call that a signal broke off is tried again; one that would
// block waits and is tried again.
#![tactic(auto)]

ghost use Rattle.std.specs.Prelude.{◌≡◌, ◌<◌, ◌≤◌, length, take, IfErr, IfOk, MatchResult};
ghost use Rattle.std.specs.Io.KnownBytes.{Appends, Consumes, IsAtEnd};
ghost use Rattle.streams.specs.Got.{Brought, Gave, Took, Within};

use std::io::{ErrorKind, Read, Write};
use std::time::{Clock, Duration};
use std::{io, thread};

// A failure after some bytes had moved: how many a reader had put at the front of a buffer, or how many of its first bytes a writer had
// taken, and why no more.
#[derive(Drop)]
pub struct Stopped {
    pub count: usize,
    pub why: io::Error,
}

impl From<Stopped> for io::Error {
    fn from(stopped: Stopped) -> io::Error
        ensures { result ≡ stopped.why }
    {
        stopped.why
    }
}

// Waits for five milliseconds.
fn pause(rt: &impl Clock) {
    thread::sleep(rt, Duration::from_millis(5));
}

// Whether a call that failed so is to be tried again.
fn again(rt: &impl Clock, why: &io::Error) -> bool {
    match why.kind() {
        ErrorKind::Interrupted => true,
        ErrorKind::WouldBlock => {
            pause(rt);
            true
        }
        _ => false,
    }
}

// A proved loop has to end, so the tries are counted, up to a number that no run uses up.
const TRIES: u64 = u64::MAX;

// One read: how many bytes it put at the front of `buf`, 0 at the input's end.
#[tactic(auto, unfolding(crate::specs::Got::Within, crate::specs::Got::Gave))]
fn read_some<C: Clock, R: Read>(rt: &C, input: &mut R, buf: &mut [u8]) -> io::Result<usize>
    ensures within { Within result (length buf.old) }
    ensures bytes { Gave result (R.remaining input.old) (R.remaining input.new) buf.new }
{
    for _ in 0..TRIES {
        match input.read(buf) {
            Err(why) if again(rt, &why) => {}
            read => return read,
        }
    }
    Err(io::Error::from(ErrorKind::TimedOut))
}

// One write: how many of the first bytes of `buf` it took. (No one function with `read_some`, tried: no proof knows what a closure that is
// handed on has changed.)
#[tactic(auto, unfolding(crate::specs::Got::Within, crate::specs::Got::Took))]
fn write_some<C: Clock, W: Write>(rt: &C, output: &mut W, buf: &[u8]) -> io::Result<usize>
    ensures within { Within result (length buf.now) }
    ensures bytes { Took result (W.contents output.old) (W.contents output.new) buf.now }
{
    for _ in 0..TRIES {
        match output.write(buf) {
            Err(why) if again(rt, &why) => {}
            written => return written,
        }
    }
    Err(io::Error::from(ErrorKind::TimedOut))
}

// Reads until the input ends, `buf` is full or a read fails.
#[tactic(auto, unfolding(crate::specs::Got::Within, crate::specs::Got::Gave))]
fn fill<C: Clock, R: Read>(rt: &C, input: &mut R, buf: &mut [u8]) -> Result<usize, Stopped>
    ensures within { MatchResult result (λ n. n ≤ length buf.old) (λ stopped. stopped.count ≤ length buf.old) }
    ensures bytes { MatchResult result
        (λ n. Consumes (R.remaining input.old) (R.remaining input.new) (take n buf.new))
        (λ stopped. Consumes (R.remaining input.old) (R.remaining input.new) (take stopped.count buf.new)) }
    ensures end { IfOk result (λ n. n < length buf.old → IsAtEnd (R.remaining input.new)) }
{
    let mut count = 0;
    while count < buf.len() {
        match read_some(rt, input, &mut buf[count..]) {
            Ok(0) => break,
            Ok(n) => count += n,
            Err(why) => return Err(Stopped { count, why }),
        }
    }
    Ok(count)
}

// Reads until the input ends or `buf` is full, and answers how many bytes it put at the front of `buf`; or fails where a read did.
#[tactic(auto, unfolding(crate::specs::Got::Within, crate::specs::Got::Brought))]
pub fn read_all<C: Clock, R: Read>(rt: &C, input: &mut R, buf: &mut [u8]) -> io::Result<usize>
    ensures within { Within result (length buf.old) }
    ensures bytes { Brought result (R.remaining input.old) (R.remaining input.new) buf.new }
{
    Ok(fill(rt, input, buf)?)
}

// Reads as `read_all` does, but a read that fails ends the input.
pub fn read_full<C: Clock, R: Read>(rt: &C, input: &mut R, buf: &mut [u8]) -> usize
    ensures within { result ≤ length buf.old }
    ensures bytes { Consumes (R.remaining input.old) (R.remaining input.new) (take result buf.new) }
{
    match fill(rt, input, buf) {
        Ok(count) => count,
        Err(stopped) => stopped.count,
    }
}

// Writes all of `buf`; or says how many of its first bytes were taken before a write failed, or took nothing.
#[tactic(auto, unfolding(crate::specs::Got::Within, crate::specs::Got::Took))]
pub fn write_all<C: Clock, W: Write>(rt: &C, output: &mut W, buf: &[u8]) -> Result<(), Stopped>
    ensures within { IfErr result (λ stopped. stopped.count < length buf.now) }
    ensures bytes { MatchResult result
        (λ _. Appends (W.contents output.old) (W.contents output.new) buf.now)
        (λ stopped. Appends (W.contents output.old) (W.contents output.new) (take stopped.count buf.now)) }
{
    let mut count = 0;
    while count < buf.len() {
        match write_some(rt, output, &buf[count..]) {
            Ok(0) => {
                let why = io::Error::from(ErrorKind::WriteZero);
                return Err(Stopped { count, why });
            }
            Ok(n) => count += n,
            Err(why) => return Err(Stopped { count, why }),
        }
    }
    Ok(())
}
