// Runs the writer on the cases that compare/src/bin/vectors/write.rs makes. A line of the input is `Y m d H M S O B FORMAT`: a moment's six
// fields, its zone offset, the length of the buffer, at most 200, and the format. The offset is ? where it is unsaid, else a sign and the
// minutes. A line of the output is `number place [BUFFER]`: the answer, and the
// buffer, which held # before.
#![tactic(auto)]

ghost use Rattle.std.specs.Prelude.{◌<◌, ◌^◌};

use streams::read_full;
use strftime::{Fields, strftime, writing_of};

// The number in decimal at the front of a line, modulo 2 to the 32, and what follows the byte after it.
fn number(line: &[u8]) -> (u32, &[u8]) {
    let count = line
        .iter()
        .position(|b| !text::is_digit(*b))
        .unwrap_or(line.len());
    let value = line[..count].iter().fold(0u32, |n, b| {
        n.wrapping_mul(10)
            .wrapping_add(b.saturating_sub(b'0') as u32)
    });
    (value, line.get(count + 1..).unwrap_or(&[]))
}

// The offset at the front of a line, and what follows the byte after it.
fn offset(line: &[u8]) -> (Option<i32>, &[u8]) {
    let Some((sign, rest)) = line.split_first() else {
        return (None, line);
    };
    let (minutes, rest) = number(rest);
    (signed(*sign, minutes % 2147483648), rest)
}

fn signed(sign: u8, minutes: u32) -> Option<i32>
    requires { minutes < 2 ^ 31 }
{
    match sign {
        b'+' => Some(minutes as i32),
        b'-' => Some(-(minutes as i32)),
        _ => None,
    }
}

fn write_case(rt: &impl Print, line: &[u8]) {
    let (year, rest) = number(line);
    let (month, rest) = number(rest);
    let (day, rest) = number(rest);
    let (hour, rest) = number(rest);
    let (minute, rest) = number(rest);
    let (second, rest) = number(rest);
    let (offset, rest) = offset(rest);
    let (size, format) = number(rest);
    let fields = Fields {
        year,
        month,
        day,
        hour,
        minute,
        second,
        offset,
    };
    let mut buffer = [b'#'; 200];
    let n = buffer.len().min(size as usize);
    write_answer(rt, format, fields, &mut buffer[..n]);
}

fn write_answer(rt: &impl Print, format: &[u8], fields: Fields, buffer: &mut [u8]) {
    let writing = writing_of(strftime(format, fields, buffer));
    let _ = print!(rt; "{} {} [", writing.number, writing.place);
    let _ = rt.write_all(buffer);
    let _ = rt.write_all(b"]\n");
}

fn write_cases(rt: &impl Print, input: &[u8]) {
    for line in input.split_inclusive(|b| *b == b'\n') {
        write_case(rt, line.strip_suffix(b"\n").unwrap_or(line));
    }
}

fn main(rt: HostRuntime) {
    let mut input = [0u8; 400000];
    let n = read_full(&rt, &mut rt.stdin(), &mut input);
    write_cases(&rt, &input[..n]);
}
