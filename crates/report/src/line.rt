// What a line says.
ghost use Rattle.std.specs.Prelude.{◌<◌, ◌^◌};
ghost use Rattle.lists.specs.Putting.{Writes};
ghost use Rattle.report.specs.Line.{day_shown, said_shown, moment_shown, line_of};

use calendar::Date;
use lists::Writer;
use strptime::Reading;

fn put_day(w: &mut Writer, day: Option<Date>)
    ensures { Writes (day_shown day) w.old w.new }
{
    match day {
        None => w.byte(b'-'),
        Some(date) => w.date(date),
    }
}

// An hour, minute or second.
fn put_said(w: &mut Writer, said: Option<u32>)
    ensures { Writes (said_shown said) w.old w.new }
{
    match said {
        None => w.bytes(b"--"),
        Some(n) => w.two(n),
    }
}

fn put_moment(w: &mut Writer, reading: Reading)
    ensures { Writes (moment_shown reading.day reading.hour reading.minute reading.second) w.old w.new }
{
    put_day(w, reading.day);
    w.byte(b' ');
    put_said(w, reading.hour);
    w.byte(b':');
    put_said(w, reading.minute);
    w.byte(b':');
    put_said(w, reading.second);
}

// The whole line.
pub(crate) fn put_line(w: &mut Writer, reading: Reading)
    requires { reading.place < 2 ^ 32 }
    ensures { Writes (line_of reading) w.old w.new }
{
    w.plain(reading.number);
    w.byte(b' ');
    w.plain(reading.place as u32);
    w.byte(b' ');
    put_moment(w, reading);
    w.byte(b'\n');
}
