// The lines of the weeks.
ghost use Rattle.std.specs.Prelude.{◌<◌, ◌^◌, ◌%◌};
ghost use Rattle.lists.specs.Putting.{Writes};
ghost use Rattle.week_report.specs.Private.{tally_of, table_shown, Small};
ghost use Rattle.week_report.specs.Weeks.{week_line};

use lists::Writer;

// What one of a week's bits is in a word of the table, and one of a year's in a week.
const WEEK: u64 = 17592186044416;

const YEAR: u64 = 64;

// The line of a word of the table.
fn put_week(w: &mut Writer, word: u64)
    requires { word % 2 ^ 44 < 2 ^ 32 }
    ensures { Writes (week_line (tally_of word)) w.old w.new }
{
    let week = word / WEEK;
    let sheets = word % WEEK;
    w.four((week / YEAR) as u32);
    w.bytes(b"-W");
    w.two((week % YEAR) as u32);
    w.byte(b' ');
    w.plain(sheets as u32);
    w.byte(b'\n');
}

// A line for each word of the table.
pub(crate) fn put_weeks(w: &mut Writer, table: &[u64])
    requires { Small table.now }
    ensures { Writes (table_shown table.now) w.old w.new }
{
    for word in table {
        put_week(w, *word);
    }
}
