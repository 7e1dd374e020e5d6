// Goes over every day of the calendar, by its day number, and writes a digest of what the calendar says of the days of each century of
// years: 0 to 99, 100 to 199, .., 9900 to 9999. A line has the century's last year and the digest, in decimal.
// tests/every_day.py makes the same lines by Python's datetime module.
#![tactic(auto)]

use calendar::Date;

// A digest starts at 0 and takes values one after the other, h to (h * P + v) mod M.
// M is prime and P is not a multiple of it, so multiplying by P takes different remainders to different ones. If one value below M is
// wrong, the digest differs from that value on, whatever is taken after it: a single wrong value on a single day always changes the
// century's digest.
const M: u64 = 4294967291;

const P: u64 = 2654435761;

fn mix(h: u32, v: u32) -> u32 {
    ((h as u64 * P + v as u64) % M) as u32
}

// The day number of the date with these fields; 0 where there is no such date.
fn number_of(year: u32, month: u32, day: u32) -> u32 {
    match Date::from_fields(year, month, day) {
        Ok(date) => date.day_number(),
        Err(_) => 0,
    }
}

// Takes what the calendar says of day `k`, and the day number again from the fields of its date.
fn digest_day(h: u32, k: u32) -> u32 {
    let Some(date) = Date::from_day_number(k) else {
        return mix(h, 0);
    };
    let year = date.year as u32;
    let month = date.month as u32;
    let day = date.day as u32;
    let fields = mix(mix(mix(h, year), month), day);
    let days = mix(mix(fields, date.day_of_year()), date.weekday());
    let weeks = mix(mix(days, date.sunday_week()), date.monday_week());
    let iso_year = date.iso_year();
    let iso = mix(mix(mix(weeks, iso_year), iso_year % 100), date.iso_week());
    mix(iso, number_of(year, month, day))
}

// The digest of the days after day `past`, through day `last`.
fn digest_days(past: u32, last: u32) -> u32 {
    let mut h = 0;
    for k in past..last {
        h = digest_day(h, k + 1);
    }
    h
}

// One line: the year in four digits, a blank, the digest in ten, a newline.
fn print_line(rt: &impl Print, year: u32, digest: u32) {
    let _ = println!(rt; "{year:04} {digest:010}");
}

// The lines of all hundred centuries.
fn print_centuries(rt: &impl Print) {
    let mut past = 0;
    for century in 0..100u32 {
        let year = 100 * century + 99;
        let last = number_of(year, 12, 31);
        print_line(rt, year, digest_days(past, last));
        past = last;
    }
}

fn main(rt: HostRuntime) {
    print_centuries(&rt);
}
