// The Gregorian calendar of the years 1 to 9999: dates, day numbers, weekdays and weeks (RULES 2).
#![tactic(auto)]

ghost use Rattle.std.specs.Prelude.{◌≡◌, ◌-◌, ◌<◌, ◌≤◌, ◌^◌};
ghost use Rattle.calendar.specs.Calendar.{sum, leap, year_length, month_length, day_of_year, days_before, day_number, year_of, month_of};
ghost use Rattle.calendar.specs.Calendar.{weekday, count_after, sunday_week, monday_week, thursday, iso_year, iso_week};
ghost use Rattle.calendar.specs.Dates.{from_fields, from_day_number, ends};

// Weekdays, by their numbers: Monday 1 to Sunday 7.
const MONDAY: u32 = 1;

const THURSDAY: u32 = 4;

const SUNDAY: u32 = 7;

// The days of each month in a year that is not leap, at the month's number; there is no month 0.
const MONTH_LENGTHS: [u32; 13] = [0, 31, 28, 31, 30, 31, 30, 31, 31, 30, 31, 30, 31];

#[derive(Clone, Copy, PartialEq, Eq)]
pub struct Date {
    pub year: u16,
    pub month: u8,
    pub day: u8,
}

// A field of a date, in the order in which they are judged.
#[derive(Clone, Copy, PartialEq, Eq)]
pub enum DateField {
    Year,
    Month,
    Day,
}

// The calendar's ends and how many days it has.
#[derive(Clone, Copy)]
pub struct Ends {
    pub first: Date,
    pub last: Date,
    pub days: u32,
}

pub fn is_leap(year: u32) -> bool
    ensures { result ≡ leap year }
{
    year % 4 == 0 && (year % 100 != 0 || year % 400 == 0)
}

#[tactic(auto, unfolding(crate::specs::Calendar::year_length))]
pub fn year_length(year: u32) -> u32
    ensures { result ≡ year_length year }
{
    if is_leap(year) { 366 } else { 365 }
}

#[tactic(auto, using(crate::proofs::Months::no_month), unfolding(crate::specs::Calendar::computes))]
pub fn month_length(year: u32, month: u32) -> u32
    ensures { result ≡ month_length year month }
{
    match month {
        2 if is_leap(year) => 29,
        0..=12 => MONTH_LENGTHS[month as usize],
        _ => 0,
    }
}

// The weekday of day `number`: day 1 is a Monday.
fn weekday_of(number: u32) -> u32
    ensures { result ≡ weekday number }
{
    match number % 7 {
        0 => SUNDAY,
        past => past,
    }
}

// How many of the `days` days after day `before` fall on `weekday`: `past` days have gone by since the last one that did.
#[tactic(auto, using(crate::proofs::Weeks::count_by_past))]
fn count_after(weekday: u32, before: u32, days: u32) -> u32
    requires { (0 < weekday) × (weekday ≤ 7) }
    ensures { result ≡ count_after weekday before days }
{
    let past = (before % 7 + 7 - weekday) % 7;
    ((past as u64 + days as u64) / 7) as u32
}

// The days of all years before `year`.
#[tactic(auto, using(crate::proofs::Years::years_closed), unfolding(crate::specs::Calendar::days_before))]
fn days_before(year: u32) -> u32
    requires { year < 2 ^ 20 }
    ensures { (result ≡ days_before year) × (result < 2 ^ 29) }
{
    let past = year.saturating_sub(1);
    365 * past + past / 4 - past / 100 + past / 400
}

// The days of the year before `month`: months of 30 and 31 days by turns, less what February lacks.
#[tactic(auto, using(crate::proofs::Months::starts), unfolding(crate::specs::Calendar::sum))]
fn days_before_month(year: u32, month: u32) -> u32
    ensures { result ≡ sum (month_length year) (month - 1) }
{
    match month {
        0 => 0,
        1..=12 => {
            let days = (367 * month - 362) / 12;
            if month <= 2 {
                days
            } else if is_leap(year) {
                days - 1
            } else {
                days - 2
            }
        }
        _ => year_length(year),
    }
}

// The year that day `k` falls in: the estimate is right or one year short.
fn year_of(k: u32) -> u32
    requires { k < 2 ^ 25 }
    ensures { (result ≡ year_of k) × (result < 2 ^ 20) }
{
    let year = (k.saturating_sub(1) as u64 * 400 / 146097) as u32 + 1;
    if k <= days_before(year + 1) {
        year
    } else {
        year + 1
    }
}

// The same, where that year is most likely `year`: then no division by the length of a cycle is needed.
#[tactic(auto, using(crate::proofs::Years::year_within))]
fn year_near(year: u32, k: u32) -> u32
    requires { (year < 2 ^ 16) × (k < 2 ^ 25) }
    ensures { (result ≡ year_of k) × (result < 2 ^ 20) }
{
    let before = days_before(year);
    if 0 < year && before < k && k <= before + 365 {
        year
    } else {
        year_of(k)
    }
}

// The month that day `n` of `year` falls in: the estimate is right or one month short.
fn month_of(year: u32, n: u32) -> u32
    requires { (0 < n) × (n ≤ year_length year) }
    ensures { result ≡ month_of year n }
{
    let month = (n - 1) / 31 + 1;
    if n <= days_before_month(year, month + 1) {
        month
    } else {
        month + 1
    }
}

// The day number of a date, within what its fields allow.
#[tactic(auto, using(crate::proofs::Weeks::small_numbers), unfolding(crate::specs::Calendar::computes))]
fn number_of(date: Date) -> u32
    ensures { (result ≡ day_number date.year date.month date.day) × (result < 2 ^ 25 - 8) }
{
    days_before(date.year as u32)
        + days_before_month(date.year as u32, date.month as u32)
        + date.day as u32
}

// The Thursday of the week that holds a date.
#[tactic(auto, unfolding(crate::specs::Calendar::thursday))]
fn thursday_of(date: Date) -> u32
    ensures { (result ≡ thursday (day_number date.year date.month date.day)) × (result < 2 ^ 25) }
{
    let k = number_of(date);
    (k + 4).saturating_sub(weekday_of(k))
}

impl Date {
    // The calendar's ends and how many days it has.
    pub const FIRST: Date = Date {
        year: 1,
        month: 1,
        day: 1,
    };

    pub const LAST: Date = Date {
        year: 9999,
        month: 12,
        day: 31,
    };

    pub const DAYS: u32 = 3652059;

    // The three at once: day 1 is the first date, day DAYS the last.
    #[tactic(auto, using(crate::proofs::Dates::ends_are), unfolding(crate::specs::Dates::ends))]
    pub fn ends() -> Ends
        ensures { result ≡ ends }
    {
        Ends {
            first: Date::FIRST,
            last: Date::LAST,
            days: Date::DAYS,
        }
    }

    // The date with these fields, or the first bad one.
    #[tactic(auto, using(crate::proofs::Months::month_most), unfolding(crate::specs::Dates::computes, crate::specs::Calendar::date_fault))]
    pub fn from_fields(year: u32, month: u32, day: u32) -> Result<Date, DateField>
        ensures { result ≡ from_fields year month day }
    {
        if year < Date::FIRST.year as u32 || (Date::LAST.year as u32) < year {
            return Err(DateField::Year);
        }
        if month < Date::FIRST.month as u32 || (Date::LAST.month as u32) < month {
            return Err(DateField::Month);
        }
        if day < Date::FIRST.day as u32 || month_length(year, month) < day {
            return Err(DateField::Day);
        }
        Ok(Date {
            year: year as u16,
            month: month as u8,
            day: day as u8,
        })
    }

    // The date of a day number, where it is a day of the calendar.
    pub fn from_day_number(k: u32) -> Option<Date>
        ensures { result ≡ from_day_number k }
    {
        if k < 1 || Date::DAYS < k {
            return None;
        }
        let year = year_of(k);
        let n = k - days_before(year);
        let month = month_of(year, n);
        Some(Date {
            year: year as u16,
            month: month as u8,
            day: (n - days_before_month(year, month)) as u8,
        })
    }

    // %j
    #[tactic(auto, using(crate::proofs::Months::months_small), unfolding(crate::specs::Calendar::day_of_year))]
    pub fn day_of_year(self) -> u32
        ensures { result ≡ day_of_year self.year self.month self.day }
    {
        days_before_month(self.year as u32, self.month as u32) + self.day as u32
    }

    pub fn day_number(self) -> u32
        ensures { result ≡ day_number self.year self.month self.day }
    {
        number_of(self)
    }

    // Monday 1 to Sunday 7: %u
    pub fn weekday(self) -> u32
        ensures { result ≡ weekday (day_number self.year self.month self.day) }
    {
        weekday_of(number_of(self))
    }

    // %U
    #[tactic(auto, unfolding(crate::specs::Calendar::count_of, crate::specs::Calendar::sunday_week))]
    pub fn sunday_week(self) -> u32
        ensures { result ≡ sunday_week self.year self.month self.day }
    {
        count_after(SUNDAY, days_before(self.year as u32), self.day_of_year())
    }

    // %W
    #[tactic(auto, unfolding(crate::specs::Calendar::count_of, crate::specs::Calendar::monday_week))]
    pub fn monday_week(self) -> u32
        ensures { result ≡ monday_week self.year self.month self.day }
    {
        count_after(MONDAY, days_before(self.year as u32), self.day_of_year())
    }

    // %G
    #[tactic(auto, unfolding(crate::specs::Calendar::iso_year))]
    pub fn iso_year(self) -> u32
        ensures { result ≡ iso_year (day_number self.year self.month self.day) }
    {
        year_near(self.year as u32, thursday_of(self))
    }

    // %V
    #[tactic(auto, using(crate::proofs::Years::year_starts), unfolding(crate::specs::Calendar::computes))]
    pub fn iso_week(self) -> u32
        ensures { result ≡ iso_week (day_number self.year self.month self.day) }
    {
        let thursday = thursday_of(self);
        let year = year_near(self.year as u32, thursday);
        let before = days_before(year);
        count_after(THURSDAY, before, thursday - before)
    }
}
