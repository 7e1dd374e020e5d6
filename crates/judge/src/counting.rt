// How many days the engine that skips examines: those of the months whose year and month agree, without a walk over them.
ghost use Rattle.std.specs.Prelude.{◌≡◌, ◌≤◌, ◌<◌};
ghost use Rattle.calendar.specs.Calendar.{last_year, date_fault, day_number, days};
ghost use Rattle.agreement.specs.Search.{through};
ghost use Rattle.judge.specs.Engines.{month_days};
ghost use Rattle.judge.specs.Private.{said_days, ending_years, leap_ending_years, ending_days, whole_years, in_year};

use crate::spans::said_years;
use crate::testing::date_kinds_agree;
use agreement::{Facts, Found};
use calendar::{Date, month_length, year_length};

// ---- The years

// The days of a year in the month that was said, or all of them.
#[tactic(auto, unfolding(crate::specs::Private::said_days))]
fn said_days(said: u32, year: u32) -> u32
    ensures { result ≡ said_days said year }
{
    if said == 0 {
        return year_length(year);
    }
    month_length(year, said - 1)
}

// How many of the years 1 to `last` end in what was said of the year in the century.
#[tactic(auto, using(crate::proofs::Counts::endings))]
fn ending_years(said: u32, last: u32) -> u32
    requires { last ≤ last_year }
    ensures { result ≡ ending_years said last }
{
    if said == 0 {
        return last;
    }
    let number = said - 1;
    if 99 < number {
        return 0;
    }
    (last + (100 - number) % 100) / 100
}

// How many of those are leap: all or none where they do not end a century.
#[tactic(auto, using(crate::proofs::Counts::leap_endings))]
fn leap_ending_years(said: u32, last: u32) -> u32
    requires { last ≤ last_year }
    ensures { result ≡ leap_ending_years said last }
{
    if said == 0 {
        return last / 4 - last / 100 + last / 400;
    }
    let number = said - 1;
    if number % 4 != 0 {
        return 0;
    }
    if number == 0 {
        return last / 400;
    }
    ending_years(said, last)
}

// The days of those years in the month that was said. Years 4 and 1 stand for all that are leap and all that are not.
fn ending_days(facts: &Facts, last: u32) -> u32
    requires { last ≤ last_year }
    ensures { result ≡ ending_days facts.now last }
{
    let ending = facts.said(kinds::YEAR_IN_CENTURY);
    let month = facts.said(kinds::MONTH);
    let leap = leap_ending_years(ending, last);
    let common = ending_years(ending, last) - leap;
    said_days(month, 4) * leap + said_days(month, 1) * common
}

// The days of the years 1 to `last` in months that agree.
fn whole_years(facts: &Facts, last: u32) -> u32
    requires { last ≤ last_year }
    ensures { result ≡ whole_years facts.now last }
{
    let span = said_years(facts, Date::LAST.year as u32);
    let end = last.min(span.last);
    if end < span.first {
        return 0;
    }
    ending_days(facts, end) - ending_days(facts, span.first - 1)
}

// ---- The last year

// The days of the date's year in months that agree, through the date.
#[tactic(auto, using(crate::proofs::Counts::days_in_year))]
fn in_year(said: u32, date: Date) -> u32
    ensures { result ≡ in_year said date.year date.month date.day }
{
    if said == 0 {
        return date.day_of_year();
    }
    let month = said - 1;
    if (date.month as u32) < month {
        return 0;
    }
    if date.month as u32 == month {
        return date.day as u32;
    }
    month_length(date.year as u32, month)
}

// The days in months that agree, through the date.
fn date_through(facts: &Facts, date: Date) -> u32
    requires { date_fault date.year date.month date.day ≡ 0 }
    ensures { result ≡ month_days facts.now (day_number date.year date.month date.day) }
{
    let years = whole_years(facts, date.year as u32 - 1);
    if !date_kinds_agree(facts, date, kinds::YEAR, kinds::YEAR_IN_CENTURY) {
        return years;
    }
    years + in_year(facts.said(kinds::MONTH), date)
}

// The same through a day, by its day number.
fn day_through(facts: &Facts, number: u32) -> u32
    requires { (0 < number) × (number ≤ days) }
    ensures { result ≡ month_days facts.now number }
{
    match Date::from_day_number(number) {
        Some(date) => date_through(facts, date),
        None => 0,
    }
}

// The days in months that agree, through the last that is examined: the second that was found, else the calendar's last.
#[tactic(auto, using(crate::proofs::CountedDays::all_through), unfolding(agreement::specs::Search::through))]
pub(crate) fn month_days_through(facts: &Facts, found: Found) -> u32
    requires { (0 < through days found) × (through days found ≤ days) }
    ensures { result ≡ month_days facts.now (through days found) }
{
    match found {
        Found::Nothing | Found::One(_) => whole_years(facts, Date::LAST.year as u32),
        Found::Two { first: _, second } => day_through(facts, second),
    }
}
