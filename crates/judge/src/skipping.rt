// The engine that skips: only where a day can agree are days looked at, and years only until all repeats.
ghost use Rattle.std.specs.Prelude.{true, ◌≡◌, ◌+◌, ◌≤◌};
ghost use Rattle.calendar.specs.Calendar.{sum, year_length, last_year};
ghost use Rattle.agreement.specs.Agreement.{day_agrees};
ghost use Rattle.agreement.specs.Search.{first_two};
ghost use Rattle.agreement.specs.Verdicts.{days_found};
ghost use Rattle.judge.specs.Private.{date_said, named, cycle, first_of, repeated_found, skipping_judged};

use crate::Judged;
use crate::counting::month_days_through;
use crate::spans::{
    first_year, month_days, month_span, month_start, year_days, year_span, year_step,
};
use crate::testing::{any_said, date_at, date_kinds_agree, day_agrees};
use agreement::{Facts, Found, hit, is_two, verdict_of};
use calendar::{Date, month_length, year_length};

// All but the year's number repeats after so many years, which have so many days: whole weeks.
const CYCLE_YEARS: u32 = 400;

const CYCLE_DAYS: u32 = 146097;

// The first two days of the first `horizon` years that agree.
fn search_years(facts: Facts, horizon: u32) -> Found
    requires { horizon ≤ last_year }
    ensures { result ≡ first_two (day_agrees facts) 1 (sum year_length horizon) }
{
    let iso = any_said(&facts, kinds::ISO_YEAR, kinds::ISO_WEEK);
    let years = year_span(&facts, horizon);
    let first = first_year(&facts, years.first);
    let step = year_step(&facts) as usize;
    let mut found = Found::Nothing;
    'years: for year in (first..years.last + 1).step_by(step) {
        let months = month_span(&facts, year);
        // Most years, where the ISO year in the century was said: their days are not worked out.
        if months.last < months.first {
            continue;
        }
        let before = date_at(year, 1, 1).day_number() - 1;
        let days = year_days(&facts, before, year_length(year));
        for month in months.first..months.last + 1 {
            let start = month_start(before, year, month);
            let span = month_days(&facts, days, start, month_length(year, month));
            for number in span.first..span.last + 1 {
                let date = date_at(year, month, number - start);
                if day_agrees(&facts, iso, date, number, before) {
                    found = hit(number, found);
                    if is_two(found) {
                        break 'years;
                    }
                }
            }
        }
    }
    found
}

// Whether anything was said that names years: the year, the century or the ISO year.
#[tactic(auto, unfolding(crate::specs::Private::named, laws::specs::Lists::every))]
fn named(facts: Facts) -> bool
    ensures { result ≡ named facts }
{
    facts.said(kinds::YEAR) != 0
        || facts.said(kinds::CENTURY) != 0
        || facts.said(kinds::ISO_YEAR) != 0
}

// What is found in all years, from what is found in the first of the cycles that repeat.
#[tactic(auto, unfolding(crate::specs::Private::repeated_found, crate::specs::Private::first_of))]
fn repeated(found: Found) -> Found
    requires { first_of found ≤ cycle }
    ensures { result ≡ repeated_found found }
{
    match found {
        Found::One(first) => Found::Two {
            first,
            second: first + CYCLE_DAYS,
        },
        Found::Nothing | Found::Two { .. } => found,
    }
}

// Whether the whole date was said: year, month and day.
#[tactic(auto, unfolding(crate::specs::Private::date_said))]
fn date_said(facts: Facts) -> bool
    ensures { result ≡ date_said facts }
{
    facts.said(kinds::YEAR) != 0 && facts.said(kinds::MONTH) != 0 && facts.said(kinds::DAY) != 0
}

// Then no other day can agree: what most texts say is answered without a search. The test is not the one for a day of a scan, which the
// compiler puts into each engine's loop as long as no other function asks for it.
fn search_date(facts: Facts) -> Found
    requires { date_said facts ≡ true }
    ensures { result ≡ days_found facts }
{
    let year = facts.said(kinds::YEAR) - 1;
    let month = facts.said(kinds::MONTH) - 1;
    let day = facts.said(kinds::DAY) - 1;
    let Ok(date) = Date::from_fields(year, month, day) else {
        return Found::Nothing;
    };
    if date_kinds_agree(&facts, date, kinds::FIRST_DAY_KIND, kinds::LAST_DAY_KIND) {
        return Found::One(date.day_number());
    }
    Found::Nothing
}

// The first two days that agree.
pub fn search_days(facts: Facts) -> Found
    ensures { result ≡ days_found facts }
{
    if date_said(facts) {
        return search_date(facts);
    }
    if named(facts) {
        return search_years(facts, Date::LAST.year as u32);
    }
    repeated(search_years(facts, CYCLE_YEARS))
}

// The verdict and the days that count as examined.
pub(crate) fn judge_skipping(facts: Facts) -> Judged
    ensures { result ≡ skipping_judged facts }
{
    let found = search_days(facts);
    Judged {
        verdict: verdict_of(found),
        examined: month_days_through(&facts, found),
    }
}
