// Where a day can agree: what facts leave of the years, of a year's months, of its days, and of a month's days.
ghost use Rattle.std.specs.Prelude.{◌≡◌, ◌+◌, ◌-◌, ◌≤◌, ◌<◌, min};
ghost use Rattle.judge.specs.Private.{narrowed, said_years, year_span, year_step, first_year, iso_can, month_span};
ghost use Rattle.judge.specs.Private.{year_days, month_start, month_day_span};

use crate::testing::date_at;
use agreement::Facts;

// The numbers from `first` to `last`; none where `last` is smaller.
#[derive(Clone, Copy)]
pub struct Span {
    pub first: u32,
    pub last: u32,
}

impl Span {
    // What is left where something was said of a kind: the numbers from `first` to `last`.
    #[tactic(auto, unfolding(crate::specs::Private::narrowed))]
    fn narrowed(self, said: u32, first: u32, last: u32) -> Span
        ensures { result ≡ narrowed self said first last }
    {
        if said == 0 {
            return self;
        }
        Span {
            first: self.first.max(first),
            last: self.last.min(last),
        }
    }
}

// The number, cut to `most`; 0 where nothing was said.
fn number_of(said: u32, most: u32) -> u32
    ensures { result ≡ min (said - 1) most }
{
    said.saturating_sub(1).min(most)
}

// ---- The years

// The years up to `horizon` that agree with what was said of the year and of the century.
#[tactic(auto, unfolding(crate::specs::Private::said_years))]
pub(crate) fn said_years(facts: &Facts, horizon: u32) -> Span
    ensures { result ≡ said_years facts.now horizon }
{
    let all = Span {
        first: 1,
        last: horizon,
    };
    let year = facts.said(kinds::YEAR);
    let number = number_of(year, 10000);
    let century = facts.said(kinds::CENTURY);
    let hundreds = number_of(century, 100) * 100;
    all.narrowed(year, number, number)
        .narrowed(century, hundreds, hundreds + 99)
}

// Those of them that can agree with what was said of the ISO year, which is the year's own or the one before or after it.
#[tactic(auto, unfolding(crate::specs::Private::year_span))]
pub(crate) fn year_span(facts: &Facts, horizon: u32) -> Span
    ensures { result ≡ year_span facts.now horizon }
{
    let iso = facts.said(kinds::ISO_YEAR);
    let number = number_of(iso, 20000);
    said_years(facts, horizon).narrowed(iso, number.max(1) - 1, number + 1)
}

// From one year that can agree to the next: a century where the year in it was said.
#[tactic(auto, unfolding(crate::specs::Private::year_step))]
pub(crate) fn year_step(facts: &Facts) -> u32
    ensures { result ≡ year_step facts.now }
{
    if facts.said(kinds::YEAR_IN_CENTURY) == 0 {
        1
    } else {
        100
    }
}

// The first year from `first` on with the year in the century that was said.
#[tactic(auto, unfolding(crate::specs::Private::first_year))]
pub(crate) fn first_year(facts: &Facts, first: u32) -> u32
    requires { first ≤ 20000 }
    ensures { result ≡ first_year facts.now first }
{
    let said = facts.said(kinds::YEAR_IN_CENTURY);
    if said == 0 {
        return first;
    }
    first + ((said - 1) % 100 + 100 - first % 100) % 100
}

// ---- The months

// Whether the ISO year of a day of `year` can end in what was said: that year, the one before or the one after does.
#[tactic(auto, unfolding(crate::specs::Private::iso_can))]
fn iso_can(facts: &Facts, year: u32) -> bool
    requires { year ≤ 9999 }
    ensures { result ≡ iso_can facts.now year }
{
    let said = facts.said(kinds::ISO_YEAR_IN_CENTURY);
    said == 0 || (year + 101 - (said - 1) % 100) % 100 <= 2
}

#[tactic(auto, unfolding(crate::specs::Private::month_span))]
pub(crate) fn month_span(facts: &Facts, year: u32) -> Span
    requires { year ≤ 9999 }
    ensures { result ≡ month_span facts.now year }
{
    if !iso_can(facts, year) {
        return Span { first: 1, last: 0 };
    }
    let month = facts.said(kinds::MONTH);
    let number = number_of(month, 13);
    Span { first: 1, last: 12 }.narrowed(month, number, number)
}

// ---- The days

// The days of a year, by their day numbers, that can agree with what was said of the day of the year and the weeks by Sundays and by
// Mondays. `before` counts the days before the year.
#[tactic(auto, unfolding(crate::specs::Private::year_days))]
pub(crate) fn year_days(facts: &Facts, before: u32, length: u32) -> Span
    requires { (before ≤ 3652059) × (length ≤ 366) }
    ensures { result ≡ year_days facts.now before length }
{
    let all = Span {
        first: before + 1,
        last: before + length,
    };
    let day = facts.said(kinds::DAY_OF_YEAR);
    let number = before + number_of(day, 400);
    let sunday_week = facts.said(kinds::SUNDAY_WEEK);
    let start = (before / 7 + number_of(sunday_week, 60)) * 7;
    let monday_week = facts.said(kinds::MONDAY_WEEK);
    let end = ((before + 6) / 7 + number_of(monday_week, 60)) * 7;
    all.narrowed(day, number, number)
        .narrowed(sunday_week, start, start + 6)
        .narrowed(monday_week, end.max(6) - 6, end)
}

// How many days stand before a month.
pub(crate) fn month_start(before: u32, year: u32, month: u32) -> u32
    requires { (before ≤ 3652059) × (year ≤ 9999) × (0 < month) × (month ≤ 12) }
    ensures { result ≡ month_start before year month }
{
    before + (date_at(year, month, 1).day_of_year() - 1)
}

// The days of a month that can agree with what was said of the day of the month, among those that can by the year.
#[tactic(auto, unfolding(crate::specs::Private::month_day_span))]
pub(crate) fn month_days(facts: &Facts, days: Span, start: u32, length: u32) -> Span
    requires { (start ≤ 3652059) × (length ≤ 31) }
    ensures { result ≡ month_day_span facts.now days start length }
{
    let day = facts.said(kinds::DAY);
    let number = start + number_of(day, 40);
    let month = Span {
        first: days.first.max(start + 1),
        last: days.last.min(start + length),
    };
    month.narrowed(day, number, number)
}
