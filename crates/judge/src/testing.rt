// What is asked of facts: whether anything was said of some kinds, and the test of one day, quick enough for a scan.
ghost use Rattle.std.specs.Prelude.{not, ◌≡◌, ◌+◌, ◌-◌, ◌<◌, ◌^◌};
ghost use Rattle.agreement.specs.Agreement.{none_said, all_agree, date_agrees};
ghost use Rattle.calendar.specs.Calendar.{date, days_before, day_number};
ghost use Rattle.kinds.specs.Kinds.{kinds};
ghost use Rattle.laws.specs.Lists.{range};
ghost use Rattle.values.specs.Values.{date_value};
ghost use Rattle.judge.specs.Private.{iso_kinds};

use agreement::Facts;
use calendar::Date;

// Whether anything was said of the kinds from `from` to `to`.
pub(crate) fn any_said(facts: &Facts, from: u32, to: u32) -> bool
    requires { to < kinds }
    ensures { result ≡ not (none_said facts.now (range from (to + 1 - from))) }
{
    for kind in from..to + 1 {
        if facts.said(kind) != 0 {
            return true;
        }
    }
    false
}

// Whether a date agrees with all that was said of the kinds from `from` to `to`. Values that nothing was said of are not worked out.
pub(crate) fn date_kinds_agree(facts: &Facts, date: Date, from: u32, to: u32) -> bool
    requires { to < kinds }
    ensures { result ≡ all_agree facts.now (range from (to + 1 - from)) (λ k. date_value k date) }
{
    for kind in from..to + 1 {
        if facts.said(kind) != 0 && !facts.agree(kind, values::date_value(kind, date)) {
            return false;
        }
    }
    true
}

pub(crate) fn date_at(year: u32, month: u32, day: u32) -> Date
    requires { (year < 2 ^ 16) × (month < 2 ^ 8) × (day < 2 ^ 8) }
    ensures { result ≡ date year month day }
{
    Date {
        year: year as u16,
        month: month as u8,
        day: day as u8,
    }
}

// Whether a day agrees with all that was said. `number` is its day number, `before` counts the days before its year, and `iso` says
// whether any ISO year or week was said. Weekday, %U and %W are worked out from `number` and `before` here: asked of the calendar they
// made scans 10 to 25 % slower. As a call from the search that skips years it would take that half as long again.
#[inline(always)]
pub(crate) fn day_agrees(facts: &Facts, iso: bool, date: Date, number: u32, before: u32) -> bool
    requires number_value { (number ≡ day_number date.year date.month date.day) × (before ≡ days_before date.year) }
    requires number_bound { (number < 2 ^ 25) × (iso ≡ not (none_said facts.now iso_kinds)) }
    ensures { result ≡ date_agrees facts.now date }
{
    let year = date.year as u32;
    facts.agree(kinds::YEAR, year)
        && facts.agree(kinds::CENTURY, year / 100)
        && facts.agree(kinds::YEAR_IN_CENTURY, year % 100)
        && facts.agree(kinds::MONTH, date.month as u32)
        && facts.agree(kinds::DAY, date.day as u32)
        && facts.agree(kinds::DAY_OF_YEAR, number - before)
        && facts.agree(kinds::WEEKDAY, (number + 6) % 7 + 1)
        && facts.agree(kinds::SUNDAY_WEEK, number / 7 - before / 7)
        && facts.agree(kinds::MONDAY_WEEK, (number + 6) / 7 - (before + 6) / 7)
        && (!iso || date_kinds_agree(facts, date, kinds::ISO_YEAR, kinds::ISO_WEEK))
}
