// The plain engine: each day of the calendar is examined whole, in order, up to the second that agrees.
ghost use Rattle.std.specs.Prelude.{◌≡◌};
ghost use Rattle.judge.specs.Private.{scanned, plainly};

use crate::testing::{any_said, date_at, day_agrees};
use crate::{Judged, OverBudget};
use agreement::{Facts, Found, hit, is_two, verdict_of};
use calendar::{Date, month_length};

// What a scan comes to: the days found and how many were examined.
#[derive(Clone, Copy)]
pub struct Scan {
    pub found: Found,
    pub examined: u32,
}

// None where the budget is used up before.
fn scan_days(facts: Facts, budget: u32) -> Option<Scan>
    ensures { result ≡ scanned budget facts }
{
    let iso = any_said(&facts, kinds::ISO_YEAR, kinds::ISO_WEEK);
    let mut found = Found::Nothing;
    let mut examined = 0;
    'years: for year in Date::FIRST.year as u32..Date::LAST.year as u32 + 1 {
        let before = examined;
        for month in Date::FIRST.month as u32..Date::LAST.month as u32 + 1 {
            for day in Date::FIRST.day as u32..month_length(year, month) + 1 {
                if examined == budget {
                    return None;
                }
                examined += 1;
                if day_agrees(&facts, iso, date_at(year, month, day), examined, before) {
                    found = hit(examined, found);
                    if is_two(found) {
                        break 'years;
                    }
                }
            }
        }
    }
    Some(Scan { found, examined })
}

// The verdict and the days examined, or that there are more than the budget.
#[tactic(auto, using(crate::proofs::Budget::ended_plainly, crate::proofs::Budget::over_plainly))]
pub(crate) fn judge_plainly(facts: Facts, budget: u32) -> Result<Judged, OverBudget>
    ensures { result ≡ plainly budget facts }
{
    let scan = scan_days(facts, budget).ok_or(OverBudget { budget })?;
    Ok(Judged {
        verdict: verdict_of(scan.found),
        examined: scan.examined,
    })
}
