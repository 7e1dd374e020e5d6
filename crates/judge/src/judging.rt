// The verdicts on the day and on the hour.
ghost use Rattle.std.specs.Prelude.{◌≡◌};
ghost use Rattle.agreement.specs.Verdicts.{hour_verdict};
ghost use Rattle.judge.specs.Engines.{searched};

use crate::plain::judge_plainly;
use crate::skipping::judge_skipping;
use crate::testing::any_said;
use crate::{Engine, Judged, OverBudget};
use agreement::{Facts, Verdict, search_hours, verdict_of};
use calendar::Date;

// Unsaid, and no day examined, where no fact bears on the day; else by the days that agree, as day numbers.
pub fn judge_day(engine: Engine, facts: Facts) -> Result<Judged, OverBudget>
    ensures { result ≡ searched engine facts }
{
    if any_said(&facts, kinds::FIRST_DAY_KIND, kinds::LAST_DAY_KIND) {
        return match engine {
            Engine::Skipping => Ok(judge_skipping(facts)),
            Engine::Plain => judge_plainly(facts, Date::DAYS),
            Engine::Within { budget } => judge_plainly(facts, budget),
        };
    }
    Ok(Judged {
        verdict: Verdict::Unsaid,
        examined: 0,
    })
}

pub fn judge_hour(facts: Facts) -> Verdict
    ensures { result ≡ hour_verdict facts }
{
    if any_said(&facts, kinds::FIRST_HOUR_KIND, kinds::LAST_HOUR_KIND) {
        return verdict_of(search_hours(facts));
    }
    Verdict::Unsaid
}
