// Which facts quarrel, where no day or no hour agrees with all of them.
ghost use Rattle.std.specs.Prelude.{◌≡◌, ◌<◌};
ghost use Rattle.kinds.specs.Kinds.{kinds};
ghost use Rattle.reasons.specs.Private.{first_kind, last_kind};
ghost use Rattle.reasons.specs.Quarrels.{is_nothing, none_agrees, without, tried, quarrelling};

use crate::About;
use agreement::{Facts, Found, search_hours};
use judge::search_days;

#[tactic(auto, unfolding(crate::specs::Quarrels::is_nothing))]
fn is_nothing(found: Found) -> bool
    ensures { result ≡ is_nothing found }
{
    matches!(found, Found::Nothing)
}

// Whether no day, or no hour, agrees with the facts.
#[tactic(auto, unfolding(crate::specs::Quarrels::none_agrees))]
fn none_agrees(about: About, facts: Facts) -> bool
    ensures { result ≡ none_agrees about facts }
{
    match about {
        About::Day => is_nothing(search_days(facts)),
        About::Hour => is_nothing(search_hours(facts)),
    }
}

// The facts without those of one kind.
#[tactic(auto, unfolding(crate::specs::Quarrels::without))]
fn without(kind: u32, facts: Facts) -> Facts
    requires { kind < kinds }
    ensures { result ≡ without kind facts }
{
    let mut less = facts;
    less.said[kind as usize] = 0;
    less
}

// A kind is left out if without it still none agrees. What was not said need not be tried.
#[tactic(auto, using(crate::proofs::Trying::tried_ways))]
fn tried(about: About, kind: u32, facts: Facts) -> Facts
    requires { kind < kinds }
    ensures { result ≡ tried about kind facts }
{
    if facts.said[kind as usize] == 0 {
        return facts;
    }
    let less = without(kind, facts);
    if none_agrees(about, less) {
        return less;
    }
    facts
}

// The first and the last of the kinds that bear on the day, or on the hour.
impl About {
    #[tactic(auto, unfolding(crate::specs::Private::first_kind))]
    pub(crate) fn first_kind(self) -> u32
        ensures { result ≡ first_kind self }
    {
        match self {
            About::Day => kinds::FIRST_DAY_KIND,
            About::Hour => kinds::FIRST_HOUR_KIND,
        }
    }

    #[tactic(auto, unfolding(crate::specs::Private::last_kind))]
    pub(crate) fn last_kind(self) -> u32
        ensures { result ≡ last_kind self }
    {
        match self {
            About::Day => kinds::LAST_DAY_KIND,
            About::Hour => kinds::LAST_HOUR_KIND,
        }
    }
}

// The facts that are left once each kind was tried, in order.
pub fn quarrelling(about: About, facts: Facts) -> Facts
    ensures { result ≡ quarrelling about facts }
{
    let mut left = facts;
    for kind in about.first_kind()..=about.last_kind() {
        left = tried(about, kind, left);
    }
    left
}
