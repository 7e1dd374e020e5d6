// Reading the elements from left to right, with the facts and the forms of names so far.
ghost use Rattle.std.specs.Prelude.{not, ◌||◌, ◌≡◌, suc, ◌≤◌, eqb, length};
ghost use Rattle.matching.specs.Steps.{both, no_forms, later, latest, start, here, stays, stepped, step_on, read_all};

use crate::elements::{Item, read_element};
use crate::{Forms, Refused, State, Stepped};
use agreement::Facts;
use names::NameForm;

// Where an element leads: the first unread offset, the forms of names so far, and how its reading went. The two forms are apart here: as a
// struct they are copied as one after each was stored alone, which costs a nanosecond or two an element.
#[derive(Clone, Copy)]
pub struct Step {
    pub at: usize,
    pub weekday: Option<NameForm>,
    pub month: Option<NameForm>,
    pub outcome: Result<(), Refused>,
}

// Whether a number differs from what was said before, if anything was.
fn conflicts(said: u32, number: u32) -> bool
    requires { number ≤ 9999 }
    ensures { result ≡ not (eqb said 0 || eqb said (suc number)) }
{
    said != 0 && said != number + 1
}

// The form of the last name of a kind: this one, or the one before where this is no name.
#[tactic(auto, unfolding(crate::specs::Steps::later))]
fn later(before: Option<NameForm>, form: Option<NameForm>) -> Option<NameForm>
    ensures { result ≡ later before form }
{
    form.or(before)
}

// The form of the last name of the kind `own`, after one more fact.
#[tactic(auto, unfolding(crate::specs::Steps::latest))]
fn latest(own: u32, before: Option<NameForm>, kind: u32, form: Option<NameForm>) -> Option<NameForm>
    ensures { result ≡ latest own before kind form }
{
    if kind == own {
        return later(before, form);
    }
    before
}

// One element, read at an offset of the text; what it says is noted among the facts.
fn step_on(
    element: u32,
    s: &[u8],
    at: usize,
    weekday: Option<NameForm>,
    month: Option<NameForm>,
    said: &mut [u32; kinds::KINDS],
) -> Step
    requires { at ≤ length s.now }
    ensures { stepped said.new result
        ≡ step_on element s.now (here said.old at) (both weekday month) }
{
    match read_element(element, s, at) {
        Ok(Item::Skip { next }) => Step {
            at: next,
            weekday,
            month,
            outcome: Ok(()),
        },
        Ok(
            Item::Fact {
                kind,
                number,
                form,
                from,
                next,
            },
        ) => {
            if conflicts(said[kind as usize], number) {
                return Step {
                    at,
                    weekday,
                    month,
                    outcome: Err(Refused::Conflict { at: from }),
                };
            }
            said[kind as usize] = number + 1;
            Step {
                at: next,
                weekday: latest(kinds::WEEKDAY, weekday, kind, form),
                month: latest(kinds::MONTH, month, kind, form),
                outcome: Ok(()),
            }
        }
        Err(why) => Step {
            at,
            weekday,
            month,
            outcome: Err(why),
        },
    }
}

// A reading that ends here.
#[tactic(auto, unfolding(crate::specs::Steps::stays))]
fn stopped(
    said: [u32; kinds::KINDS],
    at: usize,
    weekday: Option<NameForm>,
    month: Option<NameForm>,
    outcome: Result<(), Refused>,
) -> Stepped
    ensures { result ≡ stays (here said at) (both weekday month) outcome }
{
    Stepped {
        state: State {
            facts: Facts { said },
            at,
        },
        forms: Forms { weekday, month },
        outcome,
    }
}

// The elements in order, up to the first refusal. The facts stay in one local array, which each step is lent.
pub fn read_all(elements: &[u32], s: &[u8]) -> Stepped
    ensures { result ≡ read_all elements.now s.now start no_forms }
{
    let mut said = [0; kinds::KINDS];
    let mut at = 0;
    let mut weekday = None;
    let mut month = None;
    for element in elements {
        let step = step_on(*element, s, at, weekday, month, &mut said);
        at = step.at;
        weekday = step.weekday;
        month = step.month;
        let Ok(()) = step.outcome else {
            return stopped(said, at, weekday, month, step.outcome);
        };
    }
    stopped(said, at, weekday, month, Ok(()))
}
