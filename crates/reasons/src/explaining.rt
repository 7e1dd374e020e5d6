// The reason of an answer, and the words that it names.
ghost use Rattle.std.specs.Prelude.{◌≡◌};
ghost use Rattle.reasons.specs.Private.{words_in};
ghost use Rattle.reasons.specs.Reasons.{differing, reason_of, quarrel_words, words_for, explained, format_elements};
ghost use Rattle.strptime.specs.Answers.{reading_of};

use crate::quarrels::quarrelling;
use crate::{About, Explained, Part, Reason};
use agreement::Facts;
use calendar::Date;
use format::{MOST_ELEMENTS, Side, open};
use matching::{Extent, first_said, nowhere, read_all};
use strptime::{Answer, ReadRefusal};

// The first part in which two dates differ.
#[tactic(auto, unfolding(crate::specs::Reasons::differing))]
pub fn differing(a: Date, b: Date) -> Part
    ensures { result ≡ differing a b }
{
    if a.year != b.year {
        return Part::Year;
    }
    if a.month != b.month {
        return Part::Month;
    }
    Part::Day
}

#[tactic(auto, unfolding(crate::specs::Reasons::computes, strptime::specs::Answers::computes))]
fn reason_of(answer: Answer) -> Option<Reason>
    ensures { result ≡ reason_of (reading_of answer) }
{
    match answer {
        Err(ReadRefusal::NoDay { .. }) => Some(Reason::Quarrel(About::Day)),
        Err(ReadRefusal::NoHour { .. }) => Some(Reason::Quarrel(About::Hour)),
        Err(ReadRefusal::OpenDay { first, second, .. }) => Some(Reason::Differ(differing(
            first, second,
        ))),
        Err(ReadRefusal::OpenHour { first, second, .. }) => Some(Reason::Hours { first, second }),
        _ => None,
    }
}

// Where each kind that is left was first said, of those that bear on what is judged.
fn words_in(about: About, left: Facts, elements: &[u32], s: &[u8]) -> [Extent; kinds::KINDS]
    ensures { result ≡ words_in about left elements.now s.now }
{
    let mut words = [nowhere(); kinds::KINDS];
    for kind in about.first_kind()..=about.last_kind() {
        if left.said[kind as usize] != 0 {
            words[kind as usize] = first_said(kind, elements, s);
        }
    }
    words
}

// The words that quarrel.
fn quarrel_words(about: About, elements: &[u32], s: &[u8]) -> [Extent; kinds::KINDS]
    ensures { result ≡ quarrel_words about elements.now s.now }
{
    let stepped = read_all(elements, s);
    words_in(about, quarrelling(about, stepped.state.facts), elements, s)
}

#[tactic(auto, unfolding(crate::specs::Reasons::words_for, crate::specs::Reasons::no_words, laws::specs::Lists::range))]
fn words_for(reason: Option<Reason>, elements: &[u32], s: &[u8]) -> [Extent; kinds::KINDS]
    ensures { result ≡ words_for reason elements.now s.now }
{
    match reason {
        Some(Reason::Quarrel(about)) => quarrel_words(about, elements, s),
        _ => [nowhere(); kinds::KINDS],
    }
}

// Why a text that was read by elements has its answer.
#[tactic(auto, unfolding(crate::specs::Reasons::explained))]
pub fn explain(answer: Answer, elements: &[u32], text: &[u8]) -> Explained
    ensures { result ≡ explained (reading_of answer) elements.now text.now }
{
    let reason = reason_of(answer);
    Explained {
        reason,
        words: words_for(reason, elements, text),
    }
}

// The same by the format that the elements are of.
pub fn explain_by_format(answer: Answer, format: &[u8], text: &[u8]) -> Explained
    ensures { result ≡ explained (reading_of answer) (format_elements format.now) text.now }
{
    let mut elements = [0; MOST_ELEMENTS];
    match open(Side::Reader, format, &mut elements) {
        Ok(count) => explain(answer, &elements[..count], text),
        Err(_) => explain(answer, &[], text),
    }
}
