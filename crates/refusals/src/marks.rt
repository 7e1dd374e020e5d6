// The line of marks below a text.
ghost use Rattle.std.specs.Prelude.{◌≡◌, [], ◌∷◌, ℕ, ◌+◌, ◌<◌, ◌^◌, get_or};
ghost use Rattle.lists.specs.Putting.{Writes};
ghost use Rattle.matching.specs.Extents.{extent, nowhere};
ghost use Rattle.strptime.specs.Answers.{refusal_of};
ghost use Rattle.refusals.specs.Marks.{marked, covers, is_marked, last_mark, mark_at, marks_to, marks_line};

use crate::refused::Refused;
use lists::Writer;
use matching::Extent;
use strptime::ReadRefusal;

fn covers(extent: Extent, offset: usize) -> bool
    ensures { result ≡ covers extent offset }
{
    extent.from <= offset && offset < extent.next
}

// Whether an offset lies in one of the extents.
fn is_marked(extents: &[Extent; kinds::KINDS], offset: usize) -> bool
    ensures { result ≡ is_marked extents.now offset }
{
    extents.iter().any(|extent| covers(*extent, offset))
}

// Where the last of the extents ends.
fn last_mark(extents: &[Extent; kinds::KINDS]) -> usize
    ensures { result ≡ last_mark extents.now }
{
    let mut last = 0usize;
    for extent in extents {
        last = last.max(extent.next);
    }
    last
}

// The byte below an offset.
fn mark_at(extents: &[Extent; kinds::KINDS], offset: usize) -> u8
    ensures { result ≡ mark_at extents.now offset }
{
    if is_marked(extents, offset) {
        b'^'
    } else {
        b' '
    }
}

fn put_marks(w: &mut Writer, extents: &[Extent; kinds::KINDS], last: usize)
    ensures { Writes (marks_to extents.now last) w.old w.new }
{
    for i in 0..last {
        w.byte(mark_at(extents, i));
    }
}

fn put_marks_line(w: &mut Writer, extents: &[Extent; kinds::KINDS])
    ensures { Writes (marks_line extents.now) w.old w.new }
{
    let last = last_mark(extents);
    if last == 0 {
        return;
    }
    put_marks(w, extents, last);
    w.byte(b'\n');
}

// One extent alone: the byte at an offset.
fn only(offset: usize) -> [Extent; kinds::KINDS]
    requires { offset < 2 ^ 32 }
    ensures { (k : ℕ) → get_or result k nowhere ≡ get_or (extent offset (offset + 1) ∷ []) k nowhere }
{
    let mut extents = [Extent { from: 0, next: 0 }; kinds::KINDS];
    extents[0] = Extent {
        from: offset,
        next: offset + 1,
    };
    extents
}

// The line of marks for a text: below the place of its refusal, or below the words that its reason names.
pub(crate) fn put_marked(w: &mut Writer, refused: &Refused)
    ensures { Writes (marks_line (marked (refusal_of refused.now.refusal) refused.now.words)) w.old w.new }
{
    match refused.refusal {
        ReadRefusal::NoMatch { at } => put_marks_line(w, &only(at)),
        ReadRefusal::OutOfRange { at } => put_marks_line(w, &only(at)),
        ReadRefusal::Contradiction { at } => put_marks_line(w, &only(at)),
        _ => put_marks_line(w, &refused.words),
    }
}
