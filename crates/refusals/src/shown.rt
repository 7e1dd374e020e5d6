// A text as it is shown.
ghost use Rattle.std.specs.Prelude.{◌≡◌};
ghost use Rattle.lists.specs.Putting.{Writes};
ghost use Rattle.refusals.specs.Shown.{shown_byte, shown};

use lists::Writer;
use text::is_space;

// White space as a blank, and what cannot be shown as ?.
fn shown_byte(b: u8) -> u8
    ensures { result ≡ shown_byte b }
{
    if is_space(b) {
        return b' ';
    }
    if b.is_ascii_graphic() { b } else { b'?' }
}

pub(crate) fn put_shown(w: &mut Writer, text: &[u8])
    ensures { Writes (shown text.now) w.old w.new }
{
    for b in text {
        w.byte(shown_byte(*b));
    }
}
