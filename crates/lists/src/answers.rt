// How the texts of a list are answered by its format, which is opened once.
ghost use Rattle.std.specs.Prelude.{◌≡◌, length};
ghost use Rattle.strptime.specs.Answers.{reading_of};
ghost use Rattle.lists.specs.Answers.{opened_reading, opened_elements};

use format::{LONGEST, Opened, Unopened};
use judge::Engine;
use strptime::{Answer, ReadRefusal, read_elements};

// The answer to a text, by the engine that skips.
pub fn answer_to(opened: Opened, elements: &[u32], text: &[u8]) -> Answer
    ensures { reading_of result ≡ opened_reading opened elements.now text.now }
{
    match opened {
        Ok(_) => {
            let count = elements_of(opened, elements);
            read_elements(Engine::Skipping, &elements[..count], text)
        }
        Err(Unopened::TooLong) => Err(ReadRefusal::FormatTooLong),
        Err(Unopened::Bad { at }) => {
            if LONGEST < text.len() {
                return Err(ReadRefusal::TextTooLong);
            }
            Err(ReadRefusal::BadConversion {
                at: at.min(LONGEST),
            })
        }
    }
}

// How many of the entries that opening a format stored are its elements.
pub fn elements_of(opened: Opened, elements: &[u32]) -> usize
    ensures { result ≡ length (opened_elements opened elements.now) }
{
    match opened {
        Ok(count) => count.min(elements.len()),
        Err(_) => 0,
    }
}
