// The words that quarrel, as a sentence names them.
ghost use Rattle.std.specs.Prelude.{◌≡◌, ◌<◌, length};
ghost use Rattle.kinds.specs.Kinds.{kinds};
ghost use Rattle.lists.specs.Putting.{Writes, each};
ghost use Rattle.refusals.specs.Words.{label, label_before, phrase, begins, begins_from, words_from, separator, phrase_at, word_list};

use crate::refused::Refused;
use crate::shown::put_shown;
use lists::Writer;
use matching::Extent;
use text::is_digit;

// What stands before a number of each kind: nothing before a year and a day.
fn put_label(w: &mut Writer, kind: usize)
    ensures { Writes (label kind) w.old w.new }
{
    match kind {
        2 => w.bytes(b"century "),
        3 => w.bytes(b"year in century "),
        4 => w.bytes(b"month "),
        6 => w.bytes(b"day of year "),
        7 => w.bytes(b"weekday "),
        8 => w.bytes(b"Sunday week "),
        9 => w.bytes(b"Monday week "),
        10 => w.bytes(b"ISO year "),
        11 => w.bytes(b"ISO year in century "),
        12 => w.bytes(b"ISO week "),
        13 => w.bytes(b"hour "),
        14 => w.bytes(b"hour of twelve "),
        _ => {}
    }
}

// It stands where the words begin with a digit.
fn put_label_before(w: &mut Writer, kind: usize, word: &[u8])
    ensures { Writes (label_before kind word.now) w.old w.new }
{
    if word.len() > 0 && is_digit(word[0]) {
        put_label(w, kind);
    }
}

fn put_phrase(w: &mut Writer, kind: usize, word: &[u8])
    ensures { Writes (phrase kind word.now) w.old w.new }
{
    put_label_before(w, kind, word);
    put_shown(w, word);
}

// Whether the words of a kind begin at an offset.
fn begins(words: &[Extent; kinds::KINDS], offset: usize, kind: usize) -> bool
    requires { kind < kinds }
    ensures { result ≡ begins words.now offset kind }
{
    let extent = words[kind];
    extent.from == offset && extent.from < extent.next
}

// Whether words begin from an offset on.
fn begins_from(extent: Extent, offset: usize) -> bool
    ensures { result ≡ begins_from extent offset }
{
    offset <= extent.from && extent.from < extent.next
}

// How many words begin from an offset on.
fn words_from(words: &[Extent; kinds::KINDS], offset: usize) -> usize
    ensures { result ≡ words_from words.now offset }
{
    words
        .iter()
        .filter(|extent| begins_from(**extent, offset))
        .count()
}

// What stands after words, by how many more there are.
fn put_separator(w: &mut Writer, more: usize)
    ensures { Writes (separator more) w.old w.new }
{
    match more {
        0 => {}
        1 => w.bytes(b" and "),
        _ => w.bytes(b", "),
    }
}

// The words of a kind, if they begin at an offset.
fn put_phrase_at(w: &mut Writer, refused: &Refused, offset: usize, kind: usize)
    requires { (kind < kinds) × (offset < length refused.now.text.now) }
    ensures { Writes (phrase_at refused.now.words refused.now.text.now offset kind) w.old w.new }
{
    let words = &refused.words;
    if !begins(words, offset, kind) {
        return;
    }
    let extent = words[kind];
    put_phrase(w, kind, &refused.text[extent.from..extent.next]);
    put_separator(w, words_from(words, offset + 1));
}

// The words that begin at an offset.
fn put_words_at(w: &mut Writer, refused: &Refused, offset: usize)
    requires { offset < length refused.now.text.now }
    ensures { Writes (each (phrase_at refused.now.words refused.now.text.now offset) kinds) w.old w.new }
{
    for kind in 0..kinds::KINDS {
        put_phrase_at(w, refused, offset, kind);
    }
}

// All words, in the order of the text.
pub(crate) fn put_word_list(w: &mut Writer, refused: &Refused)
    ensures { Writes (word_list refused.now.words refused.now.text.now) w.old w.new }
{
    for offset in 0..refused.text.len() {
        put_words_at(w, refused, offset);
    }
}
