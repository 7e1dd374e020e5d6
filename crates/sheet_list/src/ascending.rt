// Words in ascending order.
ghost use Rattle.std.specs.Prelude.{true, ◌≡◌, ◌≤◌, ◌<◌, length, take};
ghost use Rattle.sheet_list.specs.Adding.{over};
ghost use Rattle.sheet_list.specs.Ascending.{ascending, inserted, below};
ghost use Rattle.sheet_list.specs.Private.{put_at};

// How many words at the front are lower than `word`.
pub(crate) fn rank(words: &[u64], word: u64) -> usize
    requires { ascending words.now ≡ true }
    ensures { result ≡ below word words.now }
{
    words.partition_point(|held| *held < word)
}

// Puts a word at a place of the first `count` words: those from there on are moved up by one.
pub(crate) fn put_at(words: &mut [u64], at: usize, count: usize, word: u64)
    requires { (at ≤ count) × (count < length words.old) }
    ensures { words.new ≡ over (put_at at word (take count words.old)) words.old }
{
    // The last word goes alone where two that are stored then lie in one aligned pair: without this a list takes a fifth longer.
    let from = if count % 2 == 0 && at < count {
        count - 1
    } else {
        count
    };
    words.copy_within(from..count, from + 1);
    words.copy_within(at..from, at + 1);
    words[at] = word;
}

// Puts a word where it belongs among the first `count`.
pub(crate) fn insert(words: &mut [u64], count: usize, word: u64)
    requires count_in_bounds { count < length words.old }
    requires words_value { ascending (take count words.old) ≡ true }
    ensures { words.new ≡ over (inserted word (take count words.old)) words.old }
{
    let at = rank(&words[..count], word);
    put_at(words, at, count, word);
}
