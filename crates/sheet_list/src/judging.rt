// Whether what is lent is a list with its table of weeks.
ghost use Rattle.std.specs.Prelude.{◌&&◌, ◌≡◌};
ghost use Rattle.laws.specs.Lists.{every};
ghost use Rattle.sheets.specs.Sheets.{is_packing};
ghost use Rattle.sheet_list.specs.Adding.{held, is_held};
ghost use Rattle.sheet_list.specs.Ascending.{ascending};

use crate::weeks::is_table;
use sheets::is_packing;

// The most words of the list's array.
pub(crate) const MOST_WORDS: usize = 65536;

// How many words the array of the table has.
pub const TABLE_LENGTH: usize = 1024;

// Whether each word is a packing, and none is lower than the one before it. One loop, which ends at the first that is wrong.
fn is_list(words: &[u64]) -> bool
    ensures { result ≡ (every is_packing words.now && ascending words.now) }
{
    let mut low = 0;
    for word in words {
        if *word < low || !is_packing(*word) {
            return false;
        }
        low = *word;
    }
    true
}

// Whether both arrays hold what they should up to their counts.
pub fn is_held(words: &[u64], count: usize, table: &[u64], weeks: usize) -> bool
    ensures { result ≡ is_held (held words.now count table.now weeks) }
{
    words.len() <= MOST_WORDS
        && count <= words.len()
        && table.len() == TABLE_LENGTH
        && weeks <= table.len()
        && is_list(&words[..count])
        && is_table(&words[..count], &table[..weeks])
}
