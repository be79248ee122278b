//! Words, each with what it stands for.
ghost use Rattle.indexmap.specs.IndexMap.{index_map_len, spare};
ghost use Rattle.std.specs.Option.{option_copied};
ghost use Rattle.std.specs.Prelude.{◌≡◌, ◌≤◌, OnErr, OnOk};
ghost use Rattle.xs_typemap.specs.TypemapEntries.{value_of, with_word, with_words, words_in};

use indexmap::IndexMap;
use std::alloc::Global;
use xs_base::Memory;

/// What a word stands for.
pub fn value_of<'a, V>(words: &'a IndexMap<Vec<u8>, V>, word: &[u8]) -> Option<&'a V>
    ensures { option_copied result ≡ value_of (words_in words.now) word.now }
{
    words.get(word)
}

/// Lets a word stand for a value, also where it stood for another. Where memory is not found
/// nothing changes.
pub fn set<V: Drop>(
    alloc: Global,
    words: &mut IndexMap<Vec<u8>, V>,
    word: &[u8],
    value: V,
) -> Result<(), Memory>
    ensures ok { OnOk result (words_in words.new ≡ with_word (words_in words.old) word.now value) }
    ensures err { OnErr result (words_in words.new ≡ words_in words.old) }
{
    let key = Vec::from_slice(alloc, word)?;
    words.insert(key, value)?;
    Ok(())
}

/// Lets each of further words stand for its value, one after the other, where there is room.
pub fn set_all<V: Drop>(words: &mut IndexMap<Vec<u8>, V>, more: IndexMap<Vec<u8>, V>)
    requires { index_map_len more ≤ spare words.old }
    ensures { words_in words.new ≡ with_words (words_in words.old) (words_in more) }
{
    let mut left = more;
    words.append(&mut left).unwrap();
}
