//! Names of packages and of functions in them, and words that are listed.
ghost use Rattle.std.specs.Prelude.{◌≡◌, List, map, true, ℕ};
ghost use Rattle.xs_base.specs.Names as spec;
ghost use Rattle.xs_base.specs.Scanning as scanning;

use crate::Bytes;
use crate::byte_runs::{ByteClass, are_all};
use crate::scanning::{begins_word, is_word_byte};

/// Whether a text is an identifier: word bytes, one at least, of which the first is no digit (C
/// standard).
pub fn is_identifier(text: &[u8]) -> bool
    ensures { result ≡ scanning.is_identifier text.now }
{
    match text {
        [] => false,
        [first, rest @ ..] => begins_word(*first) && are_all(ByteClass::Word, rest),
    }
}

/// Which byte of a qualified name has to come.
#[derive(Clone, Copy, Debug, PartialEq, Eq)]
pub enum NameByte {
    /// The first of an identifier.
    First,
    /// A further one of an identifier, or a colon; or the name ends.
    Further,
    /// The second colon.
    SecondColon,
}

/// Whether a text is a qualified name: identifiers joined by `::` (perlmod).
pub fn is_qualified_name(text: &[u8]) -> bool
    ensures { result ≡ spec.is_qualified_name text.now }
{
    let mut due = NameByte::First;
    for b in text {
        match due {
            NameByte::First if begins_word(*b) => due = NameByte::Further,
            NameByte::Further if is_word_byte(*b) => {}
            NameByte::Further if *b == b':' => due = NameByte::SecondColon,
            NameByte::SecondColon if *b == b':' => due = NameByte::First,
            _ => return false,
        }
    }
    matches!(due, NameByte::Further)
}

/// Whether a word is one of those that are listed.
pub fn is_among(words: &[&str], word: &[u8]) -> bool
    ensures { result ≡ spec.is_among (map (λ w. w.now) words.now) word.now }
{
    for w in words {
        if w.as_bytes() == word {
            return true;
        }
    }
    false
}

/// Whether a word is one of these names.
pub fn is_among_names(names: &[Bytes], word: &[u8]) -> bool
    ensures { result ≡ spec.is_among names.now word.now }
{
    names.iter().any(|name| name.as_slice() == word)
}
