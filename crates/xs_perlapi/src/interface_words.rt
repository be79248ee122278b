//! The words of the XS interface and of perl.h that are no row of Perl's API.
ghost use Rattle.std.specs.Prelude.{◌≡◌, map};
ghost use Rattle.xs_perlapi.specs.Table as spec;

use crate::row::Stands;
use crate::table::is_api_word;

/// What a word means where it stands alone.
#[derive(Clone, Copy, Debug, PartialEq, Eq)]
pub enum Meaning {
    /// `items`: how many arguments there are.
    ItemCount,
    /// `ix`: the number of the name by which the function was called.
    AliasIndex,
    /// `NULL`
    Null,
    /// A number of type `I32`: a flag of a callback, or the type of a thing.
    Constant(u32),
    /// Nothing: the word is a part of a form.
    Part,
}

/// The words that are no row, with what each means alone and where it may stand (perlxs; perlcall;
/// perlapi, "call_sv" and "SvTYPE").
#[rattlefmt::skip]
pub static INTERFACE_WORDS: [(&str, Meaning, Stands); 17] = [
    // Variables and declarations of an XSUB.
    ("items", Meaning::ItemCount, Stands::InXsFunctions),
    ("ix", Meaning::AliasIndex, Stands::AfterIndex),
    ("cv", Meaning::Part, Stands::InXsFunctions),
    ("dXSI32", Meaning::Part, Stands::AtEntry),
    ("dSP", Meaning::Part, Stands::Anywhere),
    ("XSANY", Meaning::Part, Stands::InBootFunction),
    ("any_i32", Meaning::Part, Stands::InBootFunction),
    ("PERL_UNUSED_VAR", Meaning::Part, Stands::Anywhere),

    // Constants.
    ("NULL", Meaning::Null, Stands::Anywhere),
    ("GV_ADD", Meaning::Part, Stands::Anywhere),
    ("G_SCALAR", Meaning::Constant(0), Stands::Anywhere),
    ("G_LIST", Meaning::Constant(1), Stands::Anywhere),
    ("G_ARRAY", Meaning::Constant(1), Stands::Anywhere),
    ("G_DISCARD", Meaning::Constant(2), Stands::Anywhere),
    ("G_EVAL", Meaning::Constant(4), Stands::Anywhere),
    ("SVt_PVAV", Meaning::Constant(1), Stands::Anywhere),
    ("SVt_PVHV", Meaning::Constant(2), Stands::Anywhere),
];

/// What a word means alone, and where it may stand.
#[derive(Clone, Copy, Debug, PartialEq, Eq)]
pub struct InterfaceWord {
    pub meaning: Meaning,
    pub stands: Stands,
}

// The first of these words that is a name.
fn first_meant(words: &[(&str, Meaning, Stands)], name: &[u8]) -> Option<InterfaceWord>
    ensures { result ≡ spec.first_meant (map spec.meant_view words.now) name.now }
{
    for word in words {
        if word.0.as_bytes() == name {
            return Some(InterfaceWord {
                meaning: word.1,
                stands: word.2,
            });
        }
    }
    None
}

/// What a word means that is no row.
#[tactic(auto, unfolding(crate::specs::Table::meaning_of))]
pub fn meaning_of(name: &[u8]) -> Option<InterfaceWord>
    ensures { result ≡ spec.meaning_of name.now }
{
    first_meant(&INTERFACE_WORDS, name)
}

/// Whether the XS interface or Perl's API gives a meaning to a word.
#[tactic(auto, unfolding(crate::specs::Table::is_interface_word, crate::specs::Table::meaning_of))]
pub fn is_interface_word(word: &[u8]) -> bool
    ensures { result ≡ spec.is_interface_word word.now }
{
    is_api_word(word) || meaning_of(word).is_some()
}
