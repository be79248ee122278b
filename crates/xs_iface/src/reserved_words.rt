//! Reserved words.
ghost use Rattle.std.specs.Prelude.{◌≡◌};
ghost use Rattle.std.specs.Str.{bytes_eq};
ghost use Rattle.xs_iface.specs.ReservedWords.{is_free, is_no_xsub_name};

use xs_base::{is_among, is_identifier};
use xs_ctok::is_reserved;

/// Words that name no parameter and no function of an XSUB, beside the reserved ones: the variables
/// of the glue's results (perlxs), and the words of the preprocessor.
const GLUE_WORDS: [&str; 5] = [
    "PERL_NO_GET_CONTEXT",
    "RETVAL",
    "RETVALSV",
    "define",
    "include",
];

/// Whether two texts are the same bytes.
pub fn is_same(a: &[u8], b: &[u8]) -> bool
    ensures { result ≡ bytes_eq a.now b.now }
{
    a == b
}

// Whether a word names no parameter and no function of an XSUB.
#[tactic(auto, unfolding(crate::specs::ReservedWords::glue_words))]
fn is_no_xsub_name(word: &[u8]) -> bool
    ensures { result ≡ is_no_xsub_name word.now }
{
    is_reserved(word) || is_among(&GLUE_WORDS, word)
}

/// Whether a word may name a parameter or a function.
pub fn is_free(word: &[u8]) -> bool
    ensures { result ≡ is_free word.now }
{
    is_identifier(word) && !is_no_xsub_name(word)
}
