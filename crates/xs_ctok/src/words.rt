//! The words of the grammar of C, and which words name nothing that a file declares.

ghost use Rattle.std.specs.Prelude.{◌≡◌};
ghost use Rattle.xs_ctok.specs.CWords as spec;

use xs_base::is_among;
use xs_perlapi::is_interface_word;

/// The words of types (C11 6.7.2, perlguts, XSUB.h).
pub const TYPE_WORDS: [&str; 25] = [
    "AV", "HV", "I16", "I32", "I8", "IV", "SSize_t", "STRLEN", "SV", "SVREF", "SysRet", "U16",
    "U32", "U8", "UV", "bool", "char", "int", "long", "short", "signed", "size_t", "ssize_t",
    "unsigned", "void",
];

/// Further words that are no names: those that begin or join statements (C11 6.8) and declarations
/// (6.7), and two macros with a meaning of their own in the grammar (XSUB.h, perlapi).
pub const GRAMMAR_WORDS: [&str; 15] = [
    "INT2PTR", "XS", "break", "case", "continue", "default", "do", "else", "for", "if", "return",
    "struct", "switch", "typedef", "while",
];

/// Words that are passed over: storage classes and qualifiers of C (C11 6.7.1, 6.7.3, 6.7.4), and
/// words of perl.h that only a perl with threads has a use for.
pub const DROPPED_WORDS: [&str; 10] = [
    "STATIC",
    "STMT_END",
    "STMT_START",
    "aTHX",
    "aTHX_",
    "const",
    "inline",
    "pTHX",
    "pTHX_",
    "static",
];

/// Words that are passed over with the `;` after them (perlguts).
pub const DROPPED_STATEMENTS: [&str; 3] = ["dNOOP", "dTHX", "dVAR"];

/// Whether a word names a type, whatever the file declares.
#[tactic(auto, unfolding(crate::specs::CWords::is_type_word))]
pub fn is_type_word(word: &[u8]) -> bool
    ensures { result ≡ spec.is_type_word word.now }
{
    is_among(&TYPE_WORDS, word)
}

/// Whether a word is no name of anything.
#[tactic(auto, unfolding(crate::specs::CWords::is_no_name))]
pub fn is_no_name(word: &[u8]) -> bool
    ensures { result ≡ spec.is_no_name word.now }
{
    is_among(&TYPE_WORDS, word) || is_among(&GRAMMAR_WORDS, word)
}

/// Whether a word is passed over.
#[tactic(auto, unfolding(crate::specs::CWords::is_dropped_word))]
pub fn is_dropped_word(word: &[u8]) -> bool
    ensures { result ≡ spec.is_dropped_word word.now }
{
    is_among(&DROPPED_WORDS, word)
}

/// Whether a word is passed over with the `;` after it.
#[tactic(auto, unfolding(crate::specs::CWords::is_dropped_statement))]
pub fn is_dropped_statement(word: &[u8]) -> bool
    ensures { result ≡ spec.is_dropped_statement word.now }
{
    is_among(&DROPPED_STATEMENTS, word)
}

/// Whether a word is reserved: C, the XS interface or Perl's API has a meaning for it, so that no
/// variable, function, type or `#define` of a file has its name.
pub fn is_reserved(word: &[u8]) -> bool
    ensures { result ≡ spec.is_reserved word.now }
{
    is_no_name(word)
        || is_dropped_word(word)
        || is_dropped_statement(word)
        || is_interface_word(word)
}
