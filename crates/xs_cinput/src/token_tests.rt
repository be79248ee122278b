//! What a token is to the grammar.
ghost use Rattle.std.specs.Prelude.{◌≡◌, map};
ghost use Rattle.xs_cinput.specs.Operators as operators;
ghost use Rattle.xs_cinput.specs.TokenInput as spec;

use crate::operators::listed;
use crate::type_names::TypeNames;
use xs_ctok::{TokKind, Token, is_dropped_statement, is_dropped_word, is_no_name, is_type_word};

/// Whether it is a word.
pub fn is_word_kind(kind: &TokKind) -> bool
    ensures { result ≡ spec.is_word_kind kind.now }
{
    matches!(kind, TokKind::Word)
}

/// Whether it is a punctuator.
pub fn is_punct_kind(kind: &TokKind) -> bool
    ensures { result ≡ spec.is_punct_kind kind.now }
{
    matches!(kind, TokKind::Punct)
}

/// Whether it is a line that is passed over or defines a name.
pub fn is_directive_kind(kind: &TokKind) -> bool
    ensures { result ≡ spec.is_directive_kind kind.now }
{
    match kind {
        TokKind::Include | TokKind::Define(_, _) => true,
        _ => false,
    }
}

/// Whether it is this punctuator.
pub fn is_sign(text: &[u8], t: &Token) -> bool
    ensures { result ≡ spec.is_sign text.now t.now }
{
    is_punct_kind(&t.kind) && t.text.as_slice() == text
}

/// Whether it is this word.
pub fn is_word(text: &[u8], t: &Token) -> bool
    ensures { result ≡ spec.is_word text.now t.now }
{
    is_word_kind(&t.kind) && t.text.as_slice() == text
}

/// Whether it may be a name of something.
pub fn is_name(t: &Token) -> bool
    ensures { result ≡ spec.is_name t.now }
{
    is_word_kind(&t.kind) && !is_no_name(t.text.as_slice())
}

/// Whether it begins a type, where the file has declared these.
pub fn is_type(types: &TypeNames, t: &Token) -> bool
    ensures { result ≡ spec.is_type types.now t.now }
{
    is_word_kind(&t.kind) && (is_type_word(t.text.as_slice()) || types.has(t.text.as_slice()))
}

/// Whether it may be the name of a variable, a parameter or what is called.
pub fn is_variable(types: &TypeNames, t: &Token) -> bool
    ensures { result ≡ spec.is_variable types.now t.now }
{
    is_name(t) && !types.has(t.text.as_slice())
}

/// Whether it is dropped, or passed over where a whole file is read.
pub fn is_passed(whole: bool, t: &Token) -> bool
    ensures { result ≡ spec.is_passed whole t.now }
{
    (is_word_kind(&t.kind) && is_dropped_word(t.text.as_slice()))
        || (whole && is_directive_kind(&t.kind))
}

/// Whether it is dropped with the `;` after it.
pub fn is_passed_pair(t: &Token, rest: &[Token]) -> bool
    ensures { result ≡ spec.is_passed_pair t.now rest.now }
{
    if is_word_kind(&t.kind) && is_dropped_statement(t.text.as_slice()) {
        match rest {
            [] => false,
            [second, ..] => is_sign(b";", second),
        }
    } else {
        false
    }
}

/// What it stands for in a table of signs.
pub fn sign_in<V: Copy>(table: &[(&str, V)], t: &Token) -> Option<V>
    ensures { result ≡ operators.sign_in (map (λ row. (row.0.now, row.1)) table.now) t.now }
{
    if is_punct_kind(&t.kind) {
        listed(table, t.text.as_slice())
    } else {
        None
    }
}
