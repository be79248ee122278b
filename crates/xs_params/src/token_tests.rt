//! What a token is to a parameter list.
ghost use Rattle.std.specs.Prelude.{◌≡◌};
ghost use Rattle.xs_params.specs.ListTokens as spec;

use crate::opens::Bracket;
use crate::param::Dir;
use xs_ctok::{TokKind, Token};

fn is_word_kind(kind: &TokKind) -> bool
    ensures { result ≡ spec.is_word_kind kind.now }
{
    matches!(kind, TokKind::Word)
}

fn is_punct_kind(kind: &TokKind) -> bool
    ensures { result ≡ spec.is_punct_kind kind.now }
{
    matches!(kind, TokKind::Punct)
}

fn is_directive_kind(kind: &TokKind) -> bool
    ensures { result ≡ spec.is_directive_kind kind.now }
{
    match kind {
        TokKind::Include | TokKind::Define(_, _) => true,
        _ => false,
    }
}

/// Whether it is a word.
pub fn is_word(t: &Token) -> bool
    ensures { result ≡ spec.is_word t.now }
{
    is_word_kind(&t.kind)
}

/// Whether it is this punctuator.
pub fn is_sign(text: &[u8], t: &Token) -> bool
    ensures { result ≡ spec.is_sign text.now t.now }
{
    is_punct_kind(&t.kind) && t.text.as_slice() == text
}

/// Whether it is a line that begins with `#`.
pub fn is_directive(t: &Token) -> bool
    ensures { result ≡ spec.is_directive t.now }
{
    is_directive_kind(&t.kind)
}

/// Whether it is `NO_INIT`.
pub fn is_no_init(t: &Token) -> bool
    ensures { result ≡ spec.is_no_init t.now }
{
    is_word_kind(&t.kind) && is_same(t.text.as_slice(), b"NO_INIT")
}

/// Whether two texts are the same.
pub fn is_same(a: &[u8], b: &[u8]) -> bool
    ensures { result ≡ spec.is_same a.now b.now }
{
    a == b
}

/// The direction that a word says.
#[tactic(auto, unfolding(crate::specs::ListTokens::direction_of))]
pub fn direction_of(word: &[u8]) -> Option<Dir>
    ensures { result ≡ spec.direction_of word.now }
{
    if is_same(word, b"IN") {
        Some(Dir::In)
    } else if is_same(word, b"OUT") {
        Some(Dir::Out)
    } else if is_same(word, b"IN_OUT") {
        Some(Dir::InOut)
    } else if is_same(word, b"OUTLIST") {
        Some(Dir::OutList)
    } else if is_same(word, b"IN_OUTLIST") {
        Some(Dir::InOutList)
    } else {
        None
    }
}

/// The bracket that it opens.
#[tactic(auto, unfolding(crate::specs::ListTokens::opened_by))]
pub fn opened_by(t: &Token) -> Option<Bracket>
    ensures { result ≡ spec.opened_by t.now }
{
    if is_sign(b"(", t) {
        Some(Bracket::Round)
    } else if is_sign(b"[", t) {
        Some(Bracket::Square)
    } else if is_sign(b"{", t) {
        Some(Bracket::Curly)
    } else {
        None
    }
}

/// The bracket that it closes.
#[tactic(auto, unfolding(crate::specs::ListTokens::closed_by))]
pub fn closed_by(t: &Token) -> Option<Bracket>
    ensures { result ≡ spec.closed_by t.now }
{
    if is_sign(b")", t) {
        Some(Bracket::Round)
    } else if is_sign(b"]", t) {
        Some(Bracket::Square)
    } else if is_sign(b"}", t) {
        Some(Bracket::Curly)
    } else {
        None
    }
}
