//! Punctuators.
ghost use Rattle.std.specs.Prelude.{◌≡◌, ◌<◌, take, length};
ghost use Rattle.xs_ctok.specs.Punctuators as spec;
ghost use Rattle.xs_ctok.specs.FrontSizes.{Fits};

use crate::front::Front;
use crate::token::TokKind;
use xs_base::fault_codes::STRAY_BYTE;
use xs_base::is_among;

/// The punctuators of three bytes (C11 6.4.6).
pub const TRIPLES: [&str; 3] = ["...", "<<=", ">>="];

/// Those of two bytes.
pub const DOUBLES: [&str; 19] = [
    "!=", "%=", "&&", "&=", "*=", "++", "+=", "--", "-=", "->", "/=", "<<", "<=", "==", ">=", ">>",
    "^=", "|=", "||",
];

/// Those of one byte, without that of directives.
pub const SINGLES: [&str; 24] = [
    "!", "%", "&", "(", ")", "*", "+", ",", "-", ".", "/", ":", ";", "<", "=", ">", "?", "[", "]",
    "^", "{", "|", "}", "~",
];

// The first bytes of a text, so many or all.
fn first_bytes(n: usize, text: &[u8]) -> &[u8]
    ensures { result.now ≡ take n text.now }
{
    if n < text.len() {
        text.split_at(n).0
    } else {
        text
    }
}

// How many bytes the longest punctuator in front has, and 0 where there is none.
#[tactic(auto, unfolding(crate::specs::Punctuators::punctuator_len))]
fn punctuator_len(text: &[u8]) -> usize
    ensures { result ≡ spec.punctuator_len text.now }
{
    if is_among(&TRIPLES, first_bytes(3, text)) {
        3
    } else if is_among(&DOUBLES, first_bytes(2, text)) {
        2
    } else if is_among(&SINGLES, first_bytes(1, text)) {
        1
    } else {
        0
    }
}

/// The punctuator in front of a text.
#[tactic(auto, using(crate::proofs::PunctuatorSizes::punctuator_size))]
pub fn punctuator_front(text: &[u8]) -> Front
    ensures value { result ≡ spec.punctuator_front text.now }
    ensures within { Fits result (length text.now) }
{
    let len = punctuator_len(text);
    if len == 0 {
        Front::Refused(STRAY_BYTE)
    } else {
        Front::Piece(TokKind::Punct, len)
    }
}
