//! What stands at the front of the rest of a line.
ghost use Rattle.std.specs.Prelude.{◌≡◌, ◌+◌, ◌∷◌, ◌<◌, IfOk, length, true};
ghost use Rattle.xs_base.specs.Readers.{head_is};
ghost use Rattle.xs_base.specs.Scanning.{begins_word, is_ascii_digit};
ghost use Rattle.xs_ctok.specs.Fronts as spec;
ghost use Rattle.xs_ctok.specs.FrontSizes.{Fits};

use crate::directives::directive_front;
use crate::numerals::{NumberFront, number_front};
use crate::punctuators::punctuator_front;
use crate::quoted::{char_front, text_front};
use crate::token::TokKind;
use std::alloc::Global;
use xs_base::fault_codes::{FLOATING_POINT_IN_C, STRAY_BYTE};
use xs_base::{
    ByteClass, Memory, begins_word, cut_run, is_ascii_digit, is_blank, starts_with,
    starts_with_class,
};

/// What stands at the front of the rest of a line.
#[derive(Debug, Drop)]
pub enum Front {
    /// A byte between tokens.
    Blank,
    /// A comment that ends with the line.
    LineComment,
    /// The `/*` of a comment.
    Comment,
    /// A token of this many bytes.
    Piece(TokKind, usize),
    /// No token that is taken begins here: the code of the fault.
    Refused(u16),
}

#[tactic(auto, using(crate::proofs::RunSizes::word_size))]
fn word_front(text: &[u8]) -> Front
    requires { head_is begins_word text.now ≡ true }
    ensures value { result ≡ spec.word_front text.now }
    ensures within { Fits result (length text.now) }
{
    Front::Piece(TokKind::Word, cut_run(ByteClass::Word, text).0.len())
}

fn integer_front(text: &[u8]) -> Front
    requires { head_is is_ascii_digit text.now ≡ true }
    ensures value { result ≡ spec.integer_front text.now }
    ensures within { Fits result (length text.now) }
{
    match number_front(text) {
        NumberFront::Integer(literal, len) => Front::Piece(TokKind::Int(literal), len),
        NumberFront::Refused(code) => Front::Refused(code),
    }
}

// A `.` with these bytes after it.
fn dot_front(text: &[u8], more: &[u8]) -> Front
    ensures value { result ≡ spec.dot_front text.now more.now }
    ensures within { Fits result (length text.now) }
{
    if starts_with_class(ByteClass::Digit, more) {
        Front::Refused(FLOATING_POINT_IN_C)
    } else {
        punctuator_front(text)
    }
}

// A `/` with these bytes after it.
fn slash_front(text: &[u8], more: &[u8]) -> Front
    requires { length text.now ≡ length more.now + 1 }
    ensures value { result ≡ spec.slash_front text.now more.now }
    ensures within { Fits result (length text.now) }
{
    match more {
        [b'/', ..] => Front::LineComment,
        [b'*', ..] => Front::Comment,
        _ => punctuator_front(text),
    }
}

// A `#` with these bytes after it. A directive stands alone on its line.
fn hash_front(alloc: Global, fresh: bool, text: &[u8], more: &[u8]) -> Result<Front, Memory>
    requires { length more.now < length text.now }
    ensures value { IfOk result (λ front. front ≡ spec.hash_front fresh text.now more.now) }
    ensures within { IfOk result (λ front. Fits front (length text.now)) }
{
    if fresh {
        directive_front(alloc, text, more)
    } else {
        Ok(Front::Refused(STRAY_BYTE))
    }
}

// The token that begins with this byte.
#[tactic(auto, unfolding(crate::specs::Fronts::token_front))]
fn token_front(alloc: Global, first: u8, text: &[u8], more: &[u8]) -> Result<Front, Memory>
    requires { text.now ≡ first ∷ more.now }
    ensures value { IfOk result (λ front. front ≡ spec.token_front first text.now more.now) }
    ensures within { IfOk result (λ front. Fits front (length text.now)) }
{
    if begins_word(first) {
        Ok(word_front(text))
    } else if is_ascii_digit(first) {
        Ok(integer_front(text))
    } else if first == b'.' {
        Ok(dot_front(text, more))
    } else if first == b'"' {
        text_front(alloc, more)
    } else if first == b'\'' {
        Ok(char_front(more))
    } else {
        Ok(punctuator_front(text))
    }
}

/// What stands at the front of the rest of a line, of which only blanks stood so far or not.
#[tactic(auto, unfolding(crate::specs::Fronts::front_of))]
pub fn front_at(alloc: Global, fresh: bool, text: &[u8]) -> Result<Front, Memory>
    requires { 0 < length text.now }
    ensures value { IfOk result (λ front. front ≡ spec.front_of fresh text.now) }
    ensures within { IfOk result (λ front. Fits front (length text.now)) }
{
    let [first, more @ ..] = text else {
        return Ok(Front::Blank);
    };
    if is_blank(*first) {
        Ok(Front::Blank)
    } else if *first == b'/' {
        Ok(slash_front(text, more))
    } else if *first == b'#' {
        hash_front(alloc, fresh, text, more)
    } else {
        token_front(alloc, *first, text, more)
    }
}
