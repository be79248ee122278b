//! The terms of a sum.
ghost use Rattle.std.specs.List.{list_all, position};
ghost use Rattle.std.specs.Prelude.{◌≡◌, ◌≤◌, IfOk, None, Some, length, map};
ghost use Rattle.std.specs.Str.{bytes_eq};
ghost use Rattle.xs_iface.specs.Paragraph.{is_literal, is_term, literal_of, term_of};

use crate::xsub::Term;
use std::alloc::Global;
use xs_base::{
    ByteClass, Bytes, Items, Memory, digits_value, is_among_names, is_decimal, starts_with_class,
};

/// The greatest `int`.
pub const INT_MAX: u64 = 2_147_483_647;

/// How many terms a sum may have.
pub const MOST_TERMS: usize = 32;

// A decimal literal without a leading zero, at most the greatest `int`.
fn read_literal(word: &[u8]) -> Option<u32>
    ensures { result ≡ literal_of word.now }
{
    if !is_literal(word) {
        return None;
    }
    match digits_value(word) {
        Some(value) if value <= INT_MAX => Some(value as u32),
        _ => None,
    }
}

// Whether a word is digits, one at least, without a zero in front of others.
fn is_literal(word: &[u8]) -> bool
    ensures { result ≡ is_literal word.now }
{
    starts_with_class(ByteClass::Digit, word) && is_decimal(word)
}

// Whether a word is a term: the name of a parameter, or a literal.
fn is_term(params: &[Bytes], word: &[u8]) -> bool
    ensures { result ≡ is_term params.now word.now }
{
    is_among_names(params, word) || read_literal(word).is_some()
}

/// Whether each word is a term.
pub fn are_terms(params: &[Bytes], words: &[Bytes]) -> bool
    ensures { result ≡ list_all (is_term params.now) words.now }
{
    words.iter().all(|word| is_term(params, word.as_slice()))
}

// The first place at which a name stands, counted from 0.
fn place_of(params: &[Bytes], word: &[u8]) -> Option<usize>
    ensures { result ≡ position (λ name. bytes_eq name word.now) params.now }
{
    params.iter().position(|name| name.as_slice() == word)
}

// What a term says.
#[tactic(auto, using(crate::proofs::SmallIndexes::place_is_small))]
fn read_term(params: &[Bytes], word: &[u8]) -> Term
    requires { length params.now ≤ 64 }
    ensures { result ≡ term_of params.now word.now }
{
    match place_of(params, word) {
        Some(place) => Term::Parameter(place as u32),
        None => Term::Literal(read_literal(word).unwrap_or(0)),
    }
}

/// What the terms say.
pub fn read_terms(alloc: Global, params: &[Bytes], words: &[Bytes]) -> Result<Items<Term>, Memory>
    requires { length params.now ≤ 64 }
    ensures { IfOk result (λ terms. terms ≡ map (term_of params.now) words.now) }
{
    let mut terms = Items::new(alloc);
    for word in words {
        terms.push(read_term(params, word.as_slice()))?;
    }
    Ok(terms)
}
