//! The tokens of C text.

use xs_base::{Bytes, Span};
use xs_values::{Base, Suffix};

/// An integer literal: its value, and how it is written (C11 6.4.4.1). Its kind is that of base,
/// suffix and value under a data model.
#[derive(Clone, Copy, Debug, PartialEq, Eq)]
pub struct Literal {
    pub value: u64,
    pub base: Base,
    pub suffix: Suffix,
}

/// What a token is to the grammar.
#[derive(Debug, Drop)]
pub enum TokKind {
    /// A word: a keyword of C or an identifier (C11 6.4.1, 6.4.2). The grammar says which of them
    /// are names.
    Word,
    /// An integer literal.
    Int(Literal),
    /// A character literal, by its byte. As C's `char` the byte is negative above 127.
    Char(u8),
    /// A text in quotes, by the bytes that it stands for.
    Text(Bytes),
    /// A punctuator.
    Punct,
    /// A line that is passed over: `#include` with what follows it, or `#define
    /// PERL_NO_GET_CONTEXT` (perlguts).
    Include,
    /// A `#define` of this name as an integer.
    Define(Bytes, Literal),
}

/// A token: its bytes as they stand in the text, and where the first of them stands.
#[derive(Debug, Drop)]
pub struct Token {
    pub kind: TokKind,
    pub text: Bytes,
    pub span: Span,
}
