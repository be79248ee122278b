//! What the lines of a typemap are, each by its own text.
ghost use Rattle.std.specs.List.{suffix_len};
ghost use Rattle.std.specs.Prelude.{◌≡◌, ◌+◌, ◌≤◌, IfOk, length};
ghost use Rattle.xs_base.specs.Scanning.{is_blank};
ghost use Rattle.xs_typemap.specs.TypemapLines as spec;

use crate::tidying::{is_type, tidied};
use std::alloc::Global;
use xs_base::{Bytes, Memory, is_blank, is_blank_line, is_identifier, starts_with};

/// The heading over types and their kinds.
pub const TYPEMAP: &str = "TYPEMAP";

/// The heading over the code that reads a value from a scalar.
pub const INPUT: &str = "INPUT";

/// The heading over the code that writes a value to a scalar.
pub const OUTPUT: &str = "OUTPUT";

/// The part of a typemap that a heading begins.
#[derive(Clone, Copy, Debug, PartialEq, Eq)]
pub enum Section {
    Types,
    Input,
    Output,
}

/// A type, tidied, and the name of its kind.
#[derive(Debug, Drop)]
pub struct TypeEntry {
    pub ctype: Bytes,
    pub kind: Bytes,
}

/// Whether a line is passed over: it is empty, or a comment.
pub fn is_passed_over(text: &[u8]) -> bool
    ensures { result ≡ spec.is_passed_over text.now }
{
    is_blank_line(text) || starts_with(b"#", text)
}

// Where the blanks at the end of a text begin.
fn end_of_text(text: &[u8]) -> usize
    ensures blanks { result + suffix_len is_blank text.now ≡ length text.now }
    ensures within { result ≤ length text.now }
{
    let mut end = text.len();
    while end > 0 && is_blank(text[end - 1]) {
        end -= 1;
    }
    end
}

// Where the word at the end of a text begins.
fn start_of_last_word(text: &[u8]) -> usize
    ensures word { result + suffix_len spec.is_no_blank text.now ≡ length text.now }
    ensures within { result ≤ length text.now }
{
    let mut start = text.len();
    while start > 0 && !is_blank(text[start - 1]) {
        start -= 1;
    }
    start
}

/// A line without the blanks at its end.
pub fn without_end_blanks(text: &[u8]) -> &[u8]
    ensures { result.now ≡ spec.without_end_blanks text.now }
{
    &text[..end_of_text(text)]
}

/// The heading that a line is.
pub fn heading_of(text: &[u8]) -> Option<Section>
    ensures { result ≡ spec.heading_of text.now }
{
    let word = without_end_blanks(text);
    if word == TYPEMAP.as_bytes() {
        Some(Section::Types)
    } else if word == INPUT.as_bytes() {
        Some(Section::Input)
    } else if word == OUTPUT.as_bytes() {
        Some(Section::Output)
    } else {
        None
    }
}

// What stands before the last word of a line, and the word.
fn cut_last_word(line: &[u8]) -> (&[u8], &[u8])
    ensures before { result.0.now ≡ spec.before_last_word line.now }
    ensures word { result.1.now ≡ spec.last_word line.now }
{
    line.split_at(start_of_last_word(line))
}

/// The type and the kind that a line says, if it says them: the kind is the last word of the line.
#[tactic(auto, unfolding(crate::specs::TypemapLines::entry_of))]
pub fn entry_of(alloc: Global, text: &[u8]) -> Result<Option<TypeEntry>, Memory>
    ensures { IfOk result (λ entry. entry ≡ spec.entry_of text.now) }
{
    let (before, kind) = cut_last_word(without_end_blanks(text));
    let ctype = tidied(alloc, before)?;
    if is_type(ctype.as_slice()) && is_identifier(kind) {
        let kind = Bytes::from_slice(alloc, kind)?;
        Ok(Some(TypeEntry { ctype, kind }))
    } else {
        Ok(None)
    }
}
