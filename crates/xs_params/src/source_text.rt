//! The text of a default, as it stands in the source, and what stands after a list.
ghost use Rattle.std.specs.Prelude.{◌≡◌, IfOk, drop, take};
ghost use Rattle.xs_base.specs.Lines as lines;
ghost use Rattle.xs_params.specs.DefaultTexts as spec;

use crate::param::Preset;
use crate::states::Extent;
use std::alloc::Global;
use xs_base::{Bytes, Line, Memory, Span, is_blank, is_blank_line};

fn front(text: &[u8], n: usize) -> &[u8]
    ensures { result.now ≡ take n text.now }
{
    if n < text.len() {
        text.split_at(n).0
    } else {
        text
    }
}

fn after(text: &[u8], n: usize) -> &[u8]
    ensures { result.now ≡ drop n text.now }
{
    if n < text.len() {
        text.split_at(n).1
    } else {
        &[]
    }
}

fn up_to_end(x: Extent, line: &Line) -> &[u8]
    ensures { result.now ≡ spec.up_to_end x line.now }
{
    if line.number == x.to_line {
        front(line.text.as_slice(), x.to_col.saturating_sub(1))
    } else {
        line.text.as_slice()
    }
}

// A line's bytes of the default.
fn piece(x: Extent, line: &Line) -> &[u8]
    ensures { result.now ≡ spec.piece x line.now }
{
    let text = up_to_end(x, line);
    if line.number == x.from.line {
        after(text, x.from.col.saturating_sub(1) as usize)
    } else {
        text
    }
}

fn is_within(x: Extent, line: &Line) -> bool
    ensures { result ≡ spec.is_within x line.now }
{
    x.from.line <= line.number && line.number <= x.to_line
}

fn line_end(x: Extent, line: &Line) -> &'static [u8]
    ensures { result.now ≡ spec.line_end x line.now }
{
    if line.number == x.to_line { b"" } else { b"\n" }
}

// The bytes from the first of its first token to the last of its last.
#[tactic(auto, using(std::proofs::Common::append_assoc), unfolding(crate::specs::DefaultTexts::text_of))]
fn text_of(alloc: Global, src: &[Line], x: Extent) -> Result<Bytes, Memory>
    ensures { IfOk result (λ text. text ≡ spec.text_of src.now x) }
{
    let mut text = Bytes::new(alloc);
    for line in src {
        if is_within(x, line) {
            text.append(piece(x, line))?;
            text.append(line_end(x, line))?;
        }
    }
    Ok(text)
}

/// What the tokens of a default say.
pub fn preset_of(alloc: Global, src: &[Line], x: Extent) -> Result<Preset, Memory>
    ensures { IfOk result (λ preset. preset ≡ spec.preset_of src.now x) }
{
    if x.no_init {
        Ok(Preset::NoInit)
    } else {
        Ok(Preset::Code(text_of(alloc, src, x)?))
    }
}

/// What was passed in the rest of a line, where only blanks and comments may stand (C11 6.4.9).
#[derive(Clone, Copy, Debug, PartialEq, Eq)]
pub enum Passed {
    /// Blanks and whole comments.
    Blanks,
    /// A `/` after these.
    Slash,
    /// A comment that may go on.
    Comment,
    /// A comment that may go on, with a `*` at the end.
    Star,
    /// A comment up to the end of the line.
    LineComment,
    /// What is no comment.
    Other,
}

fn after_blank(b: u8) -> Passed
    ensures { result ≡ spec.after_blank b }
{
    if is_blank(b) {
        Passed::Blanks
    } else if b == b'/' {
        Passed::Slash
    } else {
        Passed::Other
    }
}

fn after_slash(b: u8) -> Passed
    ensures { result ≡ spec.after_slash b }
{
    if b == b'/' {
        Passed::LineComment
    } else if b == b'*' {
        Passed::Comment
    } else {
        Passed::Other
    }
}

fn after_star(b: u8) -> Passed
    ensures { result ≡ spec.after_star b }
{
    if b == b'/' {
        Passed::Blanks
    } else if b == b'*' {
        Passed::Star
    } else {
        Passed::Comment
    }
}

// What was passed with one byte more.
fn passed_by(passed: Passed, b: u8) -> Passed
    ensures { result ≡ spec.passed_by passed b }
{
    match passed {
        Passed::Blanks => after_blank(b),
        Passed::Slash => after_slash(b),
        Passed::Comment => {
            if b == b'*' {
                Passed::Star
            } else {
                Passed::Comment
            }
        }
        Passed::Star => after_star(b),
        Passed::LineComment => Passed::LineComment,
        Passed::Other => Passed::Other,
    }
}

fn passed_in(text: &[u8]) -> Passed
    ensures { result ≡ spec.passed_in text.now }
{
    text.iter()
        .fold(Passed::Blanks, |passed, b| passed_by(passed, *b))
}

/// Whether only blanks and comments stand in the rest of a line, and no comment stays open.
pub fn is_clear(text: &[u8]) -> bool
    ensures { result ≡ spec.is_clear text.now }
{
    match passed_in(text) {
        Passed::Blanks | Passed::LineComment => true,
        _ => false,
    }
}

/// The bytes after the one at a place.
pub fn rest_after(src: &[Line], at: Span) -> &[u8]
    ensures { result.now ≡ spec.rest_after src.now at }
{
    for line in src {
        if line.number == at.line {
            return after(line.text.as_slice(), at.col as usize);
        }
    }
    &[]
}

/// The number of the last line that is not empty, or 1.
pub fn last_filled(src: &[Line]) -> u32
    ensures { result ≡ lines.last_filled 1 src.now }
{
    let mut last = 1;
    for line in src {
        if !is_blank_line(line.text.as_slice()) {
            last = line.number;
        }
    }
    last
}
