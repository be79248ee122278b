//! A file is cut into lines.
ghost use Rattle.std.specs.Prelude.{◌≡◌, ◌+◌, ◌-◌, ◌^◌, ◌<◌, ◌≤◌, ◌==◌, IfOk, drop, length, position, true};
ghost use Rattle.std.specs.Str.Lines.{strip_carriage_return};
ghost use Rattle.xs_base.specs.Lines.{early_end, have_no_end, last_filled, lines_of};

use crate::{Bytes, Items, Line, Memory, is_blank_line};
use std::alloc::Global;

/// The lines of a file, numbered from 1. A line ends at byte 10 or at the end of the file; one byte
/// 13 right before byte 10 belongs to the end. After the last byte 10 there is no further line.
pub fn lines(alloc: Global, src: &Bytes) -> Result<Items<Line>, Memory>
    requires { length src.now < 2 ^ 32 - 1 }
    ensures exact { IfOk result (λ all. all ≡ lines_of src.now) }
    ensures no_end { IfOk result (λ all. have_no_end all ≡ true) }
{
    let mut all = Items::new(alloc);
    let mut number: u32 = 1;
    let mut rest = src.as_slice();
    while let Some(end) = line_end(rest) {
        let text = Bytes::from_slice(alloc, without_carriage_return(&rest[..end]))?;
        all.push(Line { number, text })?;
        number += 1;
        rest = after(rest, end + 1);
    }
    if !rest.is_empty() {
        let text = Bytes::from_slice(alloc, rest)?;
        all.push(Line { number, text })?;
    }
    Ok(all)
}

// The number of the last line that is not empty, or 1.
fn last_filled(all: &[Line]) -> u32
    ensures { result ≡ last_filled 1 all.now }
{
    let mut last = 1;
    for line in all {
        if !is_blank_line(line.text.as_slice()) {
            last = line.number;
        }
    }
    last
}

/// The line of a fault at the early end of a text: the last that is not empty, or 1. A line of
/// blanks alone is empty.
pub fn early_end(alloc: Global, src: &Bytes) -> Result<u32, Memory>
    requires { length src.now < 2 ^ 32 - 1 }
    ensures { IfOk result (λ line. line ≡ early_end src.now) }
{
    let all = lines(alloc, src)?;
    Ok(last_filled(all.as_slice()))
}

// The place of the first byte 10.
fn line_end(bytes: &[u8]) -> Option<usize>
    ensures { result ≡ position (λ b. b == 10) bytes.now }
{
    bytes.iter().position(|b| *b == 10)
}

// What is left from a place on.
fn after(bytes: &[u8], at: usize) -> &[u8]
    requires { at ≤ length bytes.now }
    ensures { result.now ≡ drop at bytes.now }
{
    &bytes[at..]
}

/// The bytes without a byte 13 at their end.
pub fn without_carriage_return(bytes: &[u8]) -> &[u8]
    ensures { result.now ≡ strip_carriage_return bytes.now }
{
    match bytes {
        [front @ .., 13] => front,
        _ => bytes,
    }
}
