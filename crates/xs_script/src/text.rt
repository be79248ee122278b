//! The text that shows a plain value.
ghost use Rattle.std.specs.Char.{digit_char};
ghost use Rattle.std.specs.Prelude.{◌≡◌, ◌++◌, ◌<◌, IfOk, OnOk, take};
ghost use Rattle.xs_script.specs.ValueText.{quoted_text, shown_byte, value_text_of};

use crate::command_words::UNDEF;
use std::alloc::Global;
use xs_base::{Bytes, Memory};
use xs_values::{Plain, to_text};

/// The text of a plain value: `undef`, a decimal number with a leading `-` where it is negative, or
/// a text in quotes as `quoted` gives it.
pub fn value_text(alloc: Global, p: &Plain) -> Result<Bytes, Memory>
    ensures { IfOk result (λ text. text ≡ value_text_of p.now) }
{
    match p {
        Plain::Undef => Bytes::from_slice(alloc, UNDEF.as_bytes()),
        Plain::Int(_) | Plain::Uns(_) => to_text(alloc, p),
        Plain::Text(text) => quoted(alloc, text.as_slice()),
    }
}

/// A text in quotes: bytes 32 to 126 stand for themselves, but `"` and `\` have a `\` before them,
/// and any other byte is `\x` and two digits in lower case. After 64 bytes of the text the quote
/// closes and `..` follows.
pub fn quoted(alloc: Global, text: &[u8]) -> Result<Bytes, Memory>
    ensures { IfOk result (λ shown. shown ≡ quoted_text text.now) }
{
    let mut out = Bytes::from_slice(alloc, b"\"")?;
    for b in first_bytes(text) {
        append_shown(&mut out, *b)?;
    }
    out.append(if text.len() > 64 {
        b"\"..".as_slice()
    } else {
        b"\"".as_slice()
    })?;
    Ok(out)
}

// The part of a text that is shown.
fn first_bytes(text: &[u8]) -> &[u8]
    ensures { result.now ≡ take 64 text.now }
{
    if text.len() > 64 {
        text.split_at(64).0
    } else {
        text
    }
}

fn append_shown(out: &mut Bytes, b: u8) -> Result<(), Memory>
    ensures { OnOk result (out.new ≡ out.old ++ shown_byte b) }
{
    match b {
        b'"' => out.append(b"\\\""),
        b'\\' => out.append(b"\\\\"),
        32..=126 => out.append(&[b]),
        _ => out.append(&[b'\\', b'x', hex(b / 16), hex(b % 16)]),
    }
}

// A hexadecimal digit in lower case.
fn hex(digit: u8) -> u8
    requires { digit < 16 }
    ensures { result ≡ digit_char digit }
{
    if digit < 10 {
        b'0' + digit
    } else {
        b'a' + (digit - 10)
    }
}
