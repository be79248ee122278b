//! Character literals and texts in quotes.
ghost use Rattle.std.specs.Prelude.{◌≡◌, ◌+◌, ◌<◌, ◌^◌, [], IfOk, length};
ghost use Rattle.xs_ctok.specs.Numerals as numerals;
ghost use Rattle.xs_values.specs.declared.literal.Base.TheVariants as base;
ghost use Rattle.xs_ctok.specs.QuotedTexts as spec;
ghost use Rattle.xs_ctok.specs.QuotedTexts.{FitsEscape};
ghost use Rattle.xs_ctok.specs.FrontSizes.{Fits};

use crate::front::Front;
use crate::numerals::{is_digit_of, value_in};
use crate::token::TokKind;
use std::alloc::Global;
use xs_base::fault_codes::{OPEN_COMMENT_OR_TEXT, STRAY_BYTE};
use xs_base::{Bytes, Memory};
use xs_values::Base;

/// What stands after a backslash.
#[derive(Clone, Copy, Debug, PartialEq, Eq)]
pub enum Escape {
    /// An escape of this many further bytes, which stands for this byte.
    Stands(u8, usize),
    /// None that is listed.
    Unlisted,
    /// The line ends in it.
    Open,
}

// The byte that a letter or a sign after a backslash stands for (C11 6.4.4.4).
fn simple_escape(b: u8) -> Option<u8>
    ensures { result ≡ spec.simple_escape b }
{
    match b {
        b'n' => Some(b'\n'),
        b't' => Some(b'\t'),
        b'r' => Some(b'\r'),
        b'\\' | b'\'' | b'"' => Some(b),
        _ => None,
    }
}

// The escape of two hexadecimal digits after `\x`.
fn hexadecimal_of(high: u8, low: u8) -> Escape
    ensures { result ≡ spec.hexadecimal_of (numerals.value_in base.Hexadecimal high)
        (numerals.value_in base.Hexadecimal low) }
{
    let Some(high) = value_in(Base::Hexadecimal, high) else {
        return Escape::Unlisted;
    };
    let Some(low) = value_in(Base::Hexadecimal, low) else {
        return Escape::Unlisted;
    };
    Escape::Stands(16 * high + low, 3)
}

// The escape whose digits stand after `\x`.
fn hexadecimal_escape(after: &[u8]) -> Escape
    ensures value { result ≡ spec.hexadecimal_escape after.now }
    ensures within { FitsEscape result (1 + length after.now) }
{
    match after {
        [] => Escape::Open,
        [high] => {
            if is_digit_of(Base::Hexadecimal, *high) {
                Escape::Open
            } else {
                Escape::Unlisted
            }
        }
        [high, low, ..] => hexadecimal_of(*high, *low),
    }
}

// The byte of three octal digits, if it is one.
fn octal_value(high: u8, middle: u8, low: u8) -> Option<u8>
    ensures { result ≡ spec.octal_value high middle low }
{
    let high = value_in(Base::Octal, high)?;
    let middle = value_in(Base::Octal, middle)?;
    let low = value_in(Base::Octal, low)?;
    if high < 4 {
        Some(64 * high + 8 * middle + low)
    } else {
        None
    }
}

// `\0`, which stands for the byte 0.
fn zero_escape(b: u8) -> Escape
    ensures { result ≡ spec.zero_escape b }
{
    if b == b'0' {
        Escape::Stands(0, 1)
    } else {
        Escape::Unlisted
    }
}

// The escape that begins with this byte, which is no letter and no sign that is listed.
fn octal_escape(b: u8, after: &[u8]) -> Escape
    ensures value { result ≡ spec.octal_escape b after.now }
    ensures within { FitsEscape result (1 + length after.now) }
{
    match after {
        [middle, low, ..] => match octal_value(b, *middle, *low) {
            Some(value) => Escape::Stands(value, 3),
            None => zero_escape(b),
        },
        _ => zero_escape(b),
    }
}

#[tactic(auto, unfolding(crate::specs::QuotedTexts::escape_of))]
fn escape_of(after: &[u8]) -> Escape
    ensures value { result ≡ spec.escape_of after.now }
    ensures within { FitsEscape result (length after.now) }
{
    let [first, rest @ ..] = after else {
        return Escape::Open;
    };
    match simple_escape(*first) {
        Some(value) => Escape::Stands(value, 1),
        None => {
            if *first == b'x' {
                hexadecimal_escape(rest)
            } else {
                octal_escape(*first, rest)
            }
        }
    }
}

/// The text whose quote stands in front of these bytes.
pub fn text_front(alloc: Global, after: &[u8]) -> Result<Front, Memory>
    ensures value { IfOk result (λ front. front ≡ spec.text_front [] 1 0 after.now) }
    ensures within { IfOk result (λ front. Fits front (length after.now + 1)) }
{
    let mut content = Bytes::new(alloc);
    let mut n: usize = 1;
    let mut rest = after;
    while let [b, more @ ..] = rest {
        if *b == b'"' {
            return Ok(Front::Piece(TokKind::Text(content), n + 1));
        }
        if *b == b'\\' {
            match escape_of(more) {
                Escape::Stands(value, len) => {
                    content.append(&[value])?;
                    rest = more.split_at(len).1;
                    n += 1 + len;
                }
                Escape::Unlisted => return Ok(Front::Refused(STRAY_BYTE)),
                Escape::Open => return Ok(Front::Refused(OPEN_COMMENT_OR_TEXT)),
            }
        } else {
            content.append(&[*b])?;
            rest = more;
            n += 1;
        }
    }
    Ok(Front::Refused(OPEN_COMMENT_OR_TEXT))
}

// The character literal of this byte, of which so many bytes were read, where it ends here.
fn closed_front(value: u8, n: usize, rest: &[u8]) -> Front
    requires { n + length rest.now < 2 ^ 64 }
    ensures value { result ≡ spec.closed_front value n rest.now }
    ensures within { Fits result (n + length rest.now) }
{
    match rest {
        [] => Front::Refused(OPEN_COMMENT_OR_TEXT),
        [b, ..] => {
            if *b == b'\'' {
                Front::Piece(TokKind::Char(value), n + 1)
            } else {
                Front::Refused(STRAY_BYTE)
            }
        }
    }
}

fn escaped_front(rest: &[u8]) -> Front
    requires { length rest.now + 2 < 2 ^ 64 }
    ensures value { result ≡ spec.escaped_front (spec.escape_of rest.now) rest.now }
    ensures within { Fits result (length rest.now + 2) }
{
    match escape_of(rest) {
        Escape::Stands(value, len) => closed_front(value, 2 + len, rest.split_at(len).1),
        Escape::Unlisted => Front::Refused(STRAY_BYTE),
        Escape::Open => Front::Refused(OPEN_COMMENT_OR_TEXT),
    }
}

/// The character literal whose quote stands in front of these bytes.
#[tactic(auto, unfolding(crate::specs::QuotedTexts::char_front))]
pub fn char_front(after: &[u8]) -> Front
    requires { length after.now + 1 < 2 ^ 64 }
    ensures value { result ≡ spec.char_front after.now }
    ensures within { Fits result (length after.now + 1) }
{
    let [b, rest @ ..] = after else {
        return Front::Refused(OPEN_COMMENT_OR_TEXT);
    };
    if *b == b'\'' {
        Front::Refused(STRAY_BYTE)
    } else if *b == b'\\' {
        escaped_front(rest)
    } else {
        closed_front(*b, 2, rest)
    }
}
