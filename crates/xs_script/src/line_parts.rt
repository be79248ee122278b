//! Cuts a line into the parts of a command.
ghost use Rattle.std.specs.Option.{option_to_list};
ghost use Rattle.std.specs.Prelude.{◌≡◌, [], ◌+◌, ◌++◌, ◌<◌, ◌==◌, ◌≤◌, IfOk, IfSome, OnOk, length};
ghost use Rattle.xs_script.specs.FrontsFit.{Fits, IsHexState};
ghost use Rattle.xs_script.specs.Lex as spec;
ghost use Rattle.xs_script.specs.declared.line_parts.TextState.TheVariants as text;
ghost use Rattle.xs_script.specs.LineOutcomes.{Reports};

use crate::line_part::{Front, Mark, Stop, Token};
use std::alloc::Global;
use xs_base::{
    ByteClass, Bytes, Items, Memory, begins_word, cut_run, is_ascii_digit, is_blank,
    is_qualified_name, starts_with,
};

/// Which byte of a text in quotes comes next.
#[derive(Clone, Copy, Debug, PartialEq, Eq)]
pub enum TextState {
    Plain,
    /// The one after a backslash.
    Escape,
    /// The first digit after `\x`.
    High,
    /// The second one, after a digit of this value.
    Low(u8),
}

fn hex_value(b: u8) -> Option<u8>
    ensures value { result ≡ spec.hex_value b }
    ensures within { IfSome result (λ n. n < 16) }
{
    match b {
        48..=57 => Some(b - 48),
        65..=70 => Some(b - 55),
        97..=102 => Some(b - 87),
        _ => None,
    }
}

// The byte that an escape of two bytes stands for, by its second byte.
fn escape_value(b: u8) -> Option<u8>
    ensures { result ≡ spec.escape_value b }
{
    match b {
        b'"' | b'\\' => Some(b),
        b'n' => Some(b'\n'),
        b't' => Some(b'\t'),
        _ => None,
    }
}

// Where reading of a text comes to after this byte, and the byte of the text that ends there.
fn text_step(text_state: TextState, b: u8) -> Option<(TextState, Option<u8>)>
    requires { IsHexState text_state }
    ensures value { result ≡ spec.text_step text_state b }
    ensures within { IfSome result (λ next. IsHexState next.0) }
{
    match text_state {
        TextState::Plain if b == b'\\' => Some((TextState::Escape, None)),
        TextState::Plain => Some((TextState::Plain, Some(b))),
        TextState::Escape if b == b'x' => Some((TextState::High, None)),
        TextState::Escape => Some((TextState::Plain, Some(escape_value(b)?))),
        TextState::High => Some((TextState::Low(hex_value(b)?), None)),
        TextState::Low(high) => Some((TextState::Plain, Some(16 * high + hex_value(b)?))),
    }
}

fn append_some(out: &mut Bytes, b: Option<u8>) -> Result<(), Memory>
    ensures { OnOk result (out.new ≡ out.old ++ option_to_list b) }
{
    match b {
        Some(b) => out.append(&[b]),
        None => Ok(()),
    }
}

/// A text, from after its quote on.
fn text_front(alloc: Global, after: &[u8]) -> Result<Front, Memory>
    ensures value { IfOk result (λ front. front ≡ spec.text_front text.Plain [] 1 after.now) }
    ensures within { IfOk result (λ front. Fits front (length after.now + 1)) }
{
    let mut out = Bytes::new(alloc);
    let mut text_state = TextState::Plain;
    let mut n = 1;
    for b in after {
        if text_state == TextState::Plain && *b == b'"' {
            return Ok(Front::Piece(Token::Text(out), n + 1));
        }
        let Some((next, value)) = text_step(text_state, *b) else {
            return Ok(Front::Nothing);
        };
        append_some(&mut out, value)?;
        text_state = next;
        n += 1;
    }
    Ok(Front::Nothing)
}

/// A name. A number right after it begins with its sign, since a digit would belong to the name.
#[tactic(auto, using(crate::proofs::LexSteps::front_within, crate::proofs::LexSteps::name_some))]
fn name_front(alloc: Global, bytes: &[u8]) -> Result<Front, Memory>
    ensures value { IfOk result (λ front. front ≡ spec.name_front bytes.now) }
    ensures within { IfOk result (λ front. Fits front (length bytes.now)) }
{
    let (name, after) = cut_run(ByteClass::Name, bytes);
    if is_qualified_name(name) && !starts_with(b"-", after) {
        Ok(Front::Piece(Token::Name(Bytes::from_slice(alloc, name)?), name.len()))
    } else {
        Ok(Front::Nothing)
    }
}

/// A number whose digits stand after this sign.
fn number_front(alloc: Global, sign: &[u8], after: &[u8]) -> Result<Front, Memory>
    ensures value { IfOk result (λ front. front ≡ spec.number_front sign.now after.now) }
    ensures within { IfOk result (λ front. Fits front (length sign.now + length after.now)) }
{
    let (digits, _) = cut_run(ByteClass::Digit, after);
    if digits.is_empty() {
        return Ok(Front::Nothing);
    }
    let mut number = Bytes::from_slice(alloc, sign)?;
    number.append(digits)?;
    let len = number.len();
    Ok(Front::Piece(Token::Number(number), len))
}

fn single(b: u8) -> Option<Mark>
    ensures { result ≡ spec.single b }
{
    match b {
        b'=' => Some(Mark::Equals),
        b'(' => Some(Mark::OpenRound),
        b')' => Some(Mark::CloseRound),
        b'[' => Some(Mark::OpenSquare),
        b']' => Some(Mark::CloseSquare),
        b'{' => Some(Mark::OpenCurly),
        b'}' => Some(Mark::CloseCurly),
        b',' => Some(Mark::Comma),
        b';' => Some(Mark::Semicolon),
        b'\\' => Some(Mark::Backslash),
        _ => None,
    }
}

fn mark_front(b: u8, after: &[u8]) -> Front
    ensures value { result ≡ spec.mark_front b after.now }
    ensures within { Fits result (length after.now + 1) }
{
    if b == b'=' && starts_with(b">", after) {
        return Front::Piece(Token::Mark(Mark::Arrow), 2);
    }
    match single(b) {
        Some(mark) => Front::Piece(Token::Mark(mark), 1),
        None => Front::Nothing,
    }
}

/// What stands at the front of the rest of a line.
#[tactic(auto, unfolding(crate::specs::Lex::first_part))]
fn front(alloc: Global, bytes: &[u8]) -> Result<Front, Memory>
    requires { 0 < length bytes.now }
    ensures value { IfOk result (λ front. front ≡ spec.first_part bytes.now) }
    ensures within { IfOk result (λ front. Fits front (length bytes.now)) }
{
    let first = bytes[0];
    let after = bytes.split_at(1).1;
    if is_blank(first) {
        Ok(Front::Blank)
    } else if begins_word(first) {
        name_front(alloc, bytes)
    } else if is_ascii_digit(first) {
        number_front(alloc, b"", bytes)
    } else if first == b'-' {
        number_front(alloc, b"-", after)
    } else if first == b'"' {
        text_front(alloc, after)
    } else {
        Ok(mark_front(first, after))
    }
}

/// The parts of a line.
pub fn tokens(alloc: Global, line: &[u8]) -> Result<Items<Token>, Stop>
    ensures { Reports result (spec.tokens_of line.now) }
{
    let mut out = Items::new(alloc);
    let mut rest = line;
    while !rest.is_empty() {
        match front(alloc, rest)? {
            Front::Blank => rest = rest.split_at(1).1,
            Front::Piece(token, len) => {
                out.push(token)?;
                rest = rest.split_at(len).1;
            }
            Front::Nothing => return Err(Stop::Unread),
        }
    }
    Ok(out)
}
