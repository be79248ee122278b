//! C text is cut into tokens, line by line.
ghost use Rattle.std.specs.Option.{option_to_list};
ghost use Rattle.std.specs.Prelude.{◌≡◌, ◌+◌, ◌-◌, ◌^◌, ◌<◌, ◌≤◌, ◌++◌, IfOk, OnOk, length, true};
ghost use Rattle.xs_base.specs.Reading.{Gives};
ghost use Rattle.xs_ctok.specs.Tokens as spec;
ghost use Rattle.xs_ctok.specs.Tokens.{Cuts};

use crate::front::{Front, front_at};
use crate::token::{TokKind, Token};
use std::alloc::Global;
use xs_base::fault_codes::OPEN_COMMENT_OR_TEXT;
use xs_base::{Bytes, Fault, FileOf, Items, Line, Memory, Refuse, Span, starts_with};

/// What is open on a line.
#[derive(Clone, Copy, Debug, PartialEq, Eq)]
pub enum Mode {
    /// Nothing, and only blanks stand on the line so far.
    Fresh,
    /// Nothing.
    Between,
    /// A comment that was opened on this line of the text.
    Inside(u32),
}

/// A step over some bytes of a line: the token that they are, if they are one, what is open after
/// them, and how many they are.
#[derive(Debug, Drop)]
pub struct Moved {
    pub token: Option<Token>,
    pub mode: Mode,
    pub len: usize,
}

fn passed(mode: Mode, len: usize) -> Moved
    ensures { result ≡ spec.passed mode len }
{
    Moved {
        token: None,
        mode,
        len,
    }
}

fn token_at(alloc: Global, kind: TokKind, span: Span, text: &[u8]) -> Result<Token, Memory>
    ensures { IfOk result (λ token. token ≡ spec.token_at kind span text.now) }
{
    let text = Bytes::from_slice(alloc, text)?;
    Ok(Token { kind, text, span })
}

// The step over what stands at the front of a line's rest, where no comment is open.
fn step_on(
    alloc: Global,
    file: FileOf,
    span: Span,
    mode: Mode,
    text: &[u8],
) -> Result<Moved, Refuse>
    requires { 0 < length text.now }
    ensures read { Gives result (spec.step_on file span mode text.now) }
    ensures within { IfOk result (λ m. spec.FitsStep m (length text.now)) }
{
    match front_at(alloc, mode == Mode::Fresh, text)? {
        Front::Blank => Ok(passed(mode, 1)),
        Front::LineComment => Ok(passed(Mode::Between, text.len())),
        Front::Comment => Ok(passed(Mode::Inside(span.line), 2)),
        Front::Piece(kind, len) => {
            let token = token_at(alloc, kind, span, text.split_at(len).0)?;
            Ok(Moved {
                token: Some(token),
                mode: Mode::Between,
                len,
            })
        }
        Front::Refused(code) => Err(Refuse::Fault(Fault::bare(alloc, file, span.line, code))),
    }
}

// The step in a comment.
#[tactic(auto, using(crate::proofs::RunSizes::close_size))]
fn step_inside(opened: u32, text: &[u8]) -> Moved
    requires { 0 < length text.now }
    ensures value { result ≡ spec.step_inside opened text.now }
    ensures within { spec.FitsStep result (length text.now) }
{
    if starts_with(b"*/", text) {
        passed(Mode::Between, 2)
    } else {
        passed(Mode::Inside(opened), 1)
    }
}

// The next step on a line.
fn step(alloc: Global, file: FileOf, span: Span, mode: Mode, text: &[u8]) -> Result<Moved, Refuse>
    requires { 0 < length text.now }
    ensures read { Gives result (spec.step file span mode text.now) }
    ensures within { IfOk result (λ m. spec.FitsStep m (length text.now)) }
{
    match mode {
        Mode::Inside(opened) => Ok(step_inside(opened, text)),
        Mode::Fresh | Mode::Between => step_on(alloc, file, span, mode, text),
    }
}

fn push_some(out: &mut Items<Token>, token: Option<Token>) -> Result<(), Memory>
    ensures { OnOk result (out.new ≡ out.old ++ option_to_list token) }
{
    match token {
        Some(token) => out.push(token),
        None => Ok(()),
    }
}

fn begun(opened: Option<u32>) -> Mode
    ensures { result ≡ spec.begun opened }
{
    match opened {
        Some(line) => Mode::Inside(line),
        None => Mode::Fresh,
    }
}

fn open_in(mode: Mode) -> Option<u32>
    ensures { result ≡ spec.open_in mode }
{
    match mode {
        Mode::Inside(opened) => Some(opened),
        Mode::Fresh | Mode::Between => None,
    }
}

// Adds the tokens of a line, at whose begin a comment of that line is open or none. Gives the line
// of the comment that is open at its end.
fn cut_line(
    alloc: Global,
    out: &mut Items<Token>,
    file: FileOf,
    opened: Option<u32>,
    line: &Line,
) -> Result<Option<u32>, Refuse>
    requires { length line.now.text < 2 ^ 32 - 1 }
    ensures { Cuts out.old result out.new (spec.cut_of file opened line.now) }
{
    let mut rest = line.text.as_slice();
    let mut mode = begun(opened);
    let mut col: u32 = 1;
    while !rest.is_empty() {
        let span = Span {
            line: line.number,
            col,
        };
        let Moved {
            token,
            mode: next,
            len,
        } = step(alloc, file, span, mode, rest)?;
        push_some(out, token)?;
        mode = next;
        rest = rest.split_at(len).1;
        col += len as u32;
    }
    Ok(open_in(mode))
}

/// Whether columns can count the bytes of each line, which the lines of a text of fewer than
/// 2^32 - 1 bytes allow.
pub fn are_short(src: &[Line]) -> bool
    ensures { result ≡ spec.are_short src.now }
{
    src.iter().all(|line| line.text.len() < u32::MAX as usize)
}

/// The tokens of the lines of a C text, or its first fault: 701 for a byte at which none begins,
/// 702 for a text or comment that does not end, on the line where it begins, 703 for an integer of
/// more than 64 bits, 706 for a `#define` that is not taken, 707 for a floating constant.
#[tactic(auto, using(crate::proofs::ShortLines::line_is_short))]
pub fn tokens(alloc: Global, src: &[Line], file: FileOf) -> Result<Items<Token>, Refuse>
    requires { spec.are_short src.now ≡ true }
    ensures { Gives result (spec.tokens_of file src.now) }
{
    let mut out = Items::new(alloc);
    let mut opened = None;
    for line in src {
        opened = cut_line(alloc, &mut out, file, opened, line)?;
    }
    match opened {
        None => Ok(out),
        Some(line) => Err(Refuse::Fault(Fault::bare(alloc, file, line, OPEN_COMMENT_OR_TEXT))),
    }
}
