//! Texts and their faults.
ghost use Rattle.std.specs.Prelude.{◌<◌, ◌-◌, ◌^◌, IfOk, length};

use crate::nesting_tables::{DEEP_EXPRESSIONS, DEEP_STATEMENTS};
use crate::syntax_tables::{
    ARGUMENTS, BLOCKS, EFFECTS, EXPRESSIONS, FILES, Piece, Row, STATEMENTS, XS_STATEMENTS,
};
use std::alloc::Global;
use std::process::Abort;
use std::test::Fail;
use xs_base::{Bytes, FileOf, Items, Line, Memory, Refuse, early_end, lines};
use xs_csyn::{TypeNames, read_args, read_block, read_expr, read_file, type_names};
use xs_ctok::{Token, are_short, tokens};

/// The tokens of lines.
fn tokens_in(rt: &impl Abort, alloc: Global, src: &[Line]) -> Result<Items<Token>, Refuse>
    ensures { IfOk result (λ all. length all < 2 ^ 32 - 1) }
{
    assert!(rt; are_short(src));
    let all = tokens(alloc, src, FileOf::Text)?;
    assert!(rt; all.len() < 100000);
    Ok(all)
}

/// The tokens of a text, and its last line that is not empty.
fn tokens_of(rt: &impl Abort, alloc: Global, src: &Bytes) -> Result<(Items<Token>, u32), Refuse>
    ensures { IfOk result (λ read. length read.0 < 2 ^ 32 - 1) }
{
    assert!(rt; src.len() < 100000);
    let all = lines(alloc, src)?;
    let last = early_end(alloc, src)?;
    Ok((tokens_in(rt, alloc, all.as_slice())?, last))
}

/// The code and the line of a fault, or 0 and 0 where there is none.
fn shown(read: Result<(), Refuse>) -> Result<(u16, u32), Memory> {
    match read {
        Ok(()) => Ok((0, 0)),
        Err(Refuse::Fault(fault)) => Ok((fault.code, fault.line)),
        Err(Refuse::Memory) => Err(Memory),
    }
}

fn read_text(rt: &impl Abort, alloc: Global, src: &Bytes) -> Result<(), Refuse> {
    let (list, last) = tokens_of(rt, alloc, src)?;
    read_file(alloc, list.as_slice(), FileOf::Text, last)?;
    Ok(())
}

/// The types of a file that declares `foo`.
fn types(rt: &impl Abort, alloc: Global) -> Result<TypeNames, Refuse> {
    let src = Bytes::from_slice(alloc, b"typedef int foo; int f(foo a);")?;
    let (list, last) = tokens_of(rt, alloc, &src)?;
    let file = read_file(alloc, list.as_slice(), FileOf::Text, last)?;
    Ok(type_names(alloc, &file)?)
}

/// What a piece is read as.
#[derive(Clone, Copy)]
enum As {
    Block,
    Expression,
    Arguments,
}

fn read_piece(
    rt: &impl Abort,
    alloc: Global,
    text: &str,
    around: u32,
    what: As,
) -> Result<(), Refuse> {
    let src = Bytes::from_slice(alloc, text.as_bytes())?;
    let (list, last) = tokens_of(rt, alloc, &src)?;
    let known = types(rt, alloc)?;
    match what {
        As::Block => {
            read_block(alloc, list.as_slice(), FileOf::Text, last, &known, around)?;
        }
        As::Expression => {
            read_expr(alloc, list.as_slice(), FileOf::Text, last, &known, around)?;
        }
        As::Arguments => {
            read_args(alloc, list.as_slice(), FileOf::Text, last, &known, around)?;
        }
    }
    Ok(())
}

/// A text, with a part of it repeated so often.
fn text_of(alloc: Global, front: &str, part: &str, times: u8, back: &str) -> Result<Bytes, Memory> {
    let mut src = Bytes::from_slice(alloc, front.as_bytes())?;
    for _ in 0..times {
        src.append(part.as_bytes())?;
    }
    src.append(back.as_bytes())?;
    Ok(src)
}

fn hold_row(rt: &impl Abort, alloc: Global, row: &Row) -> Result<(), Fail> {
    let (front, part, times, back, code, line) = *row;
    let src = text_of(alloc, front, part, times, back)?;
    let read = read_text(rt, alloc, &src);
    assert_eq!(rt; shown(read)?, (code, line), "{front}{part}{times}{back}");
    Ok(())
}

fn hold_rows(rt: &impl Abort, alloc: Global, rows: &[Row]) -> Result<(), Fail> {
    for row in rows {
        hold_row(rt, alloc, row)?;
    }
    Ok(())
}

#[test]
fn files(rt: HostRuntime) -> Result<(), Fail> {
    hold_rows(&rt, rt.alloc(), &FILES)
}

#[test]
fn statements(rt: HostRuntime) -> Result<(), Fail> {
    hold_rows(&rt, rt.alloc(), &STATEMENTS)
}

#[test]
fn xs_statements(rt: HostRuntime) -> Result<(), Fail> {
    hold_rows(&rt, rt.alloc(), &XS_STATEMENTS)
}

#[test]
fn effects(rt: HostRuntime) -> Result<(), Fail> {
    hold_rows(&rt, rt.alloc(), &EFFECTS)
}

#[test]
fn deep_expressions(rt: HostRuntime) -> Result<(), Fail> {
    hold_rows(&rt, rt.alloc(), &DEEP_EXPRESSIONS)
}

#[test]
fn deep_statements(rt: HostRuntime) -> Result<(), Fail> {
    hold_rows(&rt, rt.alloc(), &DEEP_STATEMENTS)
}

fn hold(rt: &impl Abort, alloc: Global, rows: &[Piece], what: As) -> Result<(), Fail> {
    for (text, around, code, line) in rows {
        let read = read_piece(rt, alloc, text, *around, what);
        assert_eq!(rt; shown(read)?, (*code, *line), "{text} {around}");
    }
    Ok(())
}

#[test]
fn blocks(rt: HostRuntime) -> Result<(), Fail> {
    hold(&rt, rt.alloc(), &BLOCKS, As::Block)
}

#[test]
fn expressions(rt: HostRuntime) -> Result<(), Fail> {
    hold(&rt, rt.alloc(), &EXPRESSIONS, As::Expression)
}

#[test]
fn arguments(rt: HostRuntime) -> Result<(), Fail> {
    hold(&rt, rt.alloc(), &ARGUMENTS, As::Arguments)
}
