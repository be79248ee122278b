//! Texts of C and their faults in the types stage.
ghost use Rattle.std.specs.Prelude.{◌<◌, ◌-◌, ◌^◌, IfOk, length};

use crate::type_tables::{BODIES, FILES, OPERATORS, PLACES, Row};
use std::alloc::Global;
use std::process::Abort;
use std::test::Fail;
use xs_base::{Bytes, FileOf, Items, Line, Memory, Refuse, early_end, lines};
use xs_ccheck::check_file;
use xs_csyn::read_file;
use xs_ctok::{Token, are_short, tokens};

/// The tokens of lines.
fn tokens_in(rt: &impl Abort, alloc: Global, src: &[Line]) -> Result<Items<Token>, Refuse>
    ensures { IfOk result (λ all. length all < 2 ^ 32 - 1) }
{
    assert!(rt; are_short(src));
    let all = tokens(alloc, src, FileOf::Text)?;
    assert!(rt; all.len() < 4_000_000);
    Ok(all)
}

fn check_text(rt: &impl Abort, alloc: Global, src: &Bytes) -> Result<(), Refuse> {
    assert!(rt; src.len() < 2_000_000);
    let all = lines(alloc, src)?;
    let last = early_end(alloc, src)?;
    let list = tokens_in(rt, alloc, all.as_slice())?;
    let file = read_file(alloc, list.as_slice(), FileOf::Text, last)?;
    check_file(alloc, file)?;
    Ok(())
}

/// A text with a line end in the place of each `@`.
fn lines_of(alloc: Global, front: &str, text: &str, back: &str) -> Result<Bytes, Memory> {
    let mut src = Bytes::new(alloc);
    append_lines(alloc, &mut src, front)?;
    append_lines(alloc, &mut src, text)?;
    append_lines(alloc, &mut src, back)?;
    Ok(src)
}

fn append_lines(alloc: Global, src: &mut Bytes, text: &str) -> Result<(), Memory> {
    for byte in text.as_bytes() {
        if *byte == b'@' {
            src.append(b"\n")?;
        } else {
            let one = Bytes::from_slice(alloc, &[*byte])?;
            src.append(one.as_slice())?;
        }
    }
    Ok(())
}

/// The code, the line and the word of a fault, or 0 where there is none.
fn shown(alloc: Global, read: Result<(), Refuse>) -> Result<(u16, u32, Bytes), Memory> {
    match read {
        Ok(()) => Ok((0, 0, Bytes::new(alloc))),
        Err(Refuse::Fault(fault)) => Ok((fault.code, fault.line, fault.word)),
        Err(Refuse::Memory) => Err(Memory),
    }
}

fn hold_row(
    rt: &impl Abort,
    alloc: Global,
    front: &str,
    row: &Row,
    back: &str,
) -> Result<(), Fail> {
    let (text, code, line, word) = *row;
    let src = lines_of(alloc, front, text, back)?;
    let (got_code, got_line, got_word) = shown(alloc, check_text(rt, alloc, &src))?;
    assert_eq!(rt; (got_code, got_line), (code, line), "{text}");
    assert_eq!(rt; got_word.as_slice(), word.as_bytes(), "{text}");
    Ok(())
}

const FRONT: &str = "XS(XS_M_k)@{@dXSARGS;@";

const BACK: &str = "@}@XS(boot_M) { dXSARGS; newXS_deffile(\"M::k\", XS_M_k); XSRETURN_YES; }@";

#[test]
fn bodies(rt: HostRuntime) -> Result<(), Fail> {
    for row in &BODIES {
        hold_row(&rt, rt.alloc(), FRONT, row, BACK)?;
    }
    Ok(())
}

#[test]
fn operators(rt: HostRuntime) -> Result<(), Fail> {
    for row in &OPERATORS {
        hold_row(&rt, rt.alloc(), FRONT, row, BACK)?;
    }
    Ok(())
}

#[test]
fn places(rt: HostRuntime) -> Result<(), Fail> {
    for row in &PLACES {
        hold_row(&rt, rt.alloc(), FRONT, row, BACK)?;
    }
    Ok(())
}

#[test]
fn type_files(rt: HostRuntime) -> Result<(), Fail> {
    for row in &FILES {
        hold_row(&rt, rt.alloc(), "", row, "@")?;
    }
    Ok(())
}

/// The code and the line of the fault of a text.
fn told(rt: &impl Abort, alloc: Global, src: &Bytes) -> Result<(u16, u32), Memory> {
    let (code, line, _) = shown(alloc, check_text(rt, alloc, src))?;
    Ok((code, line))
}

/// Adds parts that have a number between two texts.
fn append_numbered(
    alloc: Global,
    src: &mut Bytes,
    count: u32,
    before: &[u8],
    after: &[u8],
) -> Result<(), Memory> {
    for number in 0..count {
        src.append(before)?;
        src.append_number(alloc, u64::from(number))?;
        src.append(after)?;
    }
    Ok(())
}

#[test]
fn many_statements(rt: HostRuntime) -> Result<(), Fail> {
    let mut src = Bytes::from_slice(rt.alloc(), b"XS(XS_M_k) { dXSARGS; int a;")?;
    for _ in 0..20000 {
        src.append(b"\na;")?;
    }
    src.append(b"b; }\n")?;
    assert_eq!(&rt; told(&rt, rt.alloc(), &src)?, (801, 20001));
    Ok(())
}

#[test]
fn many_names(rt: HostRuntime) -> Result<(), Fail> {
    let alloc = rt.alloc();
    let mut src = Bytes::new(alloc);
    append_numbered(alloc, &mut src, 1000, b"XS(XS_M_", b") { dXSARGS; }\n")?;
    src.append(b"XS(boot_M) { dXSARGS;")?;
    append_numbered(
        alloc,
        &mut src,
        1000,
        b" newXS_deffile(\"M::k\", XS_M_",
        b");",
    )?;
    append_numbered(alloc, &mut src, 1000, b" int v", b";")?;
    append_numbered(alloc, &mut src, 1000, b" v", b" = v999;")?;
    src.append(b" }\n")?;
    assert_eq!(&rt; told(&rt, alloc, &src)?, (0, 0));
    Ok(())
}
