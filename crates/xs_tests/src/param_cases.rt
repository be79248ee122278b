//! Parameter lists and what they say.

use crate::param_tables as table;
use std::alloc::Global;
use std::process::Abort;
use std::test::Fail;
use xs_base::{Bytes, Fault, FileOf, Items, Line, Memory, Refuse, lines};
use xs_ctok::{Token, are_short, tokens};
use xs_params::{Dir, Param, ParamList, Preset, read_params};

fn dir_word(dir: Dir) -> &'static [u8] {
    match dir {
        Dir::In => b"in",
        Dir::Out => b"out",
        Dir::InOut => b"in_out",
        Dir::OutList => b"outlist",
        Dir::InOutList => b"in_outlist",
    }
}

fn add_default(out: &mut Bytes, default: &Option<Preset>) -> Result<(), Memory> {
    match default {
        None => Ok(()),
        Some(Preset::NoInit) => out.append(b" unset"),
        Some(Preset::Code(text)) => {
            out.append(b" = ")?;
            out.append(text.as_slice())
        }
    }
}

fn add_type(alloc: Global, out: &mut Bytes, param: &Param) -> Result<(), Memory> {
    match &param.ctype {
        None => out.append(b" -"),
        Some(text) => {
            out.append(b" [")?;
            out.append(text.as_slice())?;
            out.append(b"]")?;
            out.append_number(alloc, param.type_line as u64)
        }
    }
}

// The line, the direction, the type with its line, the name and the default.
fn add_param(alloc: Global, out: &mut Bytes, param: &Param) -> Result<(), Memory> {
    out.append_number(alloc, param.line as u64)?;
    out.append(b" ")?;
    out.append(dir_word(param.dir))?;
    add_type(alloc, out, param)?;
    out.append(if param.is_length {
        b" length ".as_slice()
    } else {
        b" ".as_slice()
    })?;
    out.append(if param.by_address {
        b"&".as_slice()
    } else {
        b"".as_slice()
    })?;
    out.append(param.name.as_slice())?;
    add_default(out, &param.default)?;
    out.append(b"\n")
}

fn add_list(alloc: Global, out: &mut Bytes, list: &ParamList) -> Result<(), Memory> {
    for param in list.params.as_slice() {
        add_param(alloc, out, param)?;
    }
    if list.ellipsis {
        out.append(b"...\n")?;
    }
    out.append(b") ")?;
    out.append_number(alloc, list.last_line as u64)?;
    out.append(b"\n")
}

fn add_fault(alloc: Global, out: &mut Bytes, fault: &Fault) -> Result<(), Memory> {
    out.append_number(alloc, fault.line as u64)?;
    out.append(b": ")?;
    out.append_number(alloc, fault.code as u64)?;
    out.append(b" ")?;
    out.append(fault.word.as_slice())?;
    out.append(b"\n")
}

fn lines_in(rt: &impl Abort, alloc: Global, text: &[u8]) -> Result<Items<Line>, Memory> {
    assert!(rt; text.len() < 100000);
    let bytes = Bytes::from_slice(alloc, text)?;
    lines(alloc, &bytes)
}

// The tokens of the longest front of a text that has tokens.
fn front_tokens(rt: &impl Abort, alloc: Global, text: &[u8]) -> Result<Items<Token>, Memory> {
    for dropped in 0..text.len() + 1 {
        let front = &text[..text.len() - dropped];
        let src = lines_in(rt, alloc, front)?;
        assert!(rt; are_short(src.as_slice()));
        match tokens(alloc, src.as_slice(), FileOf::Xs) {
            Ok(all) => return Ok(all),
            Err(Refuse::Fault(_)) => {}
            Err(Refuse::Memory) => return Err(Memory),
        }
    }
    Ok(Items::new(alloc))
}

// What the list says whose `(` is the first token of a text.
fn listed(rt: &impl Abort, alloc: Global, text: &[u8]) -> Result<Bytes, Memory> {
    let src = lines_in(rt, alloc, text)?;
    let all = front_tokens(rt, alloc, text)?;
    let mut out = Bytes::new(alloc);
    let [_open, rest @ ..] = all.as_slice() else {
        return Ok(out);
    };
    match read_params(alloc, src.as_slice(), rest) {
        Ok(list) => add_list(alloc, &mut out, &list)?,
        Err(Refuse::Fault(fault)) => add_fault(alloc, &mut out, &fault)?,
        Err(Refuse::Memory) => return Err(Memory),
    }
    Ok(out)
}

fn are_listed(rt: &impl Abort, alloc: Global, rows: &[(&[u8], &[u8])]) -> Result<(), Fail> {
    for row in rows {
        let (text, expected) = *row;
        let got = listed(rt, alloc, text)?;
        assert_eq!(rt; got.as_slice(), expected);
    }
    Ok(())
}

#[test]
fn types_and_names(rt: HostRuntime) -> Result<(), Fail> {
    are_listed(&rt, rt.alloc(), &table::TYPES_AND_NAMES)
}

#[test]
fn directions(rt: HostRuntime) -> Result<(), Fail> {
    are_listed(&rt, rt.alloc(), &table::DIRECTIONS)
}

#[test]
fn lengths(rt: HostRuntime) -> Result<(), Fail> {
    are_listed(&rt, rt.alloc(), &table::LENGTHS)
}

#[test]
fn defaults(rt: HostRuntime) -> Result<(), Fail> {
    are_listed(&rt, rt.alloc(), &table::DEFAULTS)
}

#[test]
fn faults_of_names(rt: HostRuntime) -> Result<(), Fail> {
    are_listed(&rt, rt.alloc(), &table::FAULTS_OF_NAMES)
}

#[test]
fn faults_of_form(rt: HostRuntime) -> Result<(), Fail> {
    are_listed(&rt, rt.alloc(), &table::FAULTS_OF_FORM)
}

#[test]
fn after_the_list(rt: HostRuntime) -> Result<(), Fail> {
    are_listed(&rt, rt.alloc(), &table::AFTER_THE_LIST)
}

// So many parameters `pN` divided by `,`, and this text.
fn many(alloc: Global, count: u64, end: &[u8]) -> Result<Bytes, Memory> {
    let mut text = Bytes::from_slice(alloc, b"(")?;
    for n in 0..count {
        text.append(b"int\np")?;
        text.append_number(alloc, n)?;
        text.append(b",")?;
    }
    text.append(end)?;
    Ok(text)
}

// How many parameters are listed, or the line and the code of the fault.
fn outcome(rt: &impl Abort, alloc: Global, text: &Bytes) -> Result<(u64, u64), Memory> {
    let src = lines_in(rt, alloc, text.as_slice())?;
    let all = front_tokens(rt, alloc, text.as_slice())?;
    let [_open, rest @ ..] = all.as_slice() else {
        return Ok((0, 0));
    };
    match read_params(alloc, src.as_slice(), rest) {
        Ok(list) => Ok((list.params.len() as u64, 0)),
        Err(Refuse::Fault(fault)) => Ok((fault.line as u64, fault.code as u64)),
        Err(Refuse::Memory) => Err(Memory),
    }
}

#[test]
fn as_many_as_may_be(rt: HostRuntime) -> Result<(), Fail> {
    let alloc = rt.alloc();
    let full = outcome(&rt, alloc, &many(alloc, 63, b"a)")?)?;
    assert_eq!(rt; full, (64, 0));
    let open = outcome(&rt, alloc, &many(alloc, 64, b"...)")?)?;
    assert_eq!(rt; open, (64, 0));
    let beyond = outcome(&rt, alloc, &many(alloc, 64, b"\na\n)")?)?;
    assert_eq!(rt; beyond, (66, 304));
    let length = outcome(&rt, alloc, &many(alloc, 64, b"\nlength(a\n)")?)?;
    assert_eq!(rt; length, (66, 304));
    let again = outcome(&rt, alloc, &many(alloc, 64, b"\np7 = ")?)?;
    assert_eq!(rt; again, (66, 303));
    let unread = outcome(&rt, alloc, &many(alloc, 64, b"\nint\na[")?)?;
    assert_eq!(rt; unread, (67, 302));
    Ok(())
}
