//! Texts and their tokens.

use crate::token_tables as table;
use std::alloc::Global;
use std::process::Abort;
use std::test::Fail;
use xs_base::{Bytes, FileOf, Items, Line, Memory, Refuse, lines};
use xs_ctok::{Literal, TokKind, Token, are_short, is_no_name, is_reserved, is_type_word, tokens};
use xs_values::{Base, Length};

fn add_literal(alloc: Global, out: &mut Bytes, literal: Literal) -> Result<(), Memory> {
    out.append_number(alloc, literal.value)?;
    out.append(match literal.base {
        Base::Decimal => b"d",
        Base::Octal => b"o",
        Base::Hexadecimal => b"x",
    })?;
    if literal.suffix.unsigned {
        out.append(b"u")?;
    }
    out.append(match literal.suffix.length {
        Length::Int => b"".as_slice(),
        Length::Long => b"l".as_slice(),
        Length::LongLong => b"ll".as_slice(),
    })
}

fn add_kind(alloc: Global, out: &mut Bytes, token: &Token) -> Result<(), Memory> {
    let text = token.text.as_slice();
    match &token.kind {
        TokKind::Word => {
            out.append(b"w ")?;
            out.append(text)
        }
        TokKind::Punct => {
            out.append(b"p ")?;
            out.append(text)
        }
        TokKind::Include => {
            out.append(b"n ")?;
            out.append(text)
        }
        TokKind::Int(literal) => {
            out.append(b"i ")?;
            add_literal(alloc, out, *literal)
        }
        TokKind::Char(byte) => {
            out.append(b"c ")?;
            out.append_number(alloc, *byte as u64)
        }
        TokKind::Text(bytes) => {
            out.append(b"t ")?;
            out.append(bytes.as_slice())
        }
        TokKind::Define(name, literal) => {
            out.append(b"d ")?;
            out.append(name.as_slice())?;
            out.append(b" ")?;
            add_literal(alloc, out, *literal)
        }
    }
}

fn add_token(alloc: Global, out: &mut Bytes, token: &Token) -> Result<(), Memory> {
    out.append_number(alloc, token.span.line as u64)?;
    out.append(b":")?;
    out.append_number(alloc, token.span.col as u64)?;
    out.append(b" ")?;
    add_kind(alloc, out, token)?;
    out.append(b"\n")
}

/// The tokens of lines, or the code and the line of their fault.
fn listed(rt: &impl Abort, alloc: Global, src: &[Line]) -> Result<Bytes, Memory> {
    assert!(rt; are_short(src));
    let mut out = Bytes::new(alloc);
    match tokens(alloc, src, FileOf::Text) {
        Ok(all) => {
            for token in all.as_slice() {
                add_token(alloc, &mut out, token)?;
            }
        }
        Err(Refuse::Fault(fault)) => {
            out.append_number(alloc, fault.code as u64)?;
            out.append(b" at ")?;
            out.append_number(alloc, fault.line as u64)?;
        }
        Err(Refuse::Memory) => return Err(Memory),
    }
    Ok(out)
}

fn listed_text(rt: &impl Abort, alloc: Global, text: &[u8]) -> Result<Bytes, Memory> {
    assert!(rt; text.len() < 10000);
    let bytes = Bytes::from_slice(alloc, text)?;
    let all = lines(alloc, &bytes)?;
    listed(rt, alloc, all.as_slice())
}

fn are_listed(rt: &impl Abort, alloc: Global, rows: &[(&[u8], &[u8])]) -> Result<(), Fail> {
    for row in rows {
        let (text, expected) = *row;
        let got = listed_text(rt, alloc, text)?;
        assert_eq!(rt; got.as_slice(), expected);
    }
    Ok(())
}

#[test]
fn words_and_blanks(rt: HostRuntime) -> Result<(), Fail> {
    are_listed(&rt, rt.alloc(), &table::WORDS)
}

#[test]
fn integers(rt: HostRuntime) -> Result<(), Fail> {
    are_listed(&rt, rt.alloc(), &table::INTEGERS)
}

#[test]
fn integers_and_words(rt: HostRuntime) -> Result<(), Fail> {
    are_listed(&rt, rt.alloc(), &table::INTEGERS_AND_WORDS)
}

#[test]
fn wide_integers(rt: HostRuntime) -> Result<(), Fail> {
    are_listed(&rt, rt.alloc(), &table::WIDE_INTEGERS)
}

#[test]
fn floating(rt: HostRuntime) -> Result<(), Fail> {
    are_listed(&rt, rt.alloc(), &table::FLOATING)
}

#[test]
fn not_floating(rt: HostRuntime) -> Result<(), Fail> {
    are_listed(&rt, rt.alloc(), &table::NOT_FLOATING)
}

#[test]
fn characters(rt: HostRuntime) -> Result<(), Fail> {
    are_listed(&rt, rt.alloc(), &table::CHARACTERS)
}

#[test]
fn texts(rt: HostRuntime) -> Result<(), Fail> {
    are_listed(&rt, rt.alloc(), &table::TEXTS)
}

#[test]
fn punctuators(rt: HostRuntime) -> Result<(), Fail> {
    are_listed(&rt, rt.alloc(), &table::PUNCTUATORS)
}

#[test]
fn comments(rt: HostRuntime) -> Result<(), Fail> {
    are_listed(&rt, rt.alloc(), &table::COMMENTS)
}

#[test]
fn open_comments(rt: HostRuntime) -> Result<(), Fail> {
    are_listed(&rt, rt.alloc(), &table::OPEN_COMMENTS)
}

#[test]
fn passed_lines(rt: HostRuntime) -> Result<(), Fail> {
    are_listed(&rt, rt.alloc(), &table::PASSED_LINES)
}

#[test]
fn defines(rt: HostRuntime) -> Result<(), Fail> {
    are_listed(&rt, rt.alloc(), &table::DEFINES)
}

#[test]
fn refused_defines(rt: HostRuntime) -> Result<(), Fail> {
    are_listed(&rt, rt.alloc(), &table::REFUSED_DEFINES)
}

#[test]
fn wide_defines(rt: HostRuntime) -> Result<(), Fail> {
    are_listed(&rt, rt.alloc(), &table::WIDE_DEFINES)
}

#[test]
fn stray_signs(rt: HostRuntime) -> Result<(), Fail> {
    are_listed(&rt, rt.alloc(), &table::STRAY_SIGNS)
}

/// Lines of a file, of which others were cut away.
fn pieces(rt: &impl Abort, alloc: Global, texts: [(u32, &[u8]); 4]) -> Result<Bytes, Memory> {
    let mut all = Items::new(alloc);
    for (number, text) in texts {
        let text = Bytes::from_slice(alloc, text)?;
        all.push(Line { number, text })?;
    }
    listed(rt, alloc, all.as_slice())
}

#[test]
fn lines_with_gaps(rt: HostRuntime) -> Result<(), Fail> {
    let rows: [([(u32, &[u8]); 4], &[u8]); 4] = [
        (
            [(3, b"a /* b"), (7, b"c"), (12, b"d */ e"), (40, b"")],
            b"3:1 w a\n12:6 w e\n",
        ),
        (
            [(3, b"a"), (7, b"/* b"), (12, b"c"), (40, b"")],
            b"702 at 7",
        ),
        (
            [(3, b"a"), (7, b"\"b"), (12, b"@"), (40, b"1.0")],
            b"702 at 7",
        ),
        (
            [(3, b"a"), (7, b"/*"), (12, b"*/ #include <x>"), (40, b"@")],
            b"701 at 12",
        ),
    ];
    for (texts, expected) in rows {
        let got = pieces(&rt, rt.alloc(), texts)?;
        assert_eq!(rt; got.as_slice(), expected);
    }
    Ok(())
}

#[test]
fn words(rt: HostRuntime) -> Result<(), Fail> {
    let rows: [(&str, bool, bool, bool); 9] = [
        ("int", true, true, true),
        ("SV", true, true, true),
        ("void", true, true, true),
        ("dTHX", false, false, true),
        ("else", false, true, true),
        ("ST", false, false, true),
        ("G_EVAL", false, false, true),
        ("newSViv", false, false, true),
        ("RETVAL", false, false, false),
    ];
    for (word, is_type, is_none, is_kept) in rows {
        assert_eq!(rt; is_type_word(word.as_bytes()), is_type, "{word}");
        assert_eq!(rt; is_no_name(word.as_bytes()), is_none, "{word}");
        assert_eq!(rt; is_reserved(word.as_bytes()), is_kept, "{word}");
    }
    Ok(())
}
