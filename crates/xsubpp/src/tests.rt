//! Worked examples, through the top call and in memory: what each run writes, and its status.
use crate::examples::{ADD, EXAMPLES, Example};
use crate::wide_examples::WIDE_EXAMPLES;
use crate::{Status, xsubpp};
use std::alloc::Global;
use std::test::Fail;
use xs_base::{Bytes, MemDesk, MemSink};

fn text(alloc: Global, bytes: &[u8]) -> Result<Bytes, Fail> {
    Ok(Bytes::from_slice(alloc, bytes).map_err(|_| "memory")?)
}

fn add(alloc: Global, desk: &mut MemDesk, name: &[u8], bytes: &[u8]) -> Result<(), Fail> {
    desk.add(text(alloc, name)?, text(alloc, bytes)?)
        .map_err(|_| "memory")?;
    Ok(())
}

fn desk(alloc: Global, xs: &[u8], script: &[u8]) -> Result<MemDesk, Fail> {
    let mut desk = MemDesk::new(alloc);
    add(alloc, &mut desk, b"a.xs", xs)?;
    add(alloc, &mut desk, b"a.txt", script)?;
    Ok(desk)
}

// A sink that accepts seven bytes a write, and so many in all.
fn sink(alloc: Global, room: u32) -> Result<MemSink, Fail> {
    Ok(MemSink::new(alloc, 7, room).map_err(|_| "memory")?)
}

// How a run ends, with this sink for its text, and what it writes on each sink.
fn run(
    alloc: Global,
    words: &[&str],
    desk: &mut MemDesk,
    mut out: MemSink,
) -> Result<(Status, MemSink, MemSink), Fail> {
    let mut all = Vec::new(alloc);
    for word in words {
        all.push(text(alloc, word.as_bytes())?)?;
    }
    let mut err = sink(alloc, 4096)?;
    let status = xsubpp(alloc, all.as_slice(), desk, &mut out, &mut err);
    Ok((status, out, err))
}

const CALL: [&str; 3] = ["call", "a.xs", "a.txt"];

const COMPILE: [&str; 2] = ["compile", "a.xs"];

const CHECK: [&str; 2] = ["check", "a.xs"];

const USAGE: &str =
    "usage: xsubpp compile FILE [TYPEMAP]\n       xsubpp call FILE SCRIPT [TYPEMAP]\n       xsubpp run TEXT SCRIPT\n       xsubpp check FILE [TYPEMAP]\n       xsubpp example N\n";

// What a command writes on `out`, where it does its work.
fn writes(alloc: Global, words: &[&str], desk: &mut MemDesk, text: &str) -> Result<bool, Fail> {
    let (status, out, err) = run(alloc, words, desk, sink(alloc, 4096)?)?;
    Ok(status == Status::Done && out.bytes() == text.as_bytes() && err.bytes().is_empty())
}

// Whether an example comes out, whole, from each command.
fn comes_out(alloc: Global, example: &Example) -> Result<bool, Fail> {
    let mut desk = desk(alloc, example.xs.as_bytes(), example.script.as_bytes())?;
    Ok(
        writes(alloc, &COMPILE, &mut desk, example.glue)?
            && writes(alloc, &CALL, &mut desk, example.transcript)?
            && writes(alloc, &CHECK, &mut desk, "accepted\n")?,
    )
}

// With ample memory, so that none of these runs runs out of it.
#[test]
fn worked_examples(rt: HostRuntime) -> Result<(), Fail> {
    for example in &EXAMPLES {
        assert!(rt; comes_out(rt.alloc(), example)?);
    }
    for example in &WIDE_EXAMPLES {
        assert!(rt; comes_out(rt.alloc(), example)?);
    }
    Ok(())
}

// Whether a run ends so, with this line alone.
fn ends(
    alloc: Global,
    words: &[&str],
    desk: &mut MemDesk,
    how: Status,
    line: &str,
) -> Result<bool, Fail> {
    let (status, out, err) = run(alloc, words, desk, sink(alloc, 4096)?)?;
    Ok(status == how && out.bytes().is_empty() && err.bytes() == line.as_bytes())
}

// A refusal: its status and its line.
fn refuses(
    alloc: Global,
    words: &[&str],
    xs: &[u8],
    script: &[u8],
    how: Status,
    line: &str,
) -> Result<bool, Fail> {
    let mut desk = desk(alloc, xs, script)?;
    ends(alloc, words, &mut desk, how, line)
}

// Words that are no command.
fn is_usage(alloc: Global, words: &[&str]) -> Result<bool, Fail> {
    refuses(alloc, words, ADD.as_bytes(), b"", Status::Usage, USAGE)
}

#[test]
fn usages(rt: HostRuntime) -> Result<(), Fail> {
    let alloc = rt.alloc();
    assert!(rt; is_usage(alloc, &[])?);
    assert!(rt; is_usage(alloc, &["compile"])?);
    assert!(rt; is_usage(alloc, &["call", "a.xs"])?);
    assert!(rt; is_usage(alloc, &["run", "a"])?);
    assert!(rt; is_usage(alloc, &["example", "0"])?);
    assert!(rt; is_usage(alloc, &["example", "03"])?);
    assert!(rt; is_usage(alloc, &["check", "-x"])?);
    assert!(rt; is_usage(alloc, &["-", "a.xs"])?);
    // typemaps are not read so far
    assert!(rt; is_usage(alloc, &["check", "a.xs", "a.txt"])?);
    assert!(rt; is_usage(alloc, &["compile", "a.xs", "a.txt"])?);
    assert!(rt; is_usage(alloc, &["call", "a.xs", "a.txt", "a.txt"])?);
    Ok(())
}

// Whether a file that words name is reported as missing.
fn misses(alloc: Global, words: &[&str], line: &str) -> Result<bool, Fail> {
    refuses(alloc, words, ADD.as_bytes(), b"", Status::Missing, line)
}

// Whether `call` refuses an XS file and a script so.
fn call_refuses(alloc: Global, xs: &[u8], script: &[u8], line: &str) -> Result<bool, Fail> {
    refuses(alloc, &CALL, xs, script, Status::Refused, line)
}

#[test]
fn refusals(rt: HostRuntime) -> Result<(), Fail> {
    let alloc = rt.alloc();
    assert!(rt; misses(alloc, &["call", "b.xs", "a.txt"], "b.xs: missing\n")?);
    assert!(rt; misses(alloc, &["call", "a.xs", "b.txt"], "b.txt: missing\n")?);
    // no name is the name of a file too
    assert!(rt; misses(alloc, &["check", ""], ": missing\n")?);
    let no_module = "a.xs:1: 102 no MODULE line\n";
    assert!(rt; refuses(alloc, &COMPILE, b"int\n", b"", Status::Refused, no_module)?);
    // the XS file decides before the script
    assert!(rt; call_refuses(alloc, b"int\n", b"cal\n", no_module)?);
    let bad_line = "a.txt:2: 951 bad script line\n";
    assert!(rt; call_refuses(alloc, ADD.as_bytes(), b"\ncal\n", bad_line)?);
    Ok(())
}

#[test]
fn edges(rt: HostRuntime) -> Result<(), Fail> {
    let alloc = rt.alloc();
    let mut failing = desk(alloc, ADD.as_bytes(), b"")?;
    failing.fail_at(2).map_err(|_| "memory")?;
    assert!(rt;
        ends(
            alloc,
            &CALL,
            &mut failing,
            Status::ReadFault,
            "a.txt: read fault\n"
        )?
    );

    let mut desk = desk(alloc, ADD.as_bytes(), b"")?;
    let (status, out, err) = run(alloc, &CALL, &mut desk, sink(alloc, 10)?)?;
    assert!(rt; status == Status::WriteFault);
    assert!(rt; out.bytes() == b"boot retur".as_slice());
    assert!(rt; err.bytes().is_empty());
    Ok(())
}

// What `compile` writes into a sink whose second write fails.
#[test]
fn second_write_fails(rt: HostRuntime) -> Result<(), Fail> {
    let alloc = rt.alloc();
    let mut desk = desk(alloc, ADD.as_bytes(), b"")?;
    let mut failing = sink(alloc, 4096)?;
    failing.fail_at(2).map_err(|_| "memory")?;
    let (status, out, err) = run(alloc, &COMPILE, &mut desk, failing)?;
    assert!(rt; status == Status::WriteFault);
    assert!(rt; out.bytes() == b"/* xsub".as_slice());
    assert!(rt; err.bytes().is_empty());
    Ok(())
}

// Whether `check` refuses an XS file so.
fn check_refuses(alloc: Global, xs: &str, line: &str) -> Result<bool, Fail> {
    refuses(alloc, &CHECK, xs.as_bytes(), b"", Status::Refused, line)
}

// Each stage decides before the next, whatever the lines.
#[test]
fn first_faults(rt: HostRuntime) -> Result<(), Fail> {
    let alloc = rt.alloc();
    let sum = "  CODE:\n    RETVAL = a;\n  OUTPUT:\n    RETVAL\n";
    let other = "MODULE = M PACKAGE = M\n\nvoid\nf(int a)\n";
    assert!(rt; check_refuses(alloc, other, "a.xs:3: 999 form not built yet\n")?);
    assert!(rt;
        check_refuses(
            alloc,
            "\n#define N 1\n\nMODULE = M\n\nvoid\n",
            "a.xs:2: 999 form not built yet\n",
        )?
    );
    let twice = format!(in alloc;
        "MODULE = M PACKAGE = M\n\nint\nf(int a, int a)\n{sum}\nint\ng(int a, int a)\n{sum}"
    )?;
    assert!(rt; check_refuses(alloc, twice.as_str(), "a.xs:4: 303 parameter twice: a\n")?);
    let with_other = format!(in alloc; "{twice}\nvoid\nf()\n")?;
    assert!(rt;
        check_refuses(
            alloc,
            with_other.as_str(),
            "a.xs:17: 999 form not built yet\n"
        )?
    );
    let same = format!(in alloc;
        "MODULE = M PACKAGE = M\n\nint\nf(int a)\n{sum}\nint\nf(int a)\n{sum}"
    )?;
    assert!(rt; check_refuses(alloc, same.as_str(), "a.xs:11: 407 name twice: M::f\n")?);
    let later = format!(in alloc; "{same}\nint\ng(int b, int a, int b)\n{sum}")?;
    assert!(rt; check_refuses(alloc, later.as_str(), "a.xs:18: 303 parameter twice: b\n")?);
    let directive = format!(in alloc; "{later}\n#if 1\n")?;
    assert!(rt;
        check_refuses(
            alloc,
            directive.as_str(),
            "a.xs:24: 104 preprocessor line not taken\n",
        )?
    );
    Ok(())
}

// `check` reads no script.
#[test]
fn checks(rt: HostRuntime) -> Result<(), Fail> {
    let alloc = rt.alloc();
    let mut desk = MemDesk::new(alloc);
    add(alloc, &mut desk, b"a.xs", ADD.as_bytes())?;
    assert!(rt; writes(alloc, &CHECK, &mut desk, "accepted\n")?);
    Ok(())
}

#[test]
fn too_long(rt: HostRuntime) -> Result<(), Fail> {
    let alloc = rt.alloc();
    let mut long = Bytes::new(alloc);
    for _ in 0..1025 {
        long.append(&[b' '; 1024]).map_err(|_| "memory")?;
    }
    assert!(rt; call_refuses(alloc, long.as_slice(), b"", "a.xs:0: 101 file too long\n")?);
    Ok(())
}
