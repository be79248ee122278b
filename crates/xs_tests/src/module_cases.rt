//! Modules of small files, worked out by hand from the rules of perlxs. In the files a line
//! `!INTERFACE|SUM` stands for the six lines of an XSUB and an empty line.
use crate::table_rows::{halves, text_of};
use std::alloc::Global;
use std::test::Fail;
use xs_base::{Bytes, Memory, Refuse};
use xs_iface::{Module, Param, Term, Xsub, read_module};
use xs_sections::{Sections, split};

fn add_term(alloc: Global, out: &mut Bytes, term: Term) -> Result<(), Memory> {
    match term {
        Term::Parameter(place) => out.append(format!(in alloc; " ${place}")?.as_str().as_bytes()),
        Term::Literal(value) => out.append(format!(in alloc; " {value}")?.as_str().as_bytes()),
    }
}

fn add_param(alloc: Global, out: &mut Bytes, param: &Param) -> Result<(), Memory> {
    out.append(b" ")?;
    out.append(param.name.as_slice())?;
    out.append(format!(in alloc; "@{}", param.line)?.as_str().as_bytes())
}

// The lines and names of an XSUB, its parameters, and its terms.
fn add_xsub(alloc: Global, out: &mut Bytes, x: &Xsub) -> Result<(), Memory> {
    let lines = format!(in alloc; "X {} {} {} '", x.line, x.code_line, x.output_line)?;
    out.append(lines.as_str().as_bytes())?;
    out.append(x.full.as_slice())?;
    out.append(b"' ")?;
    out.append(x.c_name.as_slice())?;
    out.append(b" ")?;
    out.append(x.glue.as_slice())?;
    for param in x.params.as_slice() {
        add_param(alloc, out, param)?;
    }
    out.append(b" =")?;
    for term in x.sum.as_slice() {
        add_term(alloc, out, *term)?;
    }
    out.append(b"\n")
}

fn add_module(alloc: Global, out: &mut Bytes, m: &Module) -> Result<(), Memory> {
    out.append(m.boot.as_slice())?;
    out.append(format!(in alloc; " {}\n", m.boot_line)?.as_str().as_bytes())?;
    for line in m.c_part.as_slice() {
        out.append(format!(in alloc; "C {} ", line.number)?.as_str().as_bytes())?;
        out.append(line.text.as_slice())?;
        out.append(b"\n")?;
    }
    for x in m.xsubs.as_slice() {
        add_xsub(alloc, out, x)?;
    }
    Ok(())
}

// A module as text, or its fault.
fn add_answer(
    alloc: Global,
    out: &mut Bytes,
    answer: Result<Module, Refuse>,
) -> Result<(), Memory> {
    match answer {
        Ok(m) => add_module(alloc, out, &m),
        Err(Refuse::Memory) => Err(Memory),
        Err(Refuse::Fault(f)) => {
            out.append(
                format!(in alloc; "F {} {} ", f.line, f.code)?
                    .as_str()
                    .as_bytes(),
            )?;
            out.append(f.word.as_slice())
        }
    }
}

fn sections_of(alloc: Global, src: &Bytes) -> Result<Sections, Refuse> {
    if src.len() > 1_000_000 {
        return Err(Refuse::Memory);
    }
    split(alloc, src)
}

fn shown(alloc: Global, src: &Bytes) -> Result<Bytes, Memory> {
    let mut out = Bytes::new(alloc);
    match sections_of(alloc, src) {
        Ok(s) => add_answer(alloc, &mut out, read_module(alloc, &s))?,
        Err(_) => return Err(Memory),
    }
    Ok(out)
}

// An XSUB by its interface and its sum.
fn add_lines(src: &mut Bytes, interface: &[u8], sum: &[u8]) -> Result<(), Memory> {
    src.append(b"int\n")?;
    src.append(interface)?;
    src.append(b"\n  CODE:\n    RETVAL = ")?;
    src.append(sum)?;
    src.append(b";\n  OUTPUT:\n    RETVAL\n\n")
}

fn file_of(alloc: Global, short: &[u8]) -> Result<Bytes, Memory> {
    let mut src = Bytes::new(alloc);
    for line in short.split(|b| *b == b'\n') {
        if let [b'!', text @ ..] = line {
            let mut parts = text.split(|b| *b == b'|');
            let interface = parts.next().unwrap_or(b"".as_slice());
            add_lines(&mut src, interface, parts.next().unwrap_or(b"".as_slice()))?;
        } else {
            src.append(line)?;
            src.append(b"\n")?;
        }
    }
    Ok(src)
}

// Short files, and after `~` the module of each, or the line, code and word of its fault after `F`,
// with `/` for each line end.
const TABLE: &[u8] = b"\
    MODULE = M~M 1/\n\
    MODULE = M PACKAGE = M/!add(int a, int b)|a + b + 7~M 1/X 3 5 7 'M::add' add XS_M_add a@3 b@3 = $0 $1 7/\n\
    MODULE = M::N PACKAGE = A::B PREFIX = my_/!my_f(int a)|a/!g(int a)|2147483647~M::N 1/X 3 5 7 'A::B::f' my_f XS_A__B_f a@3 = $0/X 10 12 14 'A::B::g' g XS_A__B_g a@10 = 2147483647/\n\
    MODULE = M PREFIX = f/!f(int a)|0/!gf(int a)|a~M 1/X 3 5 7 '' f XS__ a@3 = 0/X 10 12 14 'gf' gf XS__gf a@10 = $0/\n\
    #include <x.h>//MODULE = M PACKAGE = A PREFIX = f/# a comment/!fg(int a)|a/=pod//=cut/MODULE = N PACKAGE = B/!fg(int a)|a~N 15/C 1 #include <x.h>/C 2 /X 6 8 10 'A::g' fg XS_A_g a@6 = $0/X 17 19 21 'B::fg' fg XS_B_fg a@17 = $0/\n\
    MODULE = M/!f(int a, int b, int a, int b)|a~F 3 303 a\n\
    MODULE = M/!f(int a, int b, int b, int a)|a~F 3 303 b\n\
    MODULE = M PACKAGE = M/!f(int a)|a/!f(int b)|b~F 10 407 M::f\n\
    MODULE = M PACKAGE = A::B/!f(int a)|a/MODULE = M PACKAGE = A/!_B_f(int a)|a~F 11 407 A::_B_f\n\
    MODULE = M PREFIX = p/!pf(int a)|a/!g(int a)|a/!f(int a)|a/!g(int a)|a~F 17 407 f\n\
    MODULE = M/!f(int a)|a/!f(int b, int b)|b~F 10 303 b\n\
    MODULE = M/!f(int a, int a)|a/void~F 9 999 \n\
    MODULE = M/TYPEMAP: <<E/x T_IV/E/!f(int a)|a~F 2 999 \n\
    MODULE = M/TYPEMAP: <<E/E~F 2 999 \n\
    MODULE = M/REQUIRE: 1//# c/TYPEMAP: <<E/# c/=pod/=cut/x T_IV/E~F 5 999 \n\
    MODULE = M/REQUIRE: 1//# c/void/f()~F 5 999 \n\
    #include <x.h>/int x;/MODULE = M/!f(int a, int a)|a/void~F 2 999 \n\
    #define PERL_NO_GET_CONTEXT/MODULE = M/!f(int a)|a~M 2/C 1 #define PERL_NO_GET_CONTEXT/X 4 6 8 'f' f XS__f a@4 = $0/\n\
    MODULE = M//BOOT:/    ;~F 3 999 \n\
    MODULE = M/!f()|1~F 2 999 \n\
    MODULE = M/!f(int a)|~F 2 999 \n\
    MODULE = M/!f(int a)|b~F 2 999 \n\
    MODULE = M/!f(int a)|a+1~F 2 999 \n\
    MODULE = M/!f(int a,int b)|a~F 2 999 \n\
    MODULE = M/!f(int a)|2147483648~F 2 999 \n\
    MODULE = M/!f(int a)|01~F 2 999 \n\
    MODULE = M/!f(int items)|1~F 2 999 \n\
    MODULE = M/int/f(int a)/CODE:/RETVAL = a;/OUTPUT:/RETVAL~M 1/X 3 5 7 'f' f XS__f a@3 = $0/\n\
    MODULE = M/int/f(int a)/\tCODE:/ RETVAL = a;/  OUTPUT:/    RETVAL/ //~M 1/X 3 5 7 'f' f XS__f a@3 = $0/\n\
    MODULE = M/int/f(int a)/  CODE :/    RETVAL = a;/  OUTPUT:/    RETVAL~F 2 999 ";

#[test]
fn table(rt: HostRuntime) -> Result<(), Fail> {
    let alloc = rt.alloc();
    let mut rows = 0usize;
    for row in TABLE.split(|b| *b == b'\n') {
        let (short, expected) = halves(row, b'~')?;
        let src = file_of(alloc, text_of(alloc, short)?.as_slice())?;
        let found = shown(alloc, &src)?;
        assert_eq!(rt; found.as_slice(), text_of(alloc, expected)?.as_slice());
        rows = rows.wrapping_add(1);
    }
    assert_eq!(rt; rows, 30);
    Ok(())
}

// An XSUB with so many parameters p0, p1 and so on and one more, and with so many terms.
fn large(alloc: Global, params: u32, last: &[u8], terms: u32) -> Result<Bytes, Memory> {
    let mut src = Bytes::from_slice(alloc, b"MODULE = M\n")?;
    let mut interface = Bytes::from_slice(alloc, b"f(")?;
    for at in 0..params {
        interface.append(format!(in alloc; "int p{at}, ")?.as_str().as_bytes())?;
    }
    interface.append(b"int ")?;
    interface.append(last)?;
    interface.append(b")")?;
    let mut sum = Bytes::from_slice(alloc, b"1")?;
    for _ in 1..terms {
        sum.append(b" + 1")?;
    }
    add_lines(&mut src, interface.as_slice(), sum.as_slice())?;
    Ok(src)
}

#[test]
fn limits(rt: HostRuntime) -> Result<(), Fail> {
    let alloc = rt.alloc();
    let most = shown(alloc, &large(alloc, 63, b"q", 32)?)?;
    assert!(rt;
        most.as_slice()
            .starts_with(b"M 1\nX 3 5 7 'f' f XS__f p0@3 p1@3 ")
    );
    let more_params = shown(alloc, &large(alloc, 64, b"q", 32)?)?;
    assert!(rt; more_params.as_slice() == b"F 3 304 ".as_slice());
    let twice = shown(alloc, &large(alloc, 64, b"p1", 1)?)?;
    assert!(rt; twice.as_slice() == b"F 3 303 p1".as_slice());
    let more_terms = shown(alloc, &large(alloc, 1, b"q", 33)?)?;
    assert!(rt; more_terms.as_slice() == b"F 2 999 ".as_slice());
    Ok(())
}
