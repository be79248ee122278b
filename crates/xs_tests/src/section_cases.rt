//! Cases that were worked out by hand and by another program, and the limit of paragraphs.
use crate::table_rows::{halves, text_of};
use std::alloc::Global;
use std::test::Fail;
use xs_base::{Bytes, Items, Line, Memory, Refuse};
use xs_sections::{Part, PartBody, Sections, split};

fn add_lines(alloc: Global, out: &mut Bytes, lines: &Items<Line>) -> Result<(), Memory> {
    for line in lines.as_slice() {
        out.append(format!(in alloc; "  {} ", line.number)?.as_str().as_bytes())?;
        out.append(line.text.as_slice())?;
        out.append(b"\n")?;
    }
    Ok(())
}

// The names and the lines of a part, after a mark of its form.
fn add_lines_of(
    alloc: Global,
    out: &mut Bytes,
    mark: &[u8],
    s: &Sections,
    part: &Part,
    lines: &Items<Line>,
) -> Result<(), Memory> {
    out.append(mark)?;
    out.append(b" ")?;
    if let Some(names) = s.modules.get(part.module) {
        out.append(names.module.as_slice())?;
    }
    out.append(b" ")?;
    out.append(s.package_of(part))?;
    out.append(b" ")?;
    out.append(s.prefix_of(part))?;
    out.append(b"\n")?;
    add_lines(alloc, out, lines)
}

fn add_part(alloc: Global, out: &mut Bytes, s: &Sections, part: &Part) -> Result<(), Memory> {
    match &part.body {
        PartBody::Para(lines) => add_lines_of(alloc, out, b"P", s, part, lines),
        PartBody::Map(lines) => {
            let mark = format!(in alloc; "M{}", part.line)?;
            add_lines_of(alloc, out, mark.as_str().as_bytes(), s, part, lines)
        }
    }
}

fn add_sections(alloc: Global, out: &mut Bytes, s: &Sections) -> Result<(), Memory> {
    out.append(b"S ")?;
    out.append(s.last_module())?;
    let line = s.module_line;
    out.append(format!(in alloc; " {line}\nC\n")?.as_str().as_bytes())?;
    add_lines(alloc, out, &s.c_part)?;
    for part in s.parts.as_slice() {
        add_part(alloc, out, s, part)?;
    }
    Ok(())
}

// How a file is split, as text: the C part, then the parts with the numbers and texts of their
// lines; or the fault.
fn shown(alloc: Global, src: &Bytes, limit: usize) -> Result<Bytes, Memory> {
    let mut out = Bytes::new(alloc);
    if src.len() > limit || limit > 1_000_000 {
        return Ok(out);
    }
    match split(alloc, src) {
        Ok(s) => add_sections(alloc, &mut out, &s)?,
        Err(Refuse::Memory) => return Err(Memory),
        Err(Refuse::Fault(f)) => {
            let (line, code) = (f.line, f.code);
            out.append(format!(in alloc; "F {line} {code} ")?.as_str().as_bytes())?;
            out.append(f.word.as_slice())?;
            out.append(b"\n")?;
        }
    }
    Ok(out)
}

// Files, and after `@` how each is split, with `/` for each line end: the C part after `S`, the
// module and the number of the last MODULE line; the parts after `P`, or `M` and the line of
// `TYPEMAP:`; or the line, code and word of the fault after `F`.
const TABLE: &[u8] = b"\
    @F 1 102 /\n\
    MODULE = M PACKAGE = M@S M 1/C/\n\
    =cut/MODULE = M@F 1 102 /\n\
    =cut/=cut/MODULE = M@S M 3/C/\n\
    =pod//=cut/int c;/MODULE = M/=head1 x/f()/=cut/int/g()@S M 5/C/  4 int c;/P M  /  9 int/  10 g()/\n\
    MODULE = M/int/=pod//void/=cut/f()@S M 1/C/P M  /  2 int/  7 f()/\n\
    MODULE = M/int/=pod/@F 3 105 /\n\
    = pod/ =pod/=1/MODULE = M@S M 4/C/  1 = pod/  2  =pod/  3 =1/\n\
    =pod/MODULE = N/=cutting/MODULE = M@S M 4/C/\n\
    MODULE = M/TYPEMAP: <<E/=pod/E/=cut/x T_IV/E@S M 1/C/M2 M  /  6 x T_IV/\n\
    MODULE = M/=pod/#define x/SCOPE: x/=cut@S M 1/C/\n\
    =pod\r/=cut\r/MODULE = M\r/int\r/f()\r/@S M 3/C/P M  /  4 int/  5 f()/\n\
    MODULE = M\r@F 1 103 /\n\
    MODULE\t=\tM\tPACKAGE\t=\tA::B\tPREFIX\t=\tp_\t/f()@S M 1/C/P M A::B p_/  2 f()/\n\
    \x20 MODULE=M@S M 1/C/\n\
    MODULE = M PREFIX = p PACKAGE = q@F 1 103 /\n\
    MODULE = M::@F 1 103 /\n\
    int x;/MODULE@F 2 103 /\n\
    MODULEX = M@F 1 102 /\n\
    int x;/MODULE = M PACKAGE = A PREFIX = p/int/f()/MODULE = N/int/g()@S N 5/C/  1 int x;/P M A p/  3 int/  4 f()/P N  /  6 int/  7 g()/\n\
    MODULE = M/int/f()/  CODE:/    MODULE = 3;@F 5 103 /\n\
    #define A/# c/MODULE = M@S M 3/C/  1 #define A/  2 # c/\n\
    MODULE = M/# hi/  #if 0/int/# c/f()@S M 1/C/P M  /  4 int/  6 f()/\n\
    MODULE = M/int/#if 0@F 3 104 /\n\
    MODULE = M/#\tdefine@F 2 104 /\n\
    MODULE = M/#iffy/#line x/#include x/#defined@S M 1/C/\n\
    MODULE = M/# line\t 3@F 2 104 /\n\
    MODULE = M/#include\t\"a\"@F 2 104 /\n\
    MODULE = M/ #include <a>@S M 1/C/\n\
    MODULE = M/int//# c/f()@S M 1/C/P M  /  2 int/  3 /P M  /  5 f()/\n\
    MODULE = M///int/f()//  CODE://    x;///void/g()/@S M 1/C/P M  /  4 int/  5 f()/  6 /  7   CODE:/  8 /  9     x;/  10 /  11 /P M  /  12 void/  13 g()/\n\
    MODULE = M/  int/f()@S M 1/C/P M  /  2   int/  3 f()/\n\
    MODULE = M/int/ \t/f()@S M 1/C/P M  /  2 int/  3  \t/P M  /  4 f()/\n\
    MODULE = M/BOOT: int a;/  a = 1;//  b = 2;//BOOT:/x@S M 1/C/P M  /  2 BOOT: int a;/  3   a = 1;/  4 /P M  /  5   b = 2;/  6 /P M  /  7 BOOT:/  8 x/\n\
    MODULE = M/PROTOTYPES: ENABLE/BOOT:/ x@S M 1/C/P M  /  3 BOOT:/  4  x/\n\
    MODULE = M/BOOT : x@S M 1/C/P M  /  2 BOOT : x/\n\
    typedef int foo_t;/MODULE = M/REQUIRE: 1.9/PROTOTYPES : ENABLE //TYPEMAP: <<\"E\";/foo_t T_IV/E/void/f(foo_t a)@S M 2/C/  1 typedef int foo_t;/M6 M  /  7 foo_t T_IV/P M  /  9 void/  10 f(foo_t a)/\n\
    MODULE = M/PROTOTYPES: ON@F 2 109 /\n\
    MODULE = M/REQUIRE: 1 2@F 2 109 /\n\
    MODULE = M/REQUIRE:@F 2 109 /\n\
    MODULE = M/FALLBACK: UNDEF/VERSIONCHECK:DISABLE@S M 1/C/\n\
    MODULE = M/void/f()/PROTOTYPES: ENABLE@S M 1/C/P M  /  2 void/  3 f()/  4 PROTOTYPES: ENABLE/\n\
    MODULE = M/SCOPE: ENABLE/void/f()@F 2 108 SCOPE/\n\
    MODULE = M/SETMAGIC::x/f()@S M 1/C/P M  /  2 SETMAGIC::x/  3 f()/\n\
    MODULE = M/ SCOPE: x@S M 1/C/P M  /  2  SCOPE: x/\n\
    MODULE = M/TYPEMAP: << E/E@F 2 109 /\n\
    MODULE = M/TYPEMAP: <<E/foo_t T_IV@F 2 106 /\n\
    MODULE = M/TYPEMAP: <<'E'/# c/MODULE = N//E /E@S M 1/C/M2 M  /  4 MODULE = N/  5 /  6 E /\n\
    MODULE = M/TYPEMAP: <<E;;/E@F 2 109 /\n\
    MODULE = M/TYPEMAP: <<\"E'/E@F 2 109 /\n\
    MODULE = M/TYPEMAP: <<E/#define x/E@F 3 104 /\n\
    MODULE = M/TYPEMAP: <<E/#define x@F 2 106 /\n\
    MODULE = M/PROTOTYPES: x/#if@F 2 109 /\n\
    MODULE = M/int/#if/=pod@F 3 104 /\n\
    MODULE x/MODULE = M/#if@F 1 103 /";

#[test]
fn table(rt: HostRuntime) -> Result<(), Fail> {
    let alloc = rt.alloc();
    let mut rows = 0usize;
    for row in TABLE.split(|b| *b == b'\n') {
        let (file, expected) = halves(row, b'@')?;
        let found = shown(alloc, &text_of(alloc, file)?, 1000)?;
        assert_eq!(rt; found.as_slice(), text_of(alloc, expected)?.as_slice());
        rows = rows.wrapping_add(1);
    }
    assert_eq!(rt; rows, 55);
    Ok(())
}

// A file with so many paragraphs of one line.
fn paragraphs(alloc: Global, n: u32) -> Result<Bytes, Memory> {
    let mut src = Bytes::from_slice(alloc, b"MODULE = M\n")?;
    for _ in 0..n {
        src.append(b"int\n\n")?;
    }
    Ok(src)
}

#[test]
fn limit(rt: HostRuntime) -> Result<(), Fail> {
    let alloc = rt.alloc();
    let all = paragraphs(alloc, 4096)?;
    assert!(rt;
        shown(alloc, &all, 100_000)?
            .as_slice()
            .starts_with(b"S M 1")
    );
    let more = paragraphs(alloc, 4097)?;
    assert!(rt; shown(alloc, &more, 100_000)?.as_slice() == b"F 8194 107 \n".as_slice());
    Ok(())
}
