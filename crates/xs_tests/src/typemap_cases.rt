//! Typemaps that were worked out by hand and by another program. Each is merged after the core
//! typemap, and then asked for types and code.
use std::alloc::Global;
use std::test::Fail;
use xs_base::{Bytes, FileOf, Memory, Refuse, lines};
use xs_typemap::{Code, Typemap, core_typemap, merge, read_typemap};

// The line of the kind's name, how many lines the code has, and the lines.
fn add_code(alloc: Global, out: &mut Bytes, code: Option<&Code>) -> Result<(), Memory> {
    let Some(code) = code else {
        return out.append(b"none\n");
    };
    let (line, count) = (code.line, code.lines.len());
    out.append(format!(in alloc; "{line} {count}\n")?.as_str().as_bytes())?;
    for text in code.lines.as_slice() {
        out.append(text.as_slice())?;
        out.append(b"\n")?;
    }
    Ok(())
}

// What a typemap has for a type, for `I` and a kind, or for `O` and a kind.
fn add_answer(alloc: Global, out: &mut Bytes, held: &Typemap, word: &[u8]) -> Result<(), Memory> {
    match word {
        [b'I', b' ', kind @ ..] => {
            add_code(
                alloc,
                out,
                held.code(&Bytes::from_slice(alloc, kind)?, true),
            )
        }
        [b'O', b' ', kind @ ..] => {
            add_code(
                alloc,
                out,
                held.code(&Bytes::from_slice(alloc, kind)?, false),
            )
        }
        _ => {
            let ctype = Bytes::from_slice(alloc, word)?;
            let kind = match held.find(&ctype) {
                Some(kind) => kind.as_slice(),
                None => b"none",
            };
            out.append(kind)?;
            out.append(b"\n")
        }
    }
}

// The core typemap with the entries of a text after it.
fn typemap_of(alloc: Global, src: &Bytes) -> Result<Typemap, Refuse> {
    let mut held = core_typemap(alloc)?;
    if src.len() < 1_000_000 {
        let read = read_typemap(alloc, lines(alloc, src)?.as_slice(), FileOf::Typemap)?;
        merge(&mut held, read)?;
    }
    Ok(held)
}

fn shown(alloc: Global, src: &[u8], words: &[u8]) -> Result<Bytes, Memory> {
    let mut out = Bytes::new(alloc);
    match typemap_of(alloc, &Bytes::from_slice(alloc, src)?) {
        Err(Refuse::Memory) => return Err(Memory),
        Err(Refuse::Fault(f)) => {
            let (line, code) = (f.line, f.code);
            out.append(format!(in alloc; "F {line} {code}\n")?.as_str().as_bytes())?;
        }
        Ok(held) => {
            for word in words.split(|b| *b == b'\n') {
                add_answer(alloc, &mut out, &held, word)?;
            }
        }
    }
    Ok(out)
}

// Typemaps, what is asked, and the answers: kinds, and code with its line and its lines; or the
// line and the code of the fault after `F`.
static CASES: [(&str, &str, &str); 30] = [
    (
        "",
        "int\nI T_IV\nO T_BOOL\nO T_SYSRET\nI T_SYSRET\nI T_NONE\nnone",
        "T_IV\n0 1\n\t$var = ($type)SvIV($arg)\n0 1\n\t$arg = boolSV($var)\n0 4\n\tif ($var != -1) {\n\tif ($var == 0) sv_setpvn($arg, \"0 but true\", 10);\n\telse sv_setiv($arg, (IV)$var);\n\t}\nnone\nnone\nnone\n",
    ),
    ("  int   T_UV  ", "int", "T_UV\n"),
    ("foo_t T_F\nfoo_t T_G", "foo_t", "T_G\n"),
    ("# c\n \t\n#x T_Y\nfoo_t\tT_F", "foo_t\n#x", "T_F\nnone\n"),
    ("foo_t T_F\n # c", "foo_t", "F 2 201\n"),
    ("const  char**T_P", "", "F 1 201\n"),
    ("const  char * *\tT_P", "const char **", "T_P\n"),
    ("unsigned\t long  long T_U", "unsigned long long", "T_U\n"),
    ("* T_P", "", "F 1 201\n"),
    ("a * b T_P", "", "F 1 201\n"),
    ("9x T_P", "", "F 1 201\n"),
    ("x 9T", "", "F 1 201\n"),
    ("T_P", "", "F 1 201\n"),
    ("Foo::Bar T_P", "", "F 1 201\n"),
    ("x T_P ;", "", "F 1 201\n"),
    (
        "TYPEMAP\nx T_X\nINPUT\nT_X\n\t$var = 1;\nOUTPUT \t\nT_X  \n  a\n\n# c\n # d\n\tb\nTYPEMAP\ny T_X",
        "x\ny\nI T_X\nO T_X",
        "T_X\nT_X\n4 1\n\t$var = 1;\n7 3\n  a\n # d\n\tb\n",
    ),
    ("INPUT\nT_F x\n\t$var = 1;", "", "F 2 201\n"),
    ("INPUT\n\t$var = 1;", "", "F 2 202\n"),
    ("INPUT\nT_X\nOUTPUT\n\tx", "", "F 4 202\n"),
    ("INPUT\nT_X\nINPUT\n\tx", "", "F 4 202\n"),
    ("INPUT\nT_X\nOUTPUT", "I T_X\nO T_X", "2 0\nnone\n"),
    (" INPUT", "", "F 1 201\n"),
    ("INPUT x", "INPUT\nx", "x\nnone\n"),
    ("INPUT\nT_A\n INPUT", "I T_A", "2 1\n INPUT\n"),
    ("INPUT\nT_A\n1\n", "", "F 3 201\n"),
    (
        "INPUT\nT_A\n\t1\nT_A\n\t2\nT_IV\n\t3",
        "I T_A\nI T_IV\nO T_IV",
        "4 1\n\t2\n6 1\n\t3\n0 1\n\tsv_setiv($arg, (IV)$var)\n",
    ),
    ("INPUT\nT_A\n\t1\nTYPEMAP\nint\n", "", "F 5 201\n"),
    (
        "char *\tT_MINE\nOUTPUT\nT_PV\n\t\\\"$var\\\"",
        "char *\nconst char *\nO T_PV\nI T_PV",
        "T_MINE\nT_PV\n3 1\n\t\\\"$var\\\"\n0 1\n\t$var = ($type)SvPV_nolen($arg)\n",
    ),
    ("x T_X\r", "", "F 1 201\n"),
    (
        "SV * T_IV\nint T_SV",
        "SV *\nint\nI T_PTROBJ\nO T_PTROBJ\nI T_AVREF",
        "T_IV\nT_SV\n0 2\n\tif (SvROK($arg) && sv_derived_from($arg, \"$ntype\")) $var = INT2PTR($type, SvIV(SvRV($arg)));\n\telse croak(\"%s: %s is not of type %s\", \"$pname\", \"$var\", \"$ntype\");\n0 1\n\tsv_setref_pv($arg, \"$ntype\", (void *)$var)\n0 2\n\tif (SvROK($arg) && SvTYPE(SvRV($arg)) == SVt_PVAV) $var = (AV *)SvRV($arg);\n\telse croak(\"%s: %s is not an ARRAY reference\", \"$pname\", \"$var\");\n",
    ),
];

#[test]
fn table(rt: HostRuntime) -> Result<(), Fail> {
    let alloc = rt.alloc();
    for (src, words, expected) in CASES {
        assert!(rt;
            shown(alloc, src.as_bytes(), words.as_bytes())?.as_slice() == expected.as_bytes(),
            "{src}"
        );
    }
    Ok(())
}
