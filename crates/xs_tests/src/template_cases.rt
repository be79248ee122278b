//! Templates that were worked out by hand and by another program, and what they expand to.
use std::alloc::Global;
use std::test::Fail;
use xs_base::{Bytes, FileOf, Items, Memory, Refuse};
use xs_template::{Names, Template, check_template, expand};
use xs_typemap::Code;

// Code that begins on line 7 of a typemap file.
fn code_of(alloc: Global, text: &[u8]) -> Result<Code, Memory> {
    let mut lines = Items::new(alloc);
    for line in text.split(|b| *b == b'\n') {
        lines.push(Bytes::from_slice(alloc, line)?)?;
    }
    Ok(Code {
        file: FileOf::Typemap,
        line: 7,
        lines,
    })
}

fn names(alloc: Global) -> Result<Names, Memory> {
    Ok(Names {
        var: Bytes::from_slice(alloc, b"v")?,
        arg: Bytes::from_slice(alloc, b"ST(0)")?,
        ctype: Bytes::from_slice(alloc, b"char *")?,
        ntype: Bytes::from_slice(alloc, b"charPtr")?,
        package: Bytes::from_slice(alloc, b"My::P")?,
        func_name: Bytes::from_slice(alloc, b"c_f")?,
        pname: Bytes::from_slice(alloc, b"My::P::f")?,
        argoff: 12,
    })
}

// The form of a template, and what it expands to.
fn add_template(alloc: Global, out: &mut Bytes, template: &Template) -> Result<(), Memory> {
    out.append(if template.is_assignment() {
        b"A "
    } else {
        b"S "
    })?;
    out.append(expand(alloc, template, &names(alloc)?)?.as_slice())
}

fn shown(alloc: Global, text: &[u8]) -> Result<Bytes, Memory> {
    let mut out = Bytes::new(alloc);
    match check_template(alloc, &code_of(alloc, text)?) {
        Ok(template) => add_template(alloc, &mut out, &template)?,
        Err(Refuse::Memory) => return Err(Memory),
        Err(Refuse::Fault(f)) => {
            let (line, code) = (f.line, f.code);
            out.append(format!(in alloc; "F {line} {code} ")?.as_str().as_bytes())?;
            out.append(f.word.as_slice())?;
        }
    }
    Ok(out)
}

// Templates, and what each expands to after `A` for an assignment and `S` for a statement; or the
// line, code and word of the fault after `F`.
static CASES: [(&str, &str); 52] = [
    ("", "S "),
    ("plain", "S plain"),
    ("$var = ($type)SvIV($arg)", "S v = (char *)SvIV(ST(0))"),
    (
        "sv_setpv($arg, \\\"$ntype\\\")",
        "S sv_setpv(ST(0), \"charPtr\")",
    ),
    (
        "$Package $func_name $pname $argoff",
        "S My::P c_f My::P::f 12",
    ),
    (
        "${var}x${arg}${type}${ntype}${Package}${func_name}${pname}${argoff}",
        "S vxST(0)char *charPtrMy::Pc_fMy::P::f12",
    ),
    ("$varx", "F 7 601 $varx"),
    ("$var_", "F 7 601 $var_"),
    ("$var9", "F 7 601 $var9"),
    ("$var-x", "S v-x"),
    ("$arg$var", "S ST(0)v"),
    ("$$var", "F 7 601 $"),
    ("$", "F 7 601 $"),
    ("a $ b", "F 7 601 $"),
    ("${", "F 7 601 ${"),
    ("${ var }", "F 7 601 ${"),
    ("${varx}", "F 7 601 ${"),
    ("${var", "F 7 601 ${"),
    ("${}", "F 7 601 ${"),
    ("$package", "F 7 601 $package"),
    ("$ntypes", "F 7 601 $ntypes"),
    ("$1", "F 7 601 $1"),
    ("\\$var", "S $var"),
    ("\\\\$var", "S \\v"),
    ("\\\\\\$x", "S \\$x"),
    ("\\n \\", "S \\n \\"),
    ("\\", "S \\"),
    ("\\${var}", "S ${var}"),
    ("\"$var\"", "S \"v\""),
    ("\t$arg = $var;", "A \tST(0) = v;"),
    ("$arg=$var", "A ST(0)=v"),
    ("$arg == $var", "S ST(0) == v"),
    ("$arg\n\t= 1", "A ST(0)\n\t= 1"),
    ("  \n\t${arg} \n =\n1", "A   \n\tST(0) \n =\n1"),
    ("x $arg = 1", "S x ST(0) = 1"),
    ("$arg", "S ST(0)"),
    ("$arg =", "A ST(0) ="),
    ("$arg ==", "S ST(0) =="),
    ("$arg + 1", "S ST(0) + 1"),
    ("$var = $arg", "S v = ST(0)"),
    ("$arg\r= 1", "S ST(0)\r= 1"),
    ("\\\"$arg = 1", "S \"ST(0) = 1"),
    ("$arg $var = 1", "S ST(0) v = 1"),
    ("\n\n", "S \n\n"),
    ("line\n$var\n\tline", "S line\nv\n\tline"),
    ("$var\\", "S v\\"),
    ("\\x$var", "S \\xv"),
    ("$\\", "F 7 601 $"),
    ("${var}}", "S v}"),
    ("{$var}", "S {v}"),
    ("$arg\\$", "S ST(0)$"),
    ("$arg[0]", "S ST(0)[0]"),
];

#[test]
fn table(rt: HostRuntime) -> Result<(), Fail> {
    let alloc = rt.alloc();
    for (text, expected) in CASES {
        assert!(rt;
            shown(alloc, text.as_bytes())?.as_slice() == expected.as_bytes(),
            "{text}"
        );
    }
    Ok(())
}
