//! The intended tree of a small module.
use std::alloc::Global;
use std::test::Fail;
use xs_base::{Bytes, Items, Memory, Refuse};
use xs_csyn::FileItem;
use xs_iface::{Module, Param, Term, Xsub};
use xs_stub::glue_tree;

// An XSUB of one parameter, with its interface on this line.
fn xsub(alloc: Global, line: u32, name: &str) -> Result<Xsub, Memory> {
    let full = format!(in alloc; "M::{name}")?;
    let glue = format!(in alloc; "XS_M_{name}")?;
    let mut params = Items::new(alloc);
    let param = Bytes::from_slice(alloc, b"p")?;
    params.push(Param { name: param, line })?;
    let mut sum = Items::new(alloc);
    sum.push(Term::Parameter(0))?;
    Ok(Xsub {
        line,
        full: Bytes::from_slice(alloc, full.as_bytes())?,
        c_name: Bytes::from_slice(alloc, name.as_bytes())?,
        glue: Bytes::from_slice(alloc, glue.as_bytes())?,
        params,
        code_line: line,
        indent: Bytes::new(alloc),
        sum,
        output_line: line,
    })
}

fn module(alloc: Global) -> Result<Module, Memory> {
    let mut xsubs = Items::new(alloc);
    xsubs.push(xsub(alloc, 5, "one")?)?;
    xsubs.push(xsub(alloc, 13, "two")?)?;
    Ok(Module {
        boot: Bytes::from_slice(alloc, b"My::M")?,
        boot_line: 3,
        c_part: Items::new(alloc),
        xsubs,
    })
}

// The line, the name and the number of statements of each function.
fn functions(alloc: Global, m: &Module) -> Result<Bytes, Refuse> {
    let mut out = Bytes::new(alloc);
    let tree = glue_tree(alloc, m)?;
    for item in tree.items.as_slice() {
        let FileItem::XsFun(function) = item else {
            continue;
        };
        let head = format!(in alloc; "{} {} ", function.line, function.body.len())?;
        out.append(head.as_bytes())?;
        out.append(function.name.as_slice())?;
        out.append(b"\n")?;
    }
    Ok(out)
}

#[test]
fn two_xsubs(rt: HostRuntime) -> Result<(), Fail> {
    let m = module(rt.alloc())?;
    let Ok(out) = functions(rt.alloc(), &m) else {
        return Err(Fail::from("no tree"));
    };
    assert!(rt; out.as_slice() == b"5 3 XS_M_one\n13 3 XS_M_two\n3 4 boot_My__M\n".as_slice());
    Ok(())
}
