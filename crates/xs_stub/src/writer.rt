//! The glue text of a module: the C by which Perl calls its XSUBs.
ghost use Rattle.std.specs.List.{flat_map};
ghost use Rattle.std.specs.Prelude.{◌≡◌, ◌++◌, IfOk, codes, slice_get};
ghost use Rattle.xs_stub.specs.Stub.{boot_text, c_line_text, declaration_text, end_text, glue_text, head_text, input_text, inputs_text, joined_names, name_of, name_or_nothing, registration_text, sum_text, term_text, work_text, xsub_text};

use std::alloc::Global;
use xs_base::{Bytes, Line, Memory, decimal_text, together};
use xs_iface::{Module, Param, Term, Xsub, underscored};

/// The glue text. Its layout is this project's own; what it calls is described in perlxs and
/// perlapi.
#[tactic(auto, unfolding(crate::specs::Stub::glue_text))]
pub fn write_glue(alloc: Global, m: &Module) -> Result<Bytes, Memory>
    ensures { IfOk result (λ text. text ≡ glue_text m.now) }
{
    let c_part = write_c_part(alloc, m.c_part.as_slice())?;
    let xsubs = write_xsubs(alloc, m.xsubs.as_slice())?;
    let boot = write_boot(alloc, m)?;
    let top = b"/* xsubpp glue, data model LP64 */\n".as_slice();
    together(
        alloc,
        &[top, c_part.as_slice(), xsubs.as_slice(), boot.as_slice()],
    )
}

// The lines of the C part as they stand.
#[tactic(auto, using(std::proofs::Common::append_assoc))]
fn write_c_part(alloc: Global, lines: &[Line]) -> Result<Bytes, Memory>
    ensures { IfOk result (λ text. text ≡ flat_map c_line_text lines.now) }
{
    let mut text = Bytes::new(alloc);
    for line in lines {
        text.append(line.text.as_slice())?;
        text.append(b"\n")?;
    }
    Ok(text)
}

#[tactic(auto, using(std::proofs::Common::append_assoc))]
fn write_xsubs(alloc: Global, xsubs: &[Xsub]) -> Result<Bytes, Memory>
    ensures { IfOk result (λ text. text ≡ flat_map xsub_text xsubs.now) }
{
    let mut text = Bytes::new(alloc);
    for xsub in xsubs {
        text.append(write_xsub(alloc, xsub)?.as_slice())?;
    }
    Ok(text)
}

// The glue function of an XSUB.
#[tactic(auto, unfolding(crate::specs::Stub::xsub_text, crate::specs::Stub::end_text))]
fn write_xsub(alloc: Global, x: &Xsub) -> Result<Bytes, Memory>
    ensures { IfOk result (λ text. text ≡ xsub_text x.now) }
{
    let head = write_head(alloc, x)?;
    let work = write_work(alloc, x)?;
    let end =
        b"        RETVALSV = sv_newmortal();\n        sv_setiv(RETVALSV, (IV)RETVAL);\n        ST(0) = RETVALSV;\n        XSRETURN(1);\n    }\n}\n".as_slice();
    together(alloc, &[head.as_slice(), work.as_slice(), end])
}

// The head of a glue function, with the test of the number of arguments.
#[tactic(auto, unfolding(crate::specs::Stub::head_text))]
fn write_head(alloc: Global, x: &Xsub) -> Result<Bytes, Memory>
    ensures { IfOk result (λ text. text ≡ head_text x.now) }
{
    let count = decimal_text(alloc, x.params.len() as u64)?;
    let names = write_names(alloc, x.params.as_slice())?;
    let begin = b"\nXS(".as_slice();
    let test = b")\n{\n    dXSARGS;\n    if (items != ".as_slice();
    let croak = b")\n        croak_xs_usage(cv, \"".as_slice();
    let block = b"\");\n    {\n".as_slice();
    together(
        alloc,
        &[
            begin,
            x.glue.as_slice(),
            test,
            count.as_slice(),
            croak,
            names.as_slice(),
            block,
        ],
    )
}

// The variables, the inputs, and the line of the sum.
#[tactic(auto, unfolding(crate::specs::Stub::work_text))]
fn write_work(alloc: Global, x: &Xsub) -> Result<Bytes, Memory>
    ensures { IfOk result (λ text. text ≡ work_text x.now) }
{
    let params = x.params.as_slice();
    let declarations = write_declarations(alloc, params)?;
    let inputs = write_inputs(alloc, params)?;
    let sum = write_sum(alloc, params, x.sum.as_slice())?;
    let result = b"        int RETVAL;\n        SV *RETVALSV;\n".as_slice();
    let assign = b"RETVAL = ".as_slice();
    let end = b";\n".as_slice();
    together(
        alloc,
        &[
            declarations.as_slice(),
            result,
            inputs.as_slice(),
            x.indent.as_slice(),
            assign,
            sum.as_slice(),
            end,
        ],
    )
}

/// The names of the parameters, joined by a comma and a space.
#[tactic(auto, using(std::proofs::Common::append_assoc))]
pub fn write_names(alloc: Global, params: &[Param]) -> Result<Bytes, Memory>
    ensures { IfOk result (λ text. text ≡ joined_names params.now) }
{
    let mut text = Bytes::new(alloc);
    if let [first, others @ ..] = params {
        text.append(first.name.as_slice())?;
        text.append(write_more_names(alloc, others)?.as_slice())?;
    }
    Ok(text)
}

#[tactic(auto, using(std::proofs::Common::append_assoc))]
fn write_more_names(alloc: Global, params: &[Param]) -> Result<Bytes, Memory>
    ensures { IfOk result (λ text. text
        ≡ flat_map (λ param. codes ", " ++ name_of param) params.now) }
{
    let mut text = Bytes::new(alloc);
    for param in params {
        text.append(b", ")?;
        text.append(param.name.as_slice())?;
    }
    Ok(text)
}

#[tactic(auto, using(std::proofs::Common::append_assoc))]
fn write_declarations(alloc: Global, params: &[Param]) -> Result<Bytes, Memory>
    ensures { IfOk result (λ text. text ≡ flat_map declaration_text params.now) }
{
    let mut text = Bytes::new(alloc);
    for param in params {
        text.append(write_declaration(alloc, param)?.as_slice())?;
    }
    Ok(text)
}

#[tactic(auto, unfolding(crate::specs::Stub::declaration_text))]
fn write_declaration(alloc: Global, param: &Param) -> Result<Bytes, Memory>
    ensures { IfOk result (λ text. text ≡ declaration_text param.now) }
{
    let kind = b"        int ".as_slice();
    let end = b";\n".as_slice();
    together(alloc, &[kind, param.name.as_slice(), end])
}

#[tactic(auto, using(std::proofs::Common::append_assoc))]
fn write_inputs(alloc: Global, params: &[Param]) -> Result<Bytes, Memory>
    ensures { IfOk result (λ text. text ≡ inputs_text 0 params.now) }
{
    let mut text = Bytes::new(alloc);
    let mut index: u64 = 0;
    for param in params {
        text.append(write_input(alloc, index, param)?.as_slice())?;
        index += 1;
    }
    Ok(text)
}

#[tactic(auto, unfolding(crate::specs::Stub::input_text))]
fn write_input(alloc: Global, index: u64, param: &Param) -> Result<Bytes, Memory>
    ensures { IfOk result (λ text. text ≡ input_text index param.now) }
{
    let at = decimal_text(alloc, index)?;
    let begin = b"        ".as_slice();
    let read = b" = (int)SvIV(ST(".as_slice();
    let end = b"));\n".as_slice();
    together(
        alloc,
        &[begin, param.name.as_slice(), read, at.as_slice(), end],
    )
}

// The terms of a sum, joined by a plus.
#[tactic(auto, using(std::proofs::Common::append_assoc))]
fn write_sum(alloc: Global, params: &[Param], terms: &[Term]) -> Result<Bytes, Memory>
    ensures { IfOk result (λ text. text ≡ sum_text params.now terms.now) }
{
    let mut text = Bytes::new(alloc);
    if let [first, others @ ..] = terms {
        text.append(write_term(alloc, params, *first)?.as_slice())?;
        text.append(write_more_terms(alloc, params, others)?.as_slice())?;
    }
    Ok(text)
}

#[tactic(auto, using(std::proofs::Common::append_assoc))]
fn write_more_terms(alloc: Global, params: &[Param], terms: &[Term]) -> Result<Bytes, Memory>
    ensures { IfOk result (λ text. text
        ≡ flat_map (λ term. codes " + " ++ term_text params.now term) terms.now) }
{
    let mut text = Bytes::new(alloc);
    for term in terms {
        text.append(b" + ")?;
        text.append(write_term(alloc, params, *term)?.as_slice())?;
    }
    Ok(text)
}

/// The name of the parameter of this index, which a term of a module has always.
pub fn name_at(params: &[Param], at: u32) -> &[u8]
    ensures { result.now ≡ name_or_nothing (slice_get params.now at) }
{
    match params.get(at as usize) {
        Some(param) => param.name.as_slice(),
        None => b"",
    }
}

fn write_term(alloc: Global, params: &[Param], term: Term) -> Result<Bytes, Memory>
    ensures { IfOk result (λ text. text ≡ term_text params.now term) }
{
    match term {
        Term::Parameter(at) => Bytes::from_slice(alloc, name_at(params, at)),
        Term::Literal(value) => decimal_text(alloc, u64::from(value)),
    }
}

// The boot function.
#[tactic(auto, unfolding(crate::specs::Stub::boot_text))]
fn write_boot(alloc: Global, m: &Module) -> Result<Bytes, Memory>
    ensures { IfOk result (λ text. text ≡ boot_text m.now) }
{
    let boot = underscored(alloc, m.boot.as_slice())?;
    let registrations = write_registrations(alloc, m.xsubs.as_slice())?;
    let begin = b"\nXS(boot_".as_slice();
    let block = b")\n{\n    dXSARGS;\n".as_slice();
    let end = b"    XSRETURN_YES;\n}\n".as_slice();
    together(
        alloc,
        &[begin, boot.as_slice(), block, registrations.as_slice(), end],
    )
}

#[tactic(auto, using(std::proofs::Common::append_assoc))]
fn write_registrations(alloc: Global, xsubs: &[Xsub]) -> Result<Bytes, Memory>
    ensures { IfOk result (λ text. text ≡ flat_map registration_text xsubs.now) }
{
    let mut text = Bytes::new(alloc);
    for xsub in xsubs {
        text.append(write_registration(alloc, xsub)?.as_slice())?;
    }
    Ok(text)
}

#[tactic(auto, unfolding(crate::specs::Stub::registration_text))]
fn write_registration(alloc: Global, x: &Xsub) -> Result<Bytes, Memory>
    ensures { IfOk result (λ text. text ≡ registration_text x.now) }
{
    let begin = b"    newXS_deffile(\"".as_slice();
    let comma = b"\", ".as_slice();
    let end = b");\n".as_slice();
    together(
        alloc,
        &[begin, x.full.as_slice(), comma, x.glue.as_slice(), end],
    )
}
