//! The parameters and terms of an XSUB.
ghost use Rattle.std.specs.Prelude.{◌≡◌, IfOk, map};
ghost use Rattle.xs_base.specs.Reading.{Gives, collect};
ghost use Rattle.xs_iface.specs.Iface.{interface_fault, param_at, param_fault, xsub_of};

use crate::drafts::Draft;
use crate::paragraph::Paragraph;
use crate::terms::read_terms;
use crate::xsub::{Param, Xsub};
use std::alloc::Global;
use xs_base::fault_codes::{PARAMETER_TWICE, TOO_MANY_PARAMETERS};
use xs_base::{Bytes, Fault, FileOf, Items, Memory, Refuse, is_among_names};

/// How many parameters an XSUB may have.
pub const MOST_PARAMS: usize = 64;

// The fault of a parameter after others: its name is that of one of them, or they are as many as
// may be.
fn param_fault(
    alloc: Global,
    line: u32,
    before: &[Bytes],
    name: &Bytes,
) -> Result<Option<Fault>, Memory>
    ensures { IfOk result (λ fault. fault ≡ param_fault line before.now name.now) }
{
    if is_among_names(before, name.as_slice()) {
        Ok(Some(Fault::new(FileOf::Xs, line, PARAMETER_TWICE, name.copy(alloc)?)))
    } else if before.len() >= MOST_PARAMS {
        Ok(Some(Fault::bare(alloc, FileOf::Xs, line, TOO_MANY_PARAMETERS)))
    } else {
        Ok(None)
    }
}

// The first fault of the parameters.
fn interface_fault(alloc: Global, paragraph: &Paragraph) -> Result<Option<Fault>, Memory>
    ensures { IfOk result (λ fault. fault ≡ interface_fault paragraph.now) }
{
    let params = paragraph.params.as_slice();
    for at in 0..params.len() {
        let (before, _after) = params.split_at(at);
        let fault = param_fault(alloc, paragraph.line, before, &params[at])?;
        if fault.is_some() {
            return Ok(fault);
        }
    }
    Ok(None)
}

// The parameters, all of the interface line.
fn params_at(alloc: Global, line: u32, names: &[Bytes]) -> Result<Items<Param>, Memory>
    ensures { IfOk result (λ params. params ≡ map (param_at line) names.now) }
{
    let mut params = Items::new(alloc);
    for name in names {
        params.push(Param {
            name: name.copy(alloc)?,
            line,
        })?;
    }
    Ok(params)
}

// An XSUB, or the first fault of its interface.
#[tactic(auto, using(crate::proofs::Apart::few_params))]
fn read_xsub(alloc: Global, draft: &Draft) -> Result<Xsub, Refuse>
    ensures { Gives result (xsub_of draft.now) }
{
    let paragraph = &draft.paragraph;
    if let Some(fault) = interface_fault(alloc, paragraph)? {
        return Err(Refuse::Fault(fault));
    }
    let names = paragraph.params.as_slice();
    Ok(Xsub {
        line: paragraph.line,
        full: draft.full.copy(alloc)?,
        c_name: paragraph.function.copy(alloc)?,
        glue: draft.glue.copy(alloc)?,
        params: params_at(alloc, paragraph.line, names)?,
        code_line: paragraph.code_line,
        indent: paragraph.indent.copy(alloc)?,
        sum: read_terms(alloc, names, paragraph.words.as_slice())?,
        output_line: paragraph.output_line,
    })
}

/// All XSUBs, or the fault of the first that has one in its interface.
pub fn read_xsubs(alloc: Global, drafts: &[Draft]) -> Result<Items<Xsub>, Refuse>
    ensures { Gives result (collect xsub_of drafts.now) }
{
    let mut xsubs = Items::new(alloc);
    for draft in drafts {
        let xsub = read_xsub(alloc, draft)?;
        xsubs.push(xsub)?;
    }
    Ok(xsubs)
}
