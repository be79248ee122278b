//! The faults of parameters by what stands before them.
ghost use Rattle.std.specs.Prelude.{◌≡◌, [], IfOk};
ghost use Rattle.xs_base.specs.Faults.{first_fault};
ghost use Rattle.xs_params.specs.ParamLists as spec;

use crate::param::{Dir, Param};
use std::alloc::Global;
use xs_base::fault_codes::{DEFAULT_BEFORE_PLAIN, PARAMETER_TWICE, TOO_MANY_PARAMETERS};
use xs_base::{Bytes, Fault, FileOf, Memory};

/// How many parameters an XSUB may have.
const MOST_PARAMS: usize = 64;

fn same_text(a: &Bytes, b: &Bytes) -> bool
    ensures { result ≡ spec.same_text a.now b.now }
{
    a.as_slice() == b.as_slice()
}

// Whether two parameters have one name.
fn same_name(p: &Param, q: &Param) -> bool
    ensures { result ≡ spec.same_name p.now q.now }
{
    if p.is_length {
        q.is_length && same_text(&p.name, &q.name)
    } else {
        !q.is_length && same_text(&p.name, &q.name)
    }
}

fn is_repeated(before: &[Param], p: &Param) -> bool
    ensures { result ≡ spec.is_repeated before.now p.now }
{
    for q in before {
        if same_name(q, p) {
            return true;
        }
    }
    false
}

// Whether an argument stands for the parameter.
fn in_signature(p: &Param) -> bool
    ensures { result ≡ spec.in_signature p.now }
{
    !p.is_length && p.dir != Dir::OutList
}

fn has_default(p: &Param) -> bool
    ensures { result ≡ spec.has_default p.now }
{
    p.default.is_some()
}

fn have_default(before: &[Param]) -> bool
    ensures { result ≡ spec.have_default before.now }
{
    for q in before {
        if has_default(q) {
            return true;
        }
    }
    false
}

// Whether an argument stands for it and it has no default, where one before it has one.
fn is_plain_after(before: &[Param], p: &Param) -> bool
    ensures { result ≡ spec.is_plain_after before.now p.now }
{
    in_signature(p) && !has_default(p) && have_default(before)
}

// A fault with the name of a parameter.
fn named_fault(alloc: Global, p: &Param, code: u16) -> Result<Fault, Memory>
    ensures { IfOk result (λ fault. fault ≡ spec.fault_at p.now.line code p.now.name) }
{
    let word = p.name.copy(alloc)?;
    Ok(Fault::new(FileOf::Xs, p.line, code, word))
}

// The fault of a parameter after others.
fn param_fault(alloc: Global, before: &[Param], p: &Param) -> Result<Option<Fault>, Memory>
    ensures { IfOk result (λ fault. fault ≡ spec.param_fault before.now p.now) }
{
    if is_repeated(before, p) {
        Ok(Some(named_fault(alloc, p, PARAMETER_TWICE)?))
    } else if before.len() >= MOST_PARAMS {
        Ok(Some(Fault::bare(alloc, FileOf::Xs, p.line, TOO_MANY_PARAMETERS)))
    } else if is_plain_after(before, p) {
        Ok(Some(named_fault(alloc, p, DEFAULT_BEFORE_PLAIN)?))
    } else {
        Ok(None)
    }
}

/// The first fault of parameters: each is held against those before it.
pub fn first_param_fault(alloc: Global, params: &[Param]) -> Result<Option<Fault>, Memory>
    ensures { IfOk result (λ fault. fault ≡ first_fault spec.param_fault [] params.now) }
{
    for at in 0..params.len() {
        let (before, _after) = params.split_at(at);
        let fault = param_fault(alloc, before, &params[at])?;
        if fault.is_some() {
            return Ok(fault);
        }
    }
    Ok(None)
}
