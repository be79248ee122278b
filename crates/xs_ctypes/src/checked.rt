//! The faults of parts are collected, and the first of them is told.
ghost use Rattle.std.specs.Prelude.{◌≡◌, Some};
ghost use Rattle.xs_ctypes.specs.Checked as spec;
ghost use Rattle.xs_ctypes.specs.Joining as join;

use xs_base::{Fault, Memory, Refuse};

// Whether a line stands before another; line 0, which is no line of a text, stands behind all.
fn is_line_before(a: u32, b: u32) -> bool
    ensures { result ≡ spec.is_line_before a b }
{
    a != 0 && (b == 0 || a < b)
}

fn is_before(f: &Fault, g: &Fault) -> bool
    ensures { result ≡ spec.is_before f.now g.now }
{
    is_line_before(f.line, g.line) || (f.line == g.line && f.code < g.code)
}

// Of two faults, which stand in the order of the text, the one that is told.
fn lesser(f: Fault, g: Fault) -> Fault
    ensures { result ≡ spec.lesser f g }
{
    if is_before(&g, &f) { g } else { f }
}

// Of two refusals the one that is told.
fn first_refusal(e: Refuse, d: Refuse) -> Refuse
    ensures { result ≡ join.first_refusal e d }
{
    match e {
        Refuse::Memory => Refuse::Memory,
        Refuse::Fault(f) => match d {
            Refuse::Memory => Refuse::Memory,
            Refuse::Fault(g) => Refuse::Fault(lesser(f, g)),
        },
    }
}

/// Two parts, both of which were looked at.
pub fn both<A: Drop, B: Drop>(
    first: Result<A, Refuse>,
    second: Result<B, Refuse>,
) -> Result<(A, B), Refuse>
    ensures { result ≡ join.joined first second }
{
    match first {
        Ok(a) => match second {
            Ok(b) => Ok((a, b)),
            Err(e) => Err(e),
        },
        Err(e) => match second {
            Ok(_) => Err(e),
            Err(d) => Err(first_refusal(e, d)),
        },
    }
}

/// The first fault of a list, with one fault more at its end.
pub fn first_of(least: Option<Fault>, fault: Fault) -> Fault
    ensures { result ≡ join.first_of least fault }
{
    match least {
        None => fault,
        Some(first) => lesser(first, fault),
    }
}

/// Takes a part of a list up: it is added where it is good, and its fault is noted where not.
pub fn take_up<X: Drop>(
    good: &mut Vec<X>,
    least: Option<Fault>,
    part: Result<X, Refuse>,
) -> Result<Option<Fault>, Memory>
    ensures { join.TakesUp good.old.items least part good.new.items result }
{
    match part {
        Ok(x) => {
            good.push(x)?;
            Ok(least)
        }
        Err(Refuse::Fault(fault)) => Ok(Some(first_of(least, fault))),
        Err(Refuse::Memory) => Err(Memory),
    }
}

/// Notes a part that is nothing but checked.
pub fn noted(least: Option<Fault>, part: Result<(), Refuse>) -> Result<Option<Fault>, Memory>
    ensures { join.Notes least part result }
{
    match part {
        Ok(()) => Ok(least),
        Err(Refuse::Fault(fault)) => Ok(Some(first_of(least, fault))),
        Err(Refuse::Memory) => Err(Memory),
    }
}

/// What a list comes to.
pub fn settled<X: Drop>(good: X, least: Option<Fault>) -> Result<X, Refuse>
    ensures { result ≡ join.settled good least }
{
    match least {
        None => Ok(good),
        Some(fault) => Err(Refuse::Fault(fault)),
    }
}
