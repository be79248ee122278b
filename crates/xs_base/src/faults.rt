//! Which of two faults is the first.
ghost use Rattle.std.specs.Prelude.{◌≡◌, MatchOption};
ghost use Rattle.xs_base.specs.Faults as spec;
ghost use Rattle.xs_base.specs.Reading.{Gives};

use crate::{Fault, Refuse};

/// Whether a fault is reported before another: at a lesser line, or at the same line with a lesser
/// code.
pub fn is_before(fault: &Fault, other: &Fault) -> bool
    ensures { result ≡ spec.is_before fault.now other.now }
{
    fault.line < other.line || fault.line == other.line && fault.code < other.code
}

/// The earlier of two faults, of which the first may be missing; of two at one place and with one
/// code the first.
pub fn earlier(first: Option<Fault>, fault: Fault) -> Option<Fault>
    ensures { result ≡ spec.earlier first fault }
{
    match first {
        None => Some(fault),
        Some(old) => {
            if is_before(&fault, &old) {
                Some(fault)
            } else {
                Some(old)
            }
        }
    }
}

/// A value, or the fault where there is one.
pub fn unless_fault<T: Drop>(fault: Option<Fault>, value: T) -> Result<T, Refuse>
    ensures { Gives result (spec.unless_fault fault value) }
{
    match fault {
        None => Ok(value),
        Some(fault) => Err(Refuse::Fault(fault)),
    }
}
