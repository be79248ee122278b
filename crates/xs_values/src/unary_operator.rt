//! C's operators with one operand.
ghost use Rattle.std.specs.Prelude.{◌≡◌, ◌-◌, ◌≤ℤ◌, ◌^◌, neg_ℤ, pos};
ghost use Rattle.xs_values.specs.Kinds.{promoted};
ghost use Rattle.xs_values.specs.Numbers.{calculated_unary, settled, unary_kind_of};

use crate::kind::promote;
use crate::number::held;
use crate::operator::{settle, truth_number};
use crate::{CInt, Kind, Trap, wrap};

/// An operator of C with one operand, which it promotes first (C11 6.5.3.3).
#[derive(Clone, Copy, Debug, PartialEq, Eq)]
pub enum UnOp {
    /// `+`
    Plus,
    /// `-`
    Minus,
    /// `~`
    Complement,
    /// `!`
    Not,
}

/// The kind of what an operator gives.
pub fn unary_kind(op: UnOp, a: Kind) -> Kind
    ensures { result ≡ unary_kind_of op a }
{
    match op {
        UnOp::Plus | UnOp::Minus | UnOp::Complement => promote(a),
        UnOp::Not => Kind::I32,
    }
}

/// What an operator gives. `-` of the least number of a signed kind traps Overflow, and of an
/// unsigned number it wraps; `!` gives 1 for 0 and 0 for any other number, of kind I32.
pub fn unary(op: UnOp, a: CInt) -> Result<CInt, Trap>
    ensures { result ≡ calculated_unary op a }
{
    let kind = promote(a.kind());
    let z = a.value();
    match op {
        UnOp::Plus => Ok(promoted(a)),
        UnOp::Minus => negate(kind, z),
        UnOp::Complement => Ok(wrap(kind, -1 - z)),
        UnOp::Not => Ok(truth_number(z == 0)),
    }
}

// A number in the kind that promotion gives.
fn promoted(a: CInt) -> CInt
    ensures { result ≡ record { kind = promoted a.kind; value = a.value } }
{
    held(promote(a.kind()), a.value())
}

// What unary `-` gives.
fn negate(kind: Kind, z: i128) -> Result<CInt, Trap>
    requires low { neg_ℤ (pos (2 ^ 63)) ≤ℤ z }
    requires high { z ≤ℤ pos (2 ^ 64 - 1) }
    ensures { result ≡ settled kind (neg_ℤ z) }
{
    settle(kind, -z)
}
