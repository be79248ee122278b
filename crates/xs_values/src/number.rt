//! Numbers of C, and the conversion between their kinds.
ghost use Rattle.std.specs.Prelude.{◌≡◌, ◌-◌, ◌≤ℤ◌, ◌^◌, neg_ℤ, pos};
ghost use Rattle.xs_values.specs.Kinds.{high_of, low_of};
ghost use Rattle.xs_values.specs.Numbers.{IsInRange, bits_in, modular, wrapped};

use crate::Kind;
use crate::kind::{high, modulus};
use std::marker::Model;

/// A number of C: a whole number in the range of its kind.
#[derive(Clone, Copy, Debug)]
pub struct CInt {
    kind: Kind,
    value: i128,
}

impl Model for CInt {
    ghost use Rattle.xs_values.specs.Numbers.{IsInRange, Number};

    ghost Value = { Number };

    ghost view = { λ c. record { kind = c.kind; value = c.value } };

    ghost invariant = { λ c. IsInRange c.kind c.value };

    ghost inverse = { λ n. record { kind = n.kind; value = n.value } };
}

impl CInt {
    /// An IV as a number of kind I64.
    pub fn from_iv(iv: i64) -> CInt
        ensures { result ≡ record { kind = Kind.I64; value = iv } }
    {
        CInt {
            kind: Kind::I64,
            value: i128::from(iv),
        }
    }

    /// The kind.
    pub fn kind(&self) -> Kind
        ensures { result ≡ self.now.kind }
    {
        self.kind
    }

    /// The whole number, which is in the range of the kind.
    pub fn value(&self) -> i128
        ensures value { result ≡ self.now.value }
        ensures held { IsInRange self.now.kind result }
        ensures low { neg_ℤ (pos (2 ^ 63)) ≤ℤ result }
        ensures high { result ≤ℤ pos (2 ^ 64 - 1) }
    {
        self.value
    }
}

// A number whose kind holds it.
pub(crate) fn held(kind: Kind, value: i128) -> CInt
    requires low { low_of kind ≤ℤ value }
    requires high { value ≤ℤ high_of kind }
    ensures { result ≡ record { kind = kind; value = value } }
{
    CInt { kind, value }
}

/// Conversion to a kind (C11 6.3.1.3): the number of the kind that differs by a multiple of 2^bits.
/// To `Bool` any value but 0 gives 1 (C11 6.3.1.2).
pub fn wrap(kind: Kind, v: i128) -> CInt
    ensures { result ≡ wrapped kind v }
{
    let value = if kind == Kind::Bool {
        i128::from(v != 0)
    } else {
        wrap_value(kind, v)
    };
    CInt { kind, value }
}

// The number of the kind that differs by a multiple of 2^bits.
fn wrap_value(kind: Kind, v: i128) -> i128
    ensures { result ≡ modular kind v }
{
    let numbers = modulus(kind);
    let residue = v.rem_euclid(numbers);
    if residue <= high(kind) {
        residue
    } else {
        residue - numbers
    }
}

// The bits of a number in two's complement, as a number that is not negative.
pub(crate) fn bit_pattern(kind: Kind, z: i128) -> u64
    ensures { result ≡ bits_in kind z }
{
    z.rem_euclid(modulus(kind)) as u64
}
