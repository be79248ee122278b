//! The kinds of integer literals.
ghost use Rattle.std.specs.List.{find};
ghost use Rattle.std.specs.Prelude.{◌≡◌, ◌&&◌, pos};
ghost use Rattle.xs_values.specs.Literals.{is_decimal_base, literal_kind_of, may_have, start_of};
ghost use Rattle.xs_values.specs.Numbers.{is_held};

use crate::kind::{bits, holds, signed};
use crate::types::long_kind;
use crate::{DataModel, Kind};

/// How an integer literal writes its digits (C11 6.4.4.1).
#[derive(Clone, Copy, Debug, PartialEq, Eq)]
pub enum Base {
    Decimal,
    /// A leading `0`.
    Octal,
    /// A leading `0x`.
    Hexadecimal,
}

/// What a suffix says of the width of a literal's type.
#[derive(Clone, Copy, Debug, PartialEq, Eq)]
pub enum Length {
    /// No `l`.
    Int,
    /// `l` or `L`.
    Long,
    /// `ll` or `LL`.
    LongLong,
}

/// The suffix of an integer literal.
#[derive(Clone, Copy, Debug, PartialEq, Eq)]
pub struct Suffix {
    /// `u` or `U`.
    pub unsigned: bool,
    pub length: Length,
}

/// The kinds of literals, in the order in which they are tried.
pub const LITERAL_KINDS: [Kind; 4] = [Kind::I32, Kind::U32, Kind::I64, Kind::U64];

/// The kind of an integer literal: the first kind that its base and its suffix allow and that holds
/// its value (C11 6.4.4.1). A decimal literal that no signed kind holds has kind U64.
pub fn literal_kind(base: Base, suffix: Suffix, value: u64, model: DataModel) -> Kind
    ensures { result ≡ literal_kind_of model base suffix value }
{
    first_kind(&LITERAL_KINDS, base, suffix, value, model).unwrap_or(Kind::U64)
}

// The first of some kinds that a literal may have and that holds its value.
fn first_kind(
    kinds: &[Kind],
    base: Base,
    suffix: Suffix,
    value: u64,
    model: DataModel,
) -> Option<Kind>
    ensures { result ≡ find (λ k. may_have model base suffix k && is_held k (pos value)) kinds.now }
{
    for kind in kinds {
        if may_have(model, base, suffix, *kind) && holds(*kind, i128::from(value)) {
            return Some(*kind);
        }
    }
    None
}

// Whether a literal may have a kind.
fn may_have(model: DataModel, base: Base, suffix: Suffix, kind: Kind) -> bool
    ensures { result ≡ may_have model base suffix kind }
{
    if bits(kind) < bits(start(model, suffix.length)) {
        false
    } else if signed(kind) {
        !suffix.unsigned
    } else {
        suffix.unsigned || !is_decimal(base)
    }
}

// The kind at which a suffix lets the search begin.
fn start(model: DataModel, length: Length) -> Kind
    ensures { result ≡ start_of model length }
{
    match length {
        Length::Int => Kind::I32,
        Length::Long => long_kind(model),
        Length::LongLong => Kind::I64,
    }
}

fn is_decimal(base: Base) -> bool
    ensures { result ≡ is_decimal_base base }
{
    match base {
        Base::Decimal => true,
        Base::Octal | Base::Hexadecimal => false,
    }
}
