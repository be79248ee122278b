//! The kinds of C's integers.
ghost use Rattle.std.specs.Prelude.{◌≡◌, ◌^◌, pos};
ghost use Rattle.xs_values.specs.Kinds.{bits_of, common_kind, high_of, is_signed, low_of, promoted};
ghost use Rattle.xs_values.specs.Numbers.{is_held};

/// A kind: how many bits an integer type has, and whether it has negative numbers (C11 6.2.5).
/// `Bool` is C's `bool`.
#[derive(Clone, Copy, Debug, PartialEq, Eq)]
pub enum Kind {
    I8,
    U8,
    I16,
    U16,
    I32,
    U32,
    I64,
    U64,
    Bool,
}

// The least number.
pub(crate) fn low(kind: Kind) -> i128
    ensures { result ≡ low_of kind }
{
    match kind {
        Kind::I8 => -128,
        Kind::I16 => -32768,
        Kind::I32 => -2147483648,
        Kind::I64 => -9223372036854775808,
        Kind::U8 | Kind::U16 | Kind::U32 | Kind::U64 | Kind::Bool => 0,
    }
}

// The greatest number.
pub(crate) fn high(kind: Kind) -> i128
    ensures { result ≡ high_of kind }
{
    match kind {
        Kind::I8 => 127,
        Kind::U8 => 255,
        Kind::I16 => 32767,
        Kind::U16 => 65535,
        Kind::I32 => 2147483647,
        Kind::U32 => 4294967295,
        Kind::I64 => 9223372036854775807,
        Kind::U64 => 18446744073709551615,
        Kind::Bool => 1,
    }
}

// Whether a kind holds a whole number.
pub(crate) fn holds(kind: Kind, z: i128) -> bool
    ensures { result ≡ is_held kind z }
{
    low(kind) <= z && z <= high(kind)
}

// How many bits a number has.
pub(crate) fn bits(kind: Kind) -> u32
    ensures { result ≡ bits_of kind }
{
    match kind {
        Kind::Bool => 1,
        Kind::I8 | Kind::U8 => 8,
        Kind::I16 | Kind::U16 => 16,
        Kind::I32 | Kind::U32 => 32,
        Kind::I64 | Kind::U64 => 64,
    }
}

// How many numbers there are.
pub(crate) fn modulus(kind: Kind) -> i128
    ensures { result ≡ pos (2 ^ bits_of kind) }
{
    match kind {
        Kind::Bool => 2,
        Kind::I8 | Kind::U8 => 256,
        Kind::I16 | Kind::U16 => 65536,
        Kind::I32 | Kind::U32 => 4294967296,
        Kind::I64 | Kind::U64 => 18446744073709551616,
    }
}

// Whether there are negative numbers.
pub(crate) fn signed(kind: Kind) -> bool
    ensures { result ≡ is_signed kind }
{
    match kind {
        Kind::I8 | Kind::I16 | Kind::I32 | Kind::I64 => true,
        Kind::U8 | Kind::U16 | Kind::U32 | Kind::U64 | Kind::Bool => false,
    }
}

/// Integer promotion (C11 6.3.1.1): a kind of less than 32 bits becomes I32.
pub fn promote(kind: Kind) -> Kind
    ensures { result ≡ promoted kind }
{
    match kind {
        Kind::I8 | Kind::U8 | Kind::I16 | Kind::U16 | Kind::I32 | Kind::Bool => Kind::I32,
        Kind::U32 => Kind::U32,
        Kind::I64 => Kind::I64,
        Kind::U64 => Kind::U64,
    }
}

/// The kind that both operands of an operator are converted to (C11 6.3.1.8): after promotion the
/// wider one, and at one width the unsigned one.
pub fn common(a: Kind, b: Kind) -> Kind
    ensures { result ≡ common_kind a b }
{
    let a = promote(a);
    let b = promote(b);
    if bits(a) < bits(b) {
        b
    } else if bits(b) < bits(a) {
        a
    } else if signed(a) {
        b
    } else {
        a
    }
}
