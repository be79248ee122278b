//! C's operators on two numbers.
ghost use Rattle.std.specs.Int.RustNames.{int_div, int_rem, unsigned_abs};
ghost use Rattle.std.specs.Prelude.{◌≡◌, ◌≢◌, ◌-◌, ◌*◌, ◌+ℤ◌, ◌-ℤ◌, ◌*ℤ◌, ◌<◌, ◌≤◌, ◌≤ℤ◌, ◌^◌, IfSome, false, if◌then◌else◌, neg_ℤ, pos, true};
ghost use Rattle.xs_values.specs.Kinds.{bits_of, is_signed};
ghost use Rattle.xs_values.specs.Numbers.{IsInRange, calculated, divided, divided_as, is_comparison, is_count, is_held, is_shift};
ghost use Rattle.xs_values.specs.Numbers.{operated, result_kind_of, right_operand, settled, shifted_left};
ghost use Rattle.xs_values.specs.Numbers.{shifted_right, truth_number, working_kind, wrapped, wrapped_value};

use crate::kind::{bits, common, holds, modulus, promote, signed};
use crate::number::{bit_pattern, held};
use crate::{CInt, Kind, Trap, wrap};

/// An operator of C with two operands of which both are numbers. `&&` and `||` are none: they
/// evaluate their right side only where the left one leaves the answer open.
#[derive(Clone, Copy, Debug, PartialEq, Eq)]
pub enum Op {
    /// `+`
    Add,
    /// `-`
    Subtract,
    /// `*`
    Multiply,
    /// `/`
    Divide,
    /// `%`
    Remainder,
    /// `<<`
    ShiftLeft,
    /// `>>`
    ShiftRight,
    /// `&`
    BitAnd,
    /// `^`
    BitXor,
    /// `|`
    BitOr,
    /// `==`
    Equal,
    /// `!=`
    NotEqual,
    /// `<`
    Less,
    /// `<=`
    LessEqual,
    /// `>`
    Greater,
    /// `>=`
    GreaterEqual,
}

/// The kind of what an operator gives: I32 for a comparison, that of the promoted left operand for
/// a shift, and the common kind for all others.
pub fn result_kind(op: Op, a: Kind, b: Kind) -> Kind
    ensures { result ≡ result_kind_of op a b }
{
    if is_comparison(op) {
        Kind::I32
    } else {
        working_kind(op, a, b)
    }
}

/// What an operator gives (C11 6.5.5 to 6.5.12). Both operands are converted to their common kind
/// first; but a shift has the kind of its promoted left operand, and its count is not converted.
/// Division truncates toward 0, and a right shift keeps the sign.
///
/// - Overflow: a signed result that its kind does not hold; `/` and `%` of the least number by -1;
/// a left shift of a negative
///   number. An unsigned result wraps.
/// - Zero: `/` and `%` by 0.
/// - Shift: a count below 0, or not below the width.
pub fn arith(op: Op, a: CInt, b: CInt) -> Result<CInt, Trap>
    ensures { result ≡ calculated op a b }
{
    let kind = working_kind(op, a.kind(), b.kind());
    operate(op, kind, converted(kind, a), right_operand(op, kind, b))
}

// Whether an operator is a shift.
fn is_shift(op: Op) -> bool
    ensures { result ≡ is_shift op }
{
    matches!(op, Op::ShiftLeft | Op::ShiftRight)
}

// Whether an operator is a comparison.
fn is_comparison(op: Op) -> bool
    ensures { result ≡ is_comparison op }
{
    matches!(
        op,
        Op::Equal | Op::NotEqual | Op::Less | Op::LessEqual | Op::Greater | Op::GreaterEqual
    )
}

// The kind that an operator works in.
fn working_kind(op: Op, a: Kind, b: Kind) -> Kind
    ensures value { result ≡ working_kind op a b }
    ensures wide { 32 ≤ bits_of result }
{
    if is_shift(op) {
        promote(a)
    } else {
        common(a, b)
    }
}

// An operand as a number of a kind.
fn converted(kind: Kind, a: CInt) -> i128
    ensures value { result ≡ wrapped_value kind a.value }
    ensures held { IsInRange kind result }
    ensures low { neg_ℤ (pos (2 ^ 63)) ≤ℤ result }
    ensures high { result ≤ℤ pos (2 ^ 64 - 1) }
{
    wrap(kind, a.value()).value()
}

// The right operand: the count of a shift as it is, and any other one as a number of the kind.
fn right_operand(op: Op, kind: Kind, b: CInt) -> i128
    ensures value { result ≡ right_operand op kind b.value }
    ensures held { is_shift op ≡ false → IsInRange kind result }
    ensures low { neg_ℤ (pos (2 ^ 63)) ≤ℤ result }
    ensures high { result ≤ℤ pos (2 ^ 64 - 1) }
{
    if is_shift(op) {
        b.value()
    } else {
        converted(kind, b)
    }
}

// An operator on two whole numbers of a kind; the right one of a shift is any number.
fn operate(op: Op, kind: Kind, x: i128, y: i128) -> Result<CInt, Trap>
    requires left { IsInRange kind x }
    requires right { is_shift op ≡ false → IsInRange kind y }
    requires wide { 32 ≤ bits_of kind }
    requires x_low { neg_ℤ (pos (2 ^ 63)) ≤ℤ x }
    requires x_high { x ≤ℤ pos (2 ^ 64 - 1) }
    requires y_low { neg_ℤ (pos (2 ^ 63)) ≤ℤ y }
    requires y_high { y ≤ℤ pos (2 ^ 64 - 1) }
    ensures { result ≡ operated op kind x y }
{
    match op {
        Op::Add => add(kind, x, y),
        Op::Subtract => subtract(kind, x, y),
        Op::Multiply => multiply(kind, x, y),
        Op::Divide => divide(kind, x, y),
        Op::Remainder => remainder(kind, x, y),
        Op::ShiftLeft => shift_left(kind, x, y),
        Op::ShiftRight => shift_right(kind, x, y),
        Op::BitAnd => Ok(from_bits(kind, bit_pattern(kind, x) & bit_pattern(kind, y))),
        Op::BitXor => Ok(from_bits(kind, bit_pattern(kind, x) ^ bit_pattern(kind, y))),
        Op::BitOr => Ok(from_bits(kind, bit_pattern(kind, x) | bit_pattern(kind, y))),
        Op::Equal => Ok(truth_number(x == y)),
        Op::NotEqual => Ok(truth_number(x != y)),
        Op::Less => Ok(truth_number(x < y)),
        Op::LessEqual => Ok(truth_number(x <= y)),
        Op::Greater => Ok(truth_number(x > y)),
        Op::GreaterEqual => Ok(truth_number(x >= y)),
    }
}

// What an operator gives of the whole number that it computed.
pub(crate) fn settle(kind: Kind, z: i128) -> Result<CInt, Trap>
    ensures { result ≡ settled kind z }
{
    if holds(kind, z) {
        Ok(held(kind, z))
    } else if signed(kind) {
        Err(Trap::Overflow)
    } else {
        Ok(wrap(kind, z))
    }
}

// 1 where a comparison holds, and else 0.
pub(crate) fn truth_number(holds: bool) -> CInt
    ensures { result ≡ truth_number holds }
{
    wrap(Kind::I32, i128::from(holds))
}

// The number of a kind with given bits.
fn from_bits(kind: Kind, bits: u64) -> CInt
    ensures { result ≡ wrapped kind (pos bits) }
{
    wrap(kind, i128::from(bits))
}

// A sum.
fn add(kind: Kind, x: i128, y: i128) -> Result<CInt, Trap>
    requires x_low { neg_ℤ (pos (2 ^ 63)) ≤ℤ x }
    requires x_high { x ≤ℤ pos (2 ^ 64 - 1) }
    requires y_low { neg_ℤ (pos (2 ^ 63)) ≤ℤ y }
    requires y_high { y ≤ℤ pos (2 ^ 64 - 1) }
    ensures { result ≡ settled kind (x +ℤ y) }
{
    settle(kind, x + y)
}

// A difference.
fn subtract(kind: Kind, x: i128, y: i128) -> Result<CInt, Trap>
    requires x_low { neg_ℤ (pos (2 ^ 63)) ≤ℤ x }
    requires x_high { x ≤ℤ pos (2 ^ 64 - 1) }
    requires y_low { neg_ℤ (pos (2 ^ 63)) ≤ℤ y }
    requires y_high { y ≤ℤ pos (2 ^ 64 - 1) }
    ensures { result ≡ settled kind (x -ℤ y) }
{
    settle(kind, x - y)
}

// A product. That of two unsigned numbers may need 128 bits without a sign.
fn multiply(kind: Kind, x: i128, y: i128) -> Result<CInt, Trap>
    requires wide { 32 ≤ bits_of kind }
    requires left { IsInRange kind x }
    requires signed { is_signed kind ≡ true → unsigned_abs y ≤ 2 ^ 63 }
    requires unsigned { is_signed kind ≡ false → pos 0 ≤ℤ y }
    requires high { y ≤ℤ pos (2 ^ 64 - 1) }
    ensures { result ≡ settled kind (x *ℤ y) }
{
    if signed(kind) {
        settle(kind, product(x, y))
    } else {
        Ok(wrapped_product(kind, x as u128, y as u128))
    }
}

// A product of two numbers of at most 64 bits with their signs.
fn product(x: i128, y: i128) -> i128
    requires left { unsigned_abs x ≤ 2 ^ 63 }
    requires right { unsigned_abs y ≤ 2 ^ 63 }
    ensures { result ≡ x *ℤ y }
{
    x * y
}

// A product as a number of an unsigned kind.
fn wrapped_product(kind: Kind, x: u128, y: u128) -> CInt
    requires wide { 32 ≤ bits_of kind }
    requires unsigned { is_signed kind ≡ false }
    requires left { x ≤ 2 ^ 64 - 1 }
    requires right { y ≤ 2 ^ 64 - 1 }
    ensures { Ok result ≡ settled kind (pos (x * y)) }
{
    let residue = x * y % modulus(kind) as u128;
    held(kind, residue as i128)
}

// What `/` gives.
#[tactic(auto, using(crate::proofs::Ranges::held_in_range))]
fn divide(kind: Kind, x: i128, y: i128) -> Result<CInt, Trap>
    requires low { neg_ℤ (pos (2 ^ 63)) ≤ℤ x }
    requires high { x ≤ℤ pos (2 ^ 64 - 1) }
    ensures { result ≡ divided kind x y (int_div x y) }
{
    if y == 0 {
        return Err(Trap::Zero);
    }
    let quotient = quotient(x, y);
    divided(kind, quotient, quotient)
}

// What `%` gives. It traps where `/` does.
fn remainder(kind: Kind, x: i128, y: i128) -> Result<CInt, Trap>
    requires held { IsInRange kind x }
    requires low { neg_ℤ (pos (2 ^ 63)) ≤ℤ x }
    requires high { x ≤ℤ pos (2 ^ 64 - 1) }
    ensures { result ≡ divided kind x y (int_rem x y) }
{
    if y == 0 {
        return Err(Trap::Zero);
    }
    divided(kind, quotient(x, y), rest(x, y))
}

// What a division gives whose quotient is known.
fn divided(kind: Kind, quotient: i128, z: i128) -> Result<CInt, Trap>
    requires { is_held kind quotient ≡ true → IsInRange kind z }
    ensures { result ≡ divided_as kind quotient z }
{
    if holds(kind, quotient) {
        Ok(held(kind, z))
    } else {
        Err(Trap::Overflow)
    }
}

// A quotient, truncated toward 0.
fn quotient(x: i128, y: i128) -> i128
    requires low { neg_ℤ (pos (2 ^ 63)) ≤ℤ x }
    requires high { x ≤ℤ pos (2 ^ 64 - 1) }
    requires divisor { y ≢ pos 0 }
    ensures { result ≡ int_div x y }
{
    x / y
}

// What a division leaves, with the sign of the dividend.
fn rest(x: i128, y: i128) -> i128
    requires low { neg_ℤ (pos (2 ^ 63)) ≤ℤ x }
    requires high { x ≤ℤ pos (2 ^ 64 - 1) }
    requires divisor { y ≢ pos 0 }
    ensures { result ≡ int_rem x y }
{
    x % y
}

// A left shift.
fn shift_left(kind: Kind, x: i128, y: i128) -> Result<CInt, Trap>
    requires wide { 32 ≤ bits_of kind }
    requires held { IsInRange kind x }
    ensures { result ≡ shifted_left kind x y }
{
    match count(kind, y) {
        None => Err(Trap::Shift),
        Some(_) if x < 0 => Err(Trap::Overflow),
        Some(n) => multiply(kind, x, power(n)),
    }
}

// A right shift.
fn shift_right(kind: Kind, x: i128, y: i128) -> Result<CInt, Trap>
    requires held { IsInRange kind x }
    ensures { result ≡ shifted_right kind x y }
{
    match count(kind, y) {
        None => Err(Trap::Shift),
        Some(n) => Ok(held(kind, x.div_euclid(power(n)))),
    }
}

// The count of a shift in a kind.
fn count(kind: Kind, y: i128) -> Option<u32>
    ensures value { result ≡ (if is_count kind y then Some (unsigned_abs y) else None) }
    ensures low { IfSome result (λ n. n < 64) }
{
    if 0 <= y && y < i128::from(bits(kind)) {
        Some(y as u32)
    } else {
        None
    }
}

// A power of 2.
fn power(n: u32) -> i128
    requires { n < 64 }
    ensures value { result ≡ pos (2 ^ n) }
    ensures high { result ≤ℤ pos (2 ^ 63) }
{
    i128::from(1_u64 << n)
}
