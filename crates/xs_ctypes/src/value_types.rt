//! Which types go into which.
ghost use Rattle.std.specs.Prelude.{◌≡◌};
ghost use Rattle.xs_ctypes.specs.ValueTypes as spec;

use xs_ctree::ValueType;
use xs_perlapi::ApiType;
use xs_values::{Kind, Op, UnOp, common, result_kind, unary_kind};

/// Whether a type is that of a number.
pub fn is_number(t: ValueType) -> bool
    ensures { result ≡ spec.is_number t }
{
    match t {
        ValueType::Number(_) => true,
        _ => false,
    }
}

fn is_scalar(t: ValueType) -> bool
    ensures { result ≡ spec.is_scalar t }
{
    match t {
        ValueType::Scalar => true,
        _ => false,
    }
}

/// Whether two types are those of numbers.
pub fn are_numbers(a: ValueType, b: ValueType) -> bool
    ensures { result ≡ spec.are_numbers a b }
{
    is_number(a) && is_number(b)
}

fn is_pointer(t: ValueType) -> bool
    ensures { result ≡ spec.is_pointer t }
{
    match t {
        ValueType::Number(_) | ValueType::Void => false,
        _ => true,
    }
}

// ---- one type

// The place of a kind in their order.
fn kind_place(kind: Kind) -> u32
    ensures { result ≡ spec.kind_place kind }
{
    match kind {
        Kind::I8 => 0,
        Kind::U8 => 1,
        Kind::I16 => 2,
        Kind::U16 => 3,
        Kind::I32 => 4,
        Kind::U32 => 5,
        Kind::I64 => 6,
        Kind::U64 => 7,
        Kind::Bool => 8,
    }
}

// The place of a type in their order, and that of its kind or record.
fn type_place(t: ValueType) -> (u32, u32)
    ensures { result ≡ spec.type_place t }
{
    match t {
        ValueType::Number(kind) => (0, kind_place(kind)),
        ValueType::Text => (1, 0),
        ValueType::Scalar => (2, 0),
        ValueType::Array => (3, 0),
        ValueType::Hash => (4, 0),
        ValueType::Place => (5, 0),
        ValueType::Record(index) => (6, index),
        ValueType::Untyped => (7, 0),
        ValueType::Address(kind) => (8, kind_place(kind)),
        ValueType::Null => (9, 0),
        ValueType::Void => (10, 0),
        ValueType::Faulty => (11, 0),
    }
}

// Whether two types are one.
fn same(a: ValueType, b: ValueType) -> bool
    ensures { result ≡ spec.same a b }
{
    let one = type_place(a);
    let other = type_place(b);
    one.0 == other.0 && one.1 == other.1
}

/// Whether a type is that of a text.
pub fn is_text(t: ValueType) -> bool
    ensures { result ≡ spec.is_text t }
{
    same(t, ValueType::Text)
}

/// Whether a type is `char`.
pub fn is_char(t: ValueType) -> bool
    ensures { result ≡ spec.is_char t }
{
    same(t, ValueType::Number(Kind::I8))
}

fn is_null(t: ValueType) -> bool
    ensures { result ≡ spec.is_null t }
{
    same(t, ValueType::Null)
}

// ---- what goes into what

/// Whether a value of a type is assigned to another.
pub fn goes_into(from: ValueType, to: ValueType) -> bool
    ensures { result ≡ spec.goes_into from to }
{
    match from {
        ValueType::Number(_) => is_number(to),
        ValueType::Null => is_pointer(to),
        ValueType::Void => false,
        _ => same(from, to),
    }
}

/// Whether a condition may be of a type.
pub fn is_condition(t: ValueType) -> bool
    ensures { result ≡ spec.is_condition t }
{
    match t {
        ValueType::Void => false,
        _ => true,
    }
}

fn is_thing(t: ValueType) -> bool
    ensures { result ≡ spec.is_thing t }
{
    match t {
        ValueType::Scalar | ValueType::Array | ValueType::Hash => true,
        _ => false,
    }
}

fn is_record(t: ValueType) -> bool
    ensures { result ≡ spec.is_record t }
{
    match t {
        ValueType::Record(_) => true,
        _ => false,
    }
}

fn is_untyped(t: ValueType) -> bool
    ensures { result ≡ spec.is_untyped t }
{
    same(t, ValueType::Untyped)
}

// What is cast to a pointer.
fn casts_pointer(from: ValueType, to: ValueType) -> bool
    ensures { result ≡ spec.casts_pointer from to }
{
    let own = same(from, to) || is_null(from);
    let thing = is_thing(from) && is_thing(to);
    let untyped = is_record(from) && is_untyped(to);
    own || (thing || untyped)
}

/// What is cast to a type.
pub fn casts(from: ValueType, to: ValueType) -> bool
    ensures { result ≡ spec.casts from to }
{
    match to {
        ValueType::Number(_) => is_number(from),
        ValueType::Void => true,
        _ => casts_pointer(from, to),
    }
}

/// Whether an expression of a type may be an operand of a row.
pub fn is_operand(wanted: ApiType, t: ValueType) -> bool
    ensures { result ≡ spec.is_operand wanted t }
{
    match wanted {
        ApiType::Number(_) | ApiType::Integer => is_number(t),
        ApiType::Scalar => is_scalar(t),
        _ => false,
    }
}

/// The type of a row's result.
pub fn result_type(t: ApiType) -> ValueType
    ensures { result ≡ spec.result_type t }
{
    match t {
        ApiType::Number(kind) => ValueType::Number(kind),
        ApiType::Scalar => ValueType::Scalar,
        _ => ValueType::Void,
    }
}

/// The type of two numbers under an operator.
pub fn of_numbers(op: Op, a: ValueType, b: ValueType) -> Option<ValueType>
    ensures { spec.of_numbers op a b ≡ spec.or_differ result }
{
    let ValueType::Number(a) = a else {
        return None;
    };
    let ValueType::Number(b) = b else {
        return None;
    };
    Some(ValueType::Number(result_kind(op, a, b)))
}

/// Whether an operator is `==` or `!=`.
pub fn is_equality(op: Op) -> bool
    ensures { result ≡ spec.is_equality op }
{
    matches!(op, Op::Equal | Op::NotEqual)
}

/// Whether pointers of these types are compared.
pub fn compares(a: ValueType, b: ValueType) -> bool
    ensures { result ≡ spec.compares a b }
{
    is_pointer(a) && is_pointer(b) && ((same(a, b) && !is_text(a)) || is_null(a) || is_null(b))
}

/// What a pointer of a type points to.
pub fn of_pointed(t: ValueType) -> Option<ValueType>
    ensures { spec.of_pointed t ≡ spec.or_differ result }
{
    match t {
        ValueType::Text => Some(ValueType::Number(Kind::I8)),
        ValueType::Place => Some(ValueType::Scalar),
        ValueType::Address(kind) => Some(ValueType::Number(kind)),
        _ => None,
    }
}

/// The type of the address of a variable of a type.
pub fn of_address(t: ValueType) -> Option<ValueType>
    ensures { spec.of_address t ≡ spec.or_differ result }
{
    match t {
        ValueType::Number(kind) => Some(ValueType::Address(kind)),
        _ => None,
    }
}

/// Whether a type is that of a pointer to a variable.
pub fn is_address(t: ValueType) -> bool
    ensures { result ≡ spec.is_address t }
{
    match t {
        ValueType::Address(_) => true,
        _ => false,
    }
}

/// Whether a text has a byte at an index.
pub fn is_element(text: ValueType, at: ValueType) -> bool
    ensures { result ≡ spec.is_element text at }
{
    is_text(text) && is_number(at)
}

// The type of one of two numbers.
fn of_common(a: ValueType, b: ValueType) -> Option<ValueType>
    ensures { spec.of_common a b ≡ spec.or_differ result }
{
    let ValueType::Number(a) = a else {
        return None;
    };
    let ValueType::Number(b) = b else {
        return None;
    };
    Some(ValueType::Number(common(a, b)))
}

// Whether a pointer, or nothing, is chosen beside a value of another type.
fn is_chosen(a: ValueType, b: ValueType) -> bool
    ensures { result ≡ spec.is_chosen a b }
{
    same(a, b) || (is_null(b) && is_pointer(a))
}

// The type of one of two values.
fn of_values(a: ValueType, b: ValueType) -> Option<ValueType>
    ensures { spec.of_values a b ≡ spec.or_differ result }
{
    if are_numbers(a, b) {
        of_common(a, b)
    } else if is_chosen(a, b) {
        Some(a)
    } else if is_chosen(b, a) {
        Some(b)
    } else {
        None
    }
}

/// The type of a choice of two values by a condition.
pub fn of_choice(test: ValueType, a: ValueType, b: ValueType) -> Option<ValueType>
    ensures { spec.of_choice test a b ≡ spec.or_differ result }
{
    if is_condition(test) {
        of_values(a, b)
    } else {
        None
    }
}

/// Whether two operands of `&&` or `||` may be of these types.
pub fn are_conditions(a: ValueType, b: ValueType) -> bool
    ensures { result ≡ spec.are_conditions a b }
{
    is_condition(a) && is_condition(b)
}

/// The type of an operand that an operator promotes.
pub fn of_promoted(op: UnOp, a: ValueType) -> Option<ValueType>
    ensures { spec.of_promoted op a ≡ spec.or_differ result }
{
    let ValueType::Number(a) = a else {
        return None;
    };
    Some(ValueType::Number(unary_kind(op, a)))
}
