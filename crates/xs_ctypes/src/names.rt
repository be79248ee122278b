//! What the names of types mean, and which names of functions are special.
ghost use Rattle.std.specs.Prelude.{◌≡◌};
ghost use Rattle.xs_ctypes.specs.FileNames as files;
ghost use Rattle.xs_ctypes.specs.TypeNames as types;

use crate::faults::is;
use xs_base::Bytes;
use xs_ctree::ValueType;
use xs_values::{DataModel, Kind, kind_of};

// ---- types

// Whether a name with so many `*` after it is another name with another number of them.
fn is_spelled(name: &[u8], stars: u32, other: &[u8], count: u32) -> bool
    ensures { result ≡ types.is_spelled name.now stars other.now count }
{
    is(name, other) && stars == count
}

// A pointer to a number.
fn pointer_to(name: &[u8], kind: Kind) -> ValueType
    ensures { result ≡ types.pointer_to name.now kind }
{
    if is(name, b"char") || is(name, b"unsigned char") {
        ValueType::Text
    } else {
        ValueType::Address(kind)
    }
}

// A number type with so many `*` after it.
fn of_kind(name: &[u8], kind: Kind, stars: u32) -> Option<ValueType>
    ensures { result ≡ types.of_kind name.now kind stars }
{
    if stars == 0 {
        Some(ValueType::Number(kind))
    } else if stars == 1 {
        Some(pointer_to(name, kind))
    } else {
        None
    }
}

// A scalar, or a place of one.
fn of_scalar(name: &[u8], stars: u32) -> Option<ValueType>
    ensures { result ≡ types.of_scalar name.now stars }
{
    if is_spelled(name, stars, b"SV", 1) {
        Some(ValueType::Scalar)
    } else if is_spelled(name, stars, b"SV", 2) {
        Some(ValueType::Place)
    } else if is_spelled(name, stars, b"SVREF", 0) {
        Some(ValueType::Scalar)
    } else if is_spelled(name, stars, b"SVREF", 1) {
        Some(ValueType::Place)
    } else {
        None
    }
}

// Another type of Perl, or one of C that is no number.
fn of_other(name: &[u8], stars: u32) -> Option<ValueType>
    ensures { result ≡ types.of_other name.now stars }
{
    if is_spelled(name, stars, b"AV", 1) {
        Some(ValueType::Array)
    } else if is_spelled(name, stars, b"HV", 1) {
        Some(ValueType::Hash)
    } else if is_spelled(name, stars, b"void", 0) {
        Some(ValueType::Void)
    } else if is_spelled(name, stars, b"void", 1) {
        Some(ValueType::Untyped)
    } else {
        None
    }
}

// The first of two types, where there is one.
fn first_type(one: Option<ValueType>, other: Option<ValueType>) -> Option<ValueType>
    ensures { result ≡ types.first_type one other }
{
    match one {
        None => other,
        Some(t) => Some(t),
    }
}

// What a name with so many `*` after it means.
#[tactic(auto, unfolding(crate::specs::TypeNames::type_meant))]
fn type_meant(name: &Bytes, stars: u32) -> Option<ValueType>
    ensures { result ≡ types.type_meant name.now stars }
{
    let words = name.as_slice();
    match kind_of(name, DataModel::Lp64) {
        None => first_type(of_scalar(words, stars), of_other(words, stars)),
        Some(kind) => of_kind(words, kind, stars),
    }
}

// Whether a variable may have a type.
fn may_vary(t: ValueType) -> bool
    ensures { result ≡ types.may_vary t }
{
    match t {
        ValueType::Untyped
        | ValueType::Address(_)
        | ValueType::Null
        | ValueType::Void
        | ValueType::Faulty => false,
        _ => true,
    }
}

// Whether a value may be cast to a type.
fn is_cast(t: ValueType) -> bool
    ensures { result ≡ types.is_cast t }
{
    match t {
        ValueType::Untyped | ValueType::Void => true,
        _ => may_vary(t),
    }
}

/// The type of a variable, by a name with so many `*` after it.
#[tactic(auto, unfolding(crate::specs::TypeNames::type_named))]
pub fn type_named(name: &Bytes, stars: u32) -> Option<ValueType>
    ensures { result ≡ types.type_named name.now stars }
{
    match type_meant(name, stars) {
        None => None,
        Some(t) => { if may_vary(t) { Some(t) } else { None } }
    }
}

/// The type that a value is cast to, by a name with so many `*` after it.
#[tactic(auto, unfolding(crate::specs::TypeNames::cast_named))]
pub fn cast_named(name: &Bytes, stars: u32) -> Option<ValueType>
    ensures { result ≡ types.cast_named name.now stars }
{
    match type_meant(name, stars) {
        None => None,
        Some(t) => { if is_cast(t) { Some(t) } else { None } }
    }
}

/// The type of what is declared with a name and so many `*`.
pub fn declared_type(name: &Bytes, stars: u32) -> ValueType
    ensures { result ≡ types.declared_type name.now stars }
{
    type_named(name, stars).unwrap_or(ValueType::Faulty)
}

// ---- functions

/// Whether a function of this name is the boot function.
#[tactic(auto, unfolding(crate::specs::FileNames::is_boot_name))]
pub fn is_boot_name(name: &[u8]) -> bool
    ensures { result ≡ files.is_boot_name name.now }
{
    name.starts_with(b"boot_")
}

/// Whether an index is there and below another.
pub fn is_earlier(index: Option<usize>, at: usize) -> bool
    ensures { result ≡ files.is_earlier index at }
{
    match index {
        None => false,
        Some(index) => index < at,
    }
}
