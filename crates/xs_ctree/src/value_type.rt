//! The types of C's values.

use xs_base::{Bytes, Items};
use xs_values::Kind;

/// The type of an expression of C, and of a variable.
#[derive(Clone, Copy, Debug, PartialEq, Eq)]
pub enum ValueType {
    Number(Kind),
    /// `char *`
    Text,
    /// `SV *`
    Scalar,
    /// `AV *`
    Array,
    /// `HV *`
    Hash,
    /// `SV **`
    Place,
    /// A pointer to the record of a number in the file's order.
    Record(u32),
    /// `void *`
    Untyped,
    /// A pointer to a variable of a kind.
    Address(Kind),
    /// The type that `NULL` alone has.
    Null,
    Void,
    /// The type of a variable that is declared with a type that no variable may have.
    Faulty,
}

/// A variable of a function: its number there, its type, and the line of its declarator.
#[derive(Clone, Copy, Debug)]
pub struct Slot {
    pub number: u32,
    pub of_type: ValueType,
    pub line: u32,
}

/// A record of C: its name, and the kinds of its fields in their order.
#[derive(Debug, Drop)]
pub struct RecordType {
    pub name: Bytes,
    pub fields: Items<Kind>,
}
