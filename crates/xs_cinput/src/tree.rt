//! What nodes of the trees of C hold beside other nodes: types, and operators.

use xs_base::Bytes;
use xs_values::Op;

/// A type as it is spelt.
#[derive(Debug, Drop)]
pub struct CType {
    pub line: u32,
    /// The words of its name, with one space between two.
    pub name: Bytes,
    /// The number of `*` after the name.
    pub stars: u32,
}

/// An operator between two operands.
#[derive(Clone, Copy, Debug, PartialEq, Eq)]
pub enum BinaryOp {
    /// `||`
    Or,
    /// `&&`
    And,
    /// An operator on two numbers.
    On(Op),
}

/// What `++` and `--` do with a place.
#[derive(Clone, Copy, Debug, PartialEq, Eq)]
pub enum Step {
    /// `++`
    Up,
    /// `--`
    Down,
}
