//! What the reader of expressions hands up.

use crate::{Expr, Place};

/// The rule of the grammar by which an expression is read.
#[derive(Clone, Copy, Debug, PartialEq, Eq)]
pub enum Level {
    /// An assignment, or what may stand to the right of one.
    Whole,
    /// A choice, or what may stand to the right of its `:`.
    Choice,
    /// Operands of operators, down to those that bind so tightly.
    Binary(u32),
    /// The operand of an operator that stands before it.
    Unary,
}

/// An expression, and the number of nodes on the longest way down its tree.
#[derive(Drop)]
pub struct Node {
    pub tree: Expr,
    pub height: u32,
}

/// Expressions in order, and the height of the tallest.
#[derive(Drop)]
pub struct Nodes {
    pub trees: Vec<Expr>,
    pub height: u32,
}

/// A place, and its height.
#[derive(Drop)]
pub struct PlaceNode {
    pub place: Place,
    pub height: u32,
}
