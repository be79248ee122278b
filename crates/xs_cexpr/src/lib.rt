//! The expressions of C: their trees, and the reader that makes them.
#![tactic(auto)]

mod building;
mod exprs;
mod literals;
mod node;
mod places;
mod tree;

pub use exprs::expr;
pub use node::{Level, Node};
pub use tree::{Expr, Place};
