//! The statements of C and of the XS interface: their trees, and the reader that makes them.
#![tactic(auto)]

mod forms;
mod openers;
mod pieces;
mod stmts;
mod tree;

pub use pieces::MAX_NESTING;
pub use stmts::{if_of, part, parts};
pub use tree::{Declarator, Declared, First, ForHead, Group, Label, PerlForm, PerlWord, Stmt};
