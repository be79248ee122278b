//! What the grammar of C reads from: tokens that are left, words, operators, and names of types.
#![tactic(auto)]

mod cursor;
mod kept;
mod laws;
mod lookahead;
mod operators;
mod token_tests;
mod tree;
mod type_names;
mod types;

pub use cursor::Cursor;
pub use kept::Kept;
pub use laws::operators_have_their_levels;
pub use lookahead::{a_step, assignment, operator, prefix_op};
pub use operators::listed;
pub use token_tests::{is_name, is_punct_kind, is_sign, is_type, is_variable, is_word_kind};
pub use tree::{BinaryOp, CType, Step};
pub use type_names::TypeNames;
pub use types::{a_type, stars, type_name};
