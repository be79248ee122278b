//! The grammar of C text: its trees, and the reader that makes them.
#![tactic(auto)]

mod declared_types;
mod file;
mod laws;
mod tree;

pub use declared_types::type_names;
pub use file::{read_args, read_block, read_expr, read_file};
pub use laws::{
    arguments_fault_law, block_fault_law, complete_law, deep_law, expr_fault_law, file_fault_law,
    filler_law, sound_law, tokens_are_spelt_law, turns_law, unique_law,
};
pub use tree::{CFile, Define, FileItem, Function, Head, Par, Record, Typedef, XsFun};
pub use xs_cexpr::{Expr, Place};
pub use xs_cinput::{BinaryOp, CType, Step, TypeNames};
pub use xs_cstmt::{
    Declarator, Declared, First, ForHead, Group, Label, PerlForm, PerlWord, Stmt, if_of,
};
