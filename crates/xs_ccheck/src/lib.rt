//! The types stage: a C file becomes code whose names are slots and whose types are right, or the
//! first of its faults is reported.
#![tactic(auto)]

mod calls;
mod declarations;
mod enclosing;
mod exprs;
mod file;
mod for_heads;
mod labels;
mod laws;
mod operators;
mod places;
mod pointers;
mod stmt_nodes;
mod stmts;

pub use file::check_file;
pub use laws::{least_fault_law, slots_once_law, types_do_not_depend_on_lines, types_of_forms_law};
