//! The stub writer: the glue text of a module.
#![tactic(auto)]

mod glue_exprs;
mod glue_items;
mod glue_stmts;
mod laws;
mod writer;

pub use glue_items::glue_tree;
pub use laws::written_text_reads_back;
pub use writer::write_glue;
