//! Typemaps: which kind each C type has, and the code that converts the values of a kind.
#![tactic(auto)]

mod core_table;
mod laws;
mod lines;
mod maps;
mod reading;
mod tidying;
mod typemap;

pub use core_table::{CORE_TYPEMAP, core_typemap};
pub use laws::{
    core_typemap_is_read, later_entries_replace, later_typemap_holds, lines_are_as_spelt,
    types_are_as_spelt, types_are_tidied_once,
};
pub use reading::read_typemap;
pub use tidying::{is_type, tidy};
pub use typemap::{Code, Typemap, merge};
