//! The types of C's values, what the names of a file mean, scopes, and the faults of the types
//! stage: what the walk over the trees of C stands on.
#![tactic(auto)]

mod checked;
mod faults;
mod file_names;
mod names;
mod scopes;
mod value_types;

pub use checked::{both, first_of, noted, settled, take_up};
pub use faults::{is, not_built, types_differ, unknown, worded};
pub use file_names::FileNames;
pub use names::{cast_named, declared_type, is_boot_name, is_earlier, type_named};
pub use scopes::Scope;
pub use value_types::{
    are_conditions, are_numbers, casts, compares, goes_into, is_address, is_char, is_condition,
    is_element, is_equality, is_number, is_operand, is_text, of_address, of_choice, of_numbers,
    of_pointed, of_promoted, result_type,
};
