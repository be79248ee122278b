//! The parameter lists of XSUBs: what each parameter is, or the first fault of a list (perlxs).
#![tactic(auto)]

mod checks;
mod defaults;
mod form;
mod heads;
mod laws;
mod opens;
mod param;
mod reading;
mod source_text;
mod states;
mod steps;
mod token_tests;

pub use laws::{clear_law, form_law, params_law, text_law};
pub use param::{Dir, Param, ParamList, Preset};
pub use reading::read_params;
