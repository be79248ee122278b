//! The interface of a module: what an XS file says of the C functions that Perl is to call.
#![tactic(auto)]

mod drafts;
mod laws;
mod module_reading;
mod paragraph;
mod passed_lines;
mod repeats;
mod reserved_words;
mod resolving;
mod scan;
mod spelling;
mod terms;
mod xsub;

pub use laws::{module_is_of_built_forms, module_is_of_sums, unbuilt_form_has_its_line};
pub use module_reading::read_module;
pub use paragraph::is_sum_xsub;
pub use spelling::underscored;
pub use xsub::{Module, Param, Term, Xsub};
