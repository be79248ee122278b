//! Templates of typemap code: they are cut into texts and variables, and expanded.
#![tactic(auto)]

mod assignment;
mod cutting;
mod expansion;
mod laws;
mod template;
mod variables;

pub use cutting::check_template;
pub use expansion::expand;
pub use laws::assignments_are_told;
pub use template::{Names, Piece, Template};
pub use variables::Variable;
