//! Laws of runs of the machine that are about no XS file: the arguments of a call, single
//! statements on counted scalars, and the ends of calls.
#![tactic(auto)]

mod laws;

pub use laws::{arguments_are_made_and_freed, calls_without_a_function};
