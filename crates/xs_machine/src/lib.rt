//! The machine that runs typed code, one step at a time, over Perl's state.
#![tactic(auto)]

mod dispatch;
mod laws;
mod machine;
mod work;

pub use laws::{call_means, machine_follows_meaning, places_do_not_matter, run_ends};
pub use machine::{Machine, Outcome, Step};
