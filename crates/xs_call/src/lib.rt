//! The calls that the program makes.
#![tactic(auto)]

mod calls;
mod job;
mod laws;
mod running;

pub use calls::built_calls;
pub use job::{call, check, compile};
pub use laws::{
    files_give_sums, glue_runs_as_declared, written_text_resolves, written_text_runs_as_declared,
};
pub use running::TURNS;
