//! The declared meaning of an interface, and the lines of a transcript.
#![tactic(auto)]

mod call_command;
mod laws;
mod transcript_lines;

pub use call_command::CallCommand;
pub use laws::declared_calls_only_add;
pub use transcript_lines::{
    arg_line, call_text, croaked_text, item_line, live_line, own_trap_text, returned_text,
    trapped_text,
};
