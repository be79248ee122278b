//! Scripts: the commands that a caller of the compiled functions writes, and the text of plain
//! values.
#![tactic(auto)]

mod around;
mod command;
mod command_reading;
mod command_words;
mod cursor;
mod line_part;
mod line_parts;
mod scope;
mod script;
mod script_number;
mod stop;
mod text;
mod value;

pub use command::{Action, Command, E, Number};
pub use script::read_script;
pub use text::{quoted, value_text};
