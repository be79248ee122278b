//! The tokens of C text: what the grammar of C, and all that is read by it, stands on.
#![tactic(auto)]

mod directives;
mod front;
mod laws;
mod lexing;
mod numerals;
mod punctuators;
mod quoted;
mod token;
mod words;

pub use laws::{
    codes_law, digit_law, joined_law, placed_law, relined_law, spelled_law, suffix_law,
};
pub use lexing::{are_short, tokens};
pub use token::{Literal, TokKind, Token};
pub use words::{is_dropped_statement, is_dropped_word, is_no_name, is_reserved, is_type_word};
