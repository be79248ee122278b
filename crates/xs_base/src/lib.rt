//! What every layer of the compiler stands on: bytes, lines, what stands in front of a text, faults
//! of the input, and the edges where files come in and text goes out.
#![tactic(auto)]

mod byte_runs;
mod bytes;
mod cutting;
mod desk;
mod failures;
mod fault;
pub mod fault_codes;
mod faults;
mod host;
mod items;
mod joining;
mod laws;
mod mem_desk;
mod mem_sink;
mod memory;
mod names;
mod scanning;
mod sink;
mod source;
mod token_list;

pub use byte_runs::{
    ByteClass, after_blanks, are_all, belongs, cut_run, is_blank_line, is_decimal, is_remark,
    starts_with_class,
};
pub use bytes::Bytes;
pub use cutting::{early_end, lines, without_carriage_return};
pub use desk::{Desk, DeskFault};
pub use fault::{Fault, Refuse};
pub use fault_codes::fault_text;
pub use faults::{earlier, is_before, unless_fault};
pub use host::{HostDesk, HostSink};
pub use items::{Items, add, with_more};
pub use joining::{decimal_text, join, together};
pub use laws::{each_code_has_its_text, qualified_names_are_joined};
pub use mem_desk::{HeldFile, MemDesk};
pub use mem_sink::MemSink;
pub use memory::Memory;
pub use names::{NameByte, is_among, is_among_names, is_identifier, is_qualified_name};
pub use scanning::{
    begins_word, digits_value, is_ascii_digit, is_blank, is_letter, is_word_byte, starts_with,
    strip_byte, strip_prefix,
};
pub use sink::{Sink, SinkFault, put_all};
pub use source::{FileOf, Line, Span};
pub use token_list::TokenList;
