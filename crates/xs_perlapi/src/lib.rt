//! Perl's API as XS code writes it: one table of its words, types and marks.
#![tactic(auto)]

mod formats;
mod interface_words;
mod laws;
mod row;
mod table;

pub use formats::{FORMATS, Format, Piece, PieceFront, croak_pieces, format_at};
pub use interface_words::{INTERFACE_WORDS, InterfaceWord, Meaning, is_interface_word, meaning_of};
pub use laws::{
    croak_texts_law, formats_are_found, formats_differ, found_words_stand, names_stand_alone,
    operand_words_stand, other_words_are_found, other_words_differ, rows_are_counted,
    words_are_found, words_differ, words_without_row,
};
pub use row::{ApiType, CodeForm, Mark, ResultState, Row, Stands, Written};
pub use table::{
    Entry, OPERAND_WORDS, ROWS, Signature, WordSignature, is_api_word, is_operand_word, row_named,
    word_written,
};
