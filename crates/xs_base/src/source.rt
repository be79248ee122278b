//! Places in the input.
use crate::Bytes;

/// A place in a file: line and column, both counted from 1, the column in bytes.
#[derive(Clone, Copy, Debug, PartialEq, Eq)]
pub struct Span {
    pub line: u32,
    pub col: u32,
}

/// Which of the files that a command reads is meant.
#[derive(Clone, Copy, Debug, PartialEq, Eq)]
pub enum FileOf {
    /// The XS file.
    Xs,
    /// The typemap file.
    Typemap,
    /// The script of calls.
    Script,
    /// A C text that is run as it stands.
    Text,
}

/// A line of a file: its number, counted from 1, and its bytes without the line end. The text has
/// no byte 10.
#[derive(Debug, Drop)]
pub struct Line {
    pub number: u32,
    pub text: Bytes,
}
