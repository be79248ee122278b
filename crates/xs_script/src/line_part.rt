//! The parts of a command.
use xs_base::Bytes;

/// A part of a command.
#[derive(Debug, Drop)]
pub enum Token {
    /// Identifiers joined by `::`.
    Name(Bytes),
    /// A number as it stands: an optional `-` and digits.
    Number(Bytes),
    /// The bytes that a text in quotes stands for.
    Text(Bytes),
    Mark(Mark),
}

/// A part that is no word, no number and no text.
#[derive(Clone, Copy, Debug, PartialEq, Eq)]
pub enum Mark {
    /// `=`
    Equals,
    /// `=>`
    Arrow,
    /// `(`
    OpenRound,
    /// `)`
    CloseRound,
    /// `[`
    OpenSquare,
    /// `]`
    CloseSquare,
    /// `{`
    OpenCurly,
    /// `}`
    CloseCurly,
    /// `,`
    Comma,
    /// `;`
    Semicolon,
    /// `\`
    Backslash,
}

/// What stands at the front of the rest of a line.
#[derive(Debug, Drop)]
pub enum Front {
    /// A byte between two parts.
    Blank,
    /// A part of this many bytes.
    Piece(Token, usize),
    /// No part begins here.
    Nothing,
}

/// Why the reading of a line ends early.
#[derive(Clone, Copy, Debug, PartialEq, Eq)]
pub enum Stop {
    /// The line has no reading.
    Unread,
    /// Out of memory.
    Memory,
}

/// What kind of part comes next.
#[derive(Clone, Copy, Debug, PartialEq, Eq)]
pub enum Kind {
    Name,
    Number,
    Text,
    Mark,
    /// The line ends.
    End,
}
