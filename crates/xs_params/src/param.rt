//! The parameters of an XSUB.
use xs_base::{Bytes, Items};

/// Which way the value of a parameter goes (perlxs: "The IN/OUTLIST/IN_OUTLIST/OUT/IN_OUT
/// Keywords").
#[derive(Clone, Copy, Debug, PartialEq, Eq)]
pub enum Dir {
    /// It is read from the argument. This is so without a word of direction.
    In,
    /// It is written into the argument.
    Out,
    /// Both.
    InOut,
    /// It is returned in a list, and no argument stands for it.
    OutList,
    /// It is read from the argument, and returned in a list.
    InOutList,
}

/// What a parameter has where its argument is missing (perlxs: "Default Parameter Values", "The
/// NO_INIT Keyword").
#[derive(Debug, Drop)]
pub enum Preset {
    /// `NO_INIT`: nothing.
    NoInit,
    /// A C expression, as it stands in the list.
    Code(Bytes),
}

/// A parameter.
#[derive(Debug, Drop)]
pub struct Param {
    /// Its name, or the name in `length(NAME)`.
    pub name: Bytes,
    /// Its type as far as it stands in the list: words with one space between them, and after
    /// one space the `*`.
    pub ctype: Option<Bytes>,
    pub dir: Dir,
    pub default: Option<Preset>,
    /// Whether it is the length of the text of that name (perlxs: "The length(NAME) Keyword").
    pub is_length: bool,
    /// Whether a `&` stands before its name (perlxs: "The & Unary Operator").
    pub by_address: bool,
    /// The line of its name.
    pub line: u32,
    /// The line where its type begins, or without one that of its first word after a direction.
    pub type_line: u32,
}

/// A parameter list.
#[derive(Debug, Drop)]
pub struct ParamList {
    pub params: Items<Param>,
    /// Whether `...` ends the list (perlxs: "Variable-length Parameter Lists").
    pub ellipsis: bool,
    /// The line of its `)`.
    pub last_line: u32,
}
