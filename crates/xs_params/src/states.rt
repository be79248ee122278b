//! What may come next in a parameter list, and what a token does there.
use crate::opens::Opens;
use crate::param::{Dir, Param};
use xs_base::{Bytes, Span};

/// What stands before the name of a parameter.
#[derive(Debug, Drop)]
pub struct Head {
    pub dir: Option<Dir>,
    pub ctype: Option<Bytes>,
    pub type_line: u32,
}

/// What stands before the name of a parameter that has a type.
#[derive(Debug, Drop)]
pub struct Typed {
    pub dir: Option<Dir>,
    pub ctype: Bytes,
    pub type_line: u32,
}

/// A parameter up to its name.
#[derive(Debug, Drop)]
pub struct Named {
    pub head: Head,
    pub name: Bytes,
    /// The line of the name.
    pub line: u32,
    pub by_address: bool,
}

/// Where the tokens of a default stand.
#[derive(Clone, Copy, Debug, PartialEq, Eq)]
pub struct Extent {
    /// The first byte.
    pub from: Span,
    /// The line of the last token.
    pub to_line: u32,
    /// The column after the last byte.
    pub to_col: usize,
    /// Whether `NO_INIT` is all of it.
    pub no_init: bool,
}

/// A default that is being read.
#[derive(Debug, Drop)]
pub struct Pending {
    /// The parameter, which stands with NO_INIT until its default is read.
    pub param: Param,
    pub opens: Opens,
    /// Where its tokens stand so far, if there are any.
    pub extent: Option<Extent>,
}

/// What stands right before the next token, and so what that may be.
#[derive(Debug, Drop)]
pub enum Due {
    /// The `(` of the list.
    First,
    /// A `,`.
    Next,
    /// A word of direction, which is the name where a parameter ends after it.
    Direction(Dir, Named),
    /// Words, the last of which is the name where no further word follows.
    Words(Named),
    /// A type with stars.
    Stars(Typed),
    /// A type and `&`.
    Address(Typed),
    /// A name after stars or `&`.
    Name(Named),
    /// `length(`.
    LengthOpen(Head),
    /// `length(NAME`.
    LengthName(Named),
    /// `length(NAME)`.
    Length(Param),
    /// `=`, and a part of a default or nothing.
    Default(Pending),
    /// `...`.
    Ellipsis,
}

/// What a token does.
#[derive(Debug, Drop)]
pub enum Step {
    /// It stands in a parameter.
    On(Due),
    /// It is a `,` after this parameter.
    Ended(Param),
    /// It is the `)` of the list, after this parameter if there is one; whether after `...`.
    Closed(Option<Param>, bool),
    /// It has no reading here. The parameter that it stands in, where that is named.
    Stray(Option<Param>),
}
