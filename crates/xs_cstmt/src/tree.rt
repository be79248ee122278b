//! The trees of statements. Each node has the line of its first token.

use xs_base::{Bytes, Items};
use xs_cexpr::Expr;
use xs_ctok::Literal;

/// A word of the XS interface that is a statement with the `;` after it (perlxs, perlcall).
#[derive(Clone, Copy, Debug, PartialEq, Eq)]
pub enum PerlWord {
    DXsArgs,
    DXsI32,
    DSp,
    Enter,
    Leave,
    SaveTmps,
    FreeTmps,
    PutBack,
    SpAgain,
    XsReturnEmpty,
    XsReturnUndef,
    XsReturnYes,
    XsReturnNo,
}

/// A statement of the XS interface (perlxs, perlapi, perlcall).
#[derive(Debug, Drop)]
pub enum PerlForm {
    /// `WORD;`
    Word(PerlWord),
    /// `SP -= items;`
    ResetStack,
    /// `XSANY.any_i32 = INT;`
    SetIndex(Literal),
    /// `newXS_deffile("FULL", FUNCTION);`, which registers the XS function of a C name under a full
    /// Perl name; `keeps` where `cv = ` stands in front.
    NewXs {
        keeps: bool,
        full: Bytes,
        function: Bytes,
    },
    /// `Newxz(POINTER, 1, RECORD);`
    NewRecord {
        pointer: Bytes,
        record: Bytes,
    },
    /// `PERL_UNUSED_VAR(NAME);`
    Unused(Bytes),
}

/// A name that is declared, the number of `*` before it, and the value after `=`.
#[derive(Debug, Drop)]
pub struct Declarator {
    pub line: u32,
    pub stars: u32,
    pub name: Bytes,
    pub value: Option<Expr>,
}

/// Names that are declared with the type before them. Its stars stand with each name.
#[derive(Debug, Drop)]
pub struct Declared {
    pub line: u32,
    pub base: Bytes,
    pub names: Items<Declarator>,
}

/// What stands first in the head of a `for`.
#[derive(Debug, Drop)]
pub enum First {
    Nothing,
    Declare(Declared),
    Effect(Expr),
}

/// The head of a `for`.
#[derive(Debug, Drop)]
pub struct ForHead {
    pub first: First,
    pub test: Option<Expr>,
    pub step: Option<Expr>,
}

/// A label of a `switch`.
#[derive(Debug, Drop)]
pub enum Label {
    /// `case INT:`
    Int(u32, Literal),
    /// `case NAME:`
    Name(u32, Bytes),
    /// `default:`
    Default(u32),
}

/// A statement, or a declaration that stands directly in a block.
#[cycle(stmts)]
#[derive(Debug, Drop)]
pub enum Stmt {
    /// `{ .. }`
    Block(u32, Vec<Stmt>),
    /// `;`
    Empty(u32),
    /// `TYPE NAME, ..;`
    Declare(Declared),
    /// `EXPR;`
    Effect(u32, Expr),
    /// `if (EXPR) STATEMENT` without `else`
    If(u32, Expr, Box<Stmt>),
    /// `if (EXPR) STATEMENT else STATEMENT`
    IfElse(u32, Expr, Box<Stmt>, Box<Stmt>),
    /// `while (EXPR) STATEMENT`
    While(u32, Expr, Box<Stmt>),
    /// `do STATEMENT while (EXPR);`
    DoWhile(u32, Box<Stmt>, Expr),
    /// `for (..; ..; ..) STATEMENT`
    For(u32, ForHead, Box<Stmt>),
    /// `switch (EXPR) { .. }`
    Switch(u32, Expr, Vec<Group>),
    /// `break;`
    Break(u32),
    /// `continue;`
    Continue(u32),
    /// `return;` or `return EXPR;`
    Return(u32, Option<Expr>),
    /// A statement of the XS interface.
    Perl(u32, PerlForm),
}

/// Labels of a `switch` and the statements after them.
#[cycle(stmts)]
#[derive(Debug, Drop)]
pub struct Group {
    pub line: u32,
    pub labels: Items<Label>,
    pub body: Vec<Stmt>,
}
