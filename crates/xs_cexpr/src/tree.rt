//! The trees of expressions. Each node has the line of its first token.

use xs_base::Bytes;
use xs_cinput::{BinaryOp, CType, Step};
use xs_ctok::Literal;
use xs_values::{Op, UnOp};

/// An expression.
#[cycle(tree)]
#[derive(Debug, Drop)]
pub enum Expr {
    /// A name that stands for a value.
    Name(u32, Bytes),
    /// An integer literal.
    Int(u32, Literal),
    /// A character literal, by its byte.
    Char(u32, u8),
    /// A text in quotes, by the bytes that it stands for.
    Text(u32, Bytes),
    /// A call: the name of what is called, and the arguments in order.
    Call(u32, Bytes, Vec<Expr>),
    /// `(EXPR)`
    Paren(u32, Box<Expr>),
    /// `INT2PTR(TYPE, EXPR)` (perlapi)
    Int2Ptr(u32, CType, Box<Expr>),
    /// `EXPR[EXPR]`
    Index(u32, Box<Expr>, Box<Expr>),
    /// `NAME->NAME`: the pointer and the field.
    Arrow(u32, Bytes, Bytes),
    /// An operator before its operand.
    Unary(u32, UnOp, Box<Expr>),
    /// `(TYPE)EXPR`
    Cast(u32, CType, Box<Expr>),
    /// `*EXPR`
    Deref(u32, Box<Expr>),
    /// `&NAME`
    Address(u32, Bytes),
    /// `++PLACE` or `--PLACE`
    Before(u32, Step, Place),
    /// `PLACE++` or `PLACE--`
    After(u32, Place, Step),
    /// Two operands with an operator between them, the left one first.
    Binary(u32, BinaryOp, Box<Expr>, Box<Expr>),
    /// `EXPR ? EXPR : EXPR`
    Choice(u32, Box<Expr>, Box<Expr>, Box<Expr>),
    /// `PLACE = EXPR`, or with an operator, `PLACE += EXPR` and its like.
    Assign(u32, Place, Option<Op>, Box<Expr>),
}

/// What can be assigned to.
#[cycle(tree)]
#[derive(Debug, Drop)]
pub enum Place {
    /// A variable by its name.
    Variable(u32, Bytes),
    /// `*NAME`
    Target(u32, Bytes),
    /// `NAME->NAME`: the pointer and the field.
    Field(u32, Bytes, Bytes),
    /// `ST(EXPR)`, a place of the argument list (perlxs).
    St(u32, Box<Expr>),
}
