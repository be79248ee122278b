//! The trees of files. Each node has the line of its first token.

use xs_base::{Bytes, Items};
use xs_cinput::CType;
use xs_cstmt::Stmt;
use xs_ctok::Literal;
use xs_values::DataModel;

/// A type and the name with it: a field of a record, or a parameter.
#[derive(Debug, Drop)]
pub struct Par {
    /// The line of the name.
    pub line: u32,
    pub of_type: CType,
    pub name: Bytes,
}

/// `#define NAME INT`
#[derive(Debug, Drop)]
pub struct Define {
    pub line: u32,
    pub name: Bytes,
    pub literal: Literal,
}

/// `typedef TYPE NAME;`
#[derive(Debug, Drop)]
pub struct Typedef {
    pub line: u32,
    pub of_type: CType,
    pub name: Bytes,
    pub name_line: u32,
}

/// `typedef struct { TYPE NAME; .. } NAME;`
#[derive(Debug, Drop)]
pub struct Record {
    pub line: u32,
    pub fields: Items<Par>,
    pub name: Bytes,
    pub name_line: u32,
}

/// What stands before the body of a function.
#[derive(Debug, Drop)]
pub struct Head {
    pub line: u32,
    pub result: CType,
    pub name: Bytes,
    pub pars: Items<Par>,
}

/// A function with its body.
#[derive(Debug, Drop)]
pub struct Function {
    pub head: Head,
    pub body: Vec<Stmt>,
}

/// `XS(NAME) { .. }`: the C name of an XS function and its statements.
#[derive(Debug, Drop)]
pub struct XsFun {
    pub line: u32,
    pub name: Bytes,
    pub body: Vec<Stmt>,
}

/// What stands at the outer level of a file.
#[derive(Debug, Drop)]
pub enum FileItem {
    Typedef(Typedef),
    Record(Record),
    /// `TYPE NAME(..);`, which has no effect.
    Prototype(Head),
    Function(Function),
    XsFun(XsFun),
}

/// A file, and the data model that says how wide its types are.
#[derive(Debug, Drop)]
pub struct CFile {
    pub model: DataModel,
    pub defines: Items<Define>,
    pub items: Items<FileItem>,
}
