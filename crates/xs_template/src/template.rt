//! A template is a row of texts and variables.
ghost use Rattle.std.specs.Prelude.{◌≡◌};

use crate::variables::Variable;
use std::marker::Model;
use xs_base::{Bytes, Items};

/// A text that stands as it is, or a variable.
#[derive(Debug, Drop)]
pub enum Piece {
    Text(Bytes),
    Named(Variable),
}

/// A template. Contracts see the list of its pieces.
#[derive(Debug, Drop)]
pub struct Template {
    pieces: Items<Piece>,
}

impl Model for Template {
    ghost use Rattle.std.specs.Prelude.{List};
    ghost use Rattle.xs_template.specs.declared.template.Piece.{Piece};

    ghost Value = { List Piece };

    ghost view = { λ t. t.pieces };
}

impl Template {
    /// A template of these pieces.
    pub fn new(pieces: Items<Piece>) -> Template
        ensures { result ≡ pieces }
    {
        Template { pieces }
    }

    /// The pieces, borrowed.
    pub fn pieces(&self) -> &[Piece]
        ensures { result.now ≡ self.now }
    {
        self.pieces.as_slice()
    }
}

/// What the variables of a template stand for.
#[derive(Debug, Drop)]
pub struct Names {
    pub var: Bytes,
    pub arg: Bytes,
    pub ctype: Bytes,
    pub ntype: Bytes,
    pub package: Bytes,
    pub func_name: Bytes,
    pub pname: Bytes,
    pub argoff: u32,
}
