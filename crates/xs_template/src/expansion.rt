//! A template is expanded.
ghost use Rattle.std.specs.Prelude.{◌≡◌, ◌++◌, ◌-◌, ◌^◌, ◌<◌, IfOk, OnOk, length};
ghost use Rattle.xs_template.specs.TemplatePieces as spec;

use crate::template::{Names, Piece, Template};
use crate::variables::Variable;
use std::alloc::Global;
use xs_base::{Bytes, Memory};

/// A template with each variable replaced by what it stands for. An expanded template of 2^32 - 1
/// bytes or more counts as out of memory.
pub fn expand(alloc: Global, t: &Template, n: &Names) -> Result<Bytes, Memory>
    ensures exact { IfOk result (λ text. text ≡ spec.expanded n.now t.now) }
    ensures short { IfOk result (λ text. length text < 2 ^ 32 - 1) }
{
    let text = expanded(alloc, t.pieces(), n)?;
    if text.len() < 4294967295 {
        Ok(text)
    } else {
        Err(Memory)
    }
}

#[tactic(auto, using(std::proofs::Common::append_assoc))]
fn expanded(alloc: Global, pieces: &[Piece], n: &Names) -> Result<Bytes, Memory>
    ensures { IfOk result (λ text. text ≡ spec.expanded n.now pieces.now) }
{
    let mut text = Bytes::new(alloc);
    for piece in pieces {
        add_piece(alloc, &mut text, piece, n)?;
    }
    Ok(text)
}

fn add_piece(alloc: Global, text: &mut Bytes, piece: &Piece, n: &Names) -> Result<(), Memory>
    ensures { OnOk result (text.new ≡ text.old ++ spec.piece_text n.now piece.now) }
{
    match piece {
        Piece::Text(part) => text.append(part.as_slice()),
        Piece::Named(variable) => add_value(alloc, text, *variable, n),
    }
}

// What a variable stands for, at the end of a text.
fn add_value(alloc: Global, text: &mut Bytes, variable: Variable, n: &Names) -> Result<(), Memory>
    ensures { OnOk result (text.new ≡ text.old ++ spec.value_of n.now variable) }
{
    match variable {
        Variable::Var => text.append(n.var.as_slice()),
        Variable::Arg => text.append(n.arg.as_slice()),
        Variable::CType => text.append(n.ctype.as_slice()),
        Variable::Ntype => text.append(n.ntype.as_slice()),
        Variable::Package => text.append(n.package.as_slice()),
        Variable::FuncName => text.append(n.func_name.as_slice()),
        Variable::Pname => text.append(n.pname.as_slice()),
        Variable::Argoff => text.append_number(alloc, n.argoff as u64),
    }
}
