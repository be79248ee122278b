//! Literals as expressions.
ghost use Rattle.std.specs.Prelude.{◌≡◌, IfOk, option_map};
ghost use Rattle.xs_cexpr.specs.ExpressionReader as spec;
ghost use Rattle.xs_cexpr.specs.ExpressionViews.{expr_tree};

use crate::Expr;
use std::alloc::Global;
use xs_base::Memory;
use xs_cinput::Cursor;
use xs_ctok::TokKind;

// The integer, the character or the text that a token of this kind is.
#[tactic(auto, using(crate::proofs::ViewsCompute::views))]
fn literal_of(alloc: Global, line: u32, kind: &TokKind) -> Result<Option<Expr>, Memory>
    ensures { IfOk result (λ o. option_map expr_tree o ≡ spec.literal_of line kind.now) }
{
    match kind {
        TokKind::Int(literal) => Ok(Some(Expr::Int(line, *literal))),
        TokKind::Char(byte) => Ok(Some(Expr::Char(line, *byte))),
        TokKind::Text(text) => Ok(Some(Expr::Text(line, text.copy(alloc)?))),
        _ => Ok(None),
    }
}

/// The integer, the character or the text that comes next, if one does.
#[tactic(auto, unfolding(crate::specs::ExpressionReader::literal))]
pub fn literal(alloc: Global, cursor: &Cursor<'_, '_>, line: u32) -> Result<Option<Expr>, Memory>
    ensures { IfOk result (λ o. option_map expr_tree o ≡ spec.literal line cursor.now) }
{
    match cursor.first() {
        None => Ok(None),
        Some(first) => literal_of(alloc, line, &first.kind),
    }
}
