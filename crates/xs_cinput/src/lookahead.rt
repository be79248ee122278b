//! What the next token stands for.
ghost use Rattle.std.specs.Option.{option_copied};
ghost use Rattle.std.specs.Prelude.{◌≡◌};
ghost use Rattle.xs_cinput.specs.Operators as spec;

use crate::cursor::Cursor;
use crate::operators::{ASSIGNMENTS, BINARY_OPS, PREFIX_OPS, STEPS};
use crate::token_tests::sign_in;
use crate::{BinaryOp, Step};
use xs_values::{Op, UnOp};

/// The operator between operands that bind at least so tightly, if one comes next, with how tightly
/// it binds.
#[tactic(auto, unfolding(crate::specs::Operators::operator, crate::specs::Operators::binary_ops))]
pub fn operator(cursor: &Cursor<'_, '_>, tight: u32) -> Option<(BinaryOp, u32)>
    ensures { result ≡ spec.operator tight cursor.now }
{
    match sign_in(&BINARY_OPS, cursor.first()?) {
        Some((op, binds)) if tight <= binds => Some((op, binds)),
        _ => None,
    }
}

/// The assignment whose sign comes next, if one does.
#[tactic(auto, unfolding(crate::specs::Operators::assignment, crate::specs::Operators::assignments))]
pub fn assignment(cursor: &Cursor<'_, '_>) -> Option<Option<Op>>
    ensures { result ≡ spec.assignment cursor.now }
{
    sign_in(&ASSIGNMENTS, cursor.first()?)
}

/// The operator before its operand, if one comes next.
#[tactic(auto, unfolding(crate::specs::Operators::prefix_op, crate::specs::Operators::prefix_ops))]
pub fn prefix_op(cursor: &Cursor<'_, '_>) -> Option<UnOp>
    ensures { result ≡ spec.prefix_op cursor.now }
{
    sign_in(&PREFIX_OPS, cursor.first()?)
}

/// The step of a place, if one comes next.
#[tactic(auto, unfolding(crate::specs::Operators::a_step, crate::specs::Operators::steps))]
pub fn a_step(cursor: &Cursor<'_, '_>) -> Option<Step>
    ensures { result ≡ spec.a_step cursor.now }
{
    sign_in(&STEPS, cursor.first()?)
}
