//! What is assigned to, and assignments and steps whose parts are there.
ghost use Rattle.std.specs.Prelude.{◌≡◌};
ghost use Rattle.xs_ctree.specs.declared.typed.Typed.{Typed};
ghost use Rattle.xs_ctypes.specs.Checked.{judged};
ghost use Rattle.xs_ccheck.specs.ExprTyping as spec;
ghost use Rattle.xs_ccheck.specs.Resolving.{GivesExpr, GivesTarget, HasTarget, HasTyped, target_in, typed_in};

use crate::exprs::{PlaceNode, TypedNode, typed_as};
use std::alloc::Global;
use xs_base::fault_codes::{NOT_ASSIGNABLE, UNKNOWN_NAME};
use xs_base::{Fault, FileOf, Refuse};
use xs_csyn::Step;
use xs_ctree::{ExprNode, Slot, StepOp, TargetNode, Typed, ValueType};
use xs_ctypes::{are_numbers, goes_into, is, is_address, is_number, types_differ, unknown};
use xs_values::Op;

// ---- places

// The fault of what is not assignable.
fn not_assignable(alloc: Global, line: u32) -> Result<PlaceNode, Refuse>
    ensures { (t : Typed) → GivesTarget result t t (judged line spec.not_assigned) }
{
    Err(Refuse::Fault(Fault::bare(alloc, FileOf::Text, line, NOT_ASSIGNABLE)))
}

// A variable that is known, as what is assigned to.
fn assignable(alloc: Global, line: u32, v: Slot) -> Result<PlaceNode, Refuse>
    ensures { (t : Typed) → GivesTarget result t t (judged line (spec.known_place v)) }
{
    if is_address(v.of_type) {
        return not_assignable(alloc, line);
    }
    Ok(PlaceNode {
        target: TargetNode::Variable(v.number, v.of_type),
        of_type: v.of_type,
    })
}

// A variable that is assigned to.
pub(crate) fn variable_place(
    alloc: Global,
    line: u32,
    name: &[u8],
    variable: Option<Slot>,
) -> Result<PlaceNode, Refuse>
    ensures { (t : Typed)
        → GivesTarget result t t (judged line (spec.variable_place name.now variable)) }
{
    if let Some(v) = variable {
        return assignable(alloc, line, v);
    }
    if is(name, b"items") {
        return Err(Refuse::Fault(Fault::bare(alloc, FileOf::Text, line, NOT_ASSIGNABLE)));
    }
    Err(Refuse::Fault(unknown(alloc, UNKNOWN_NAME, line, name)?))
}

// An item of the argument stack that is assigned to.
pub(crate) fn item_place(alloc: Global, line: u32, x: TypedNode) -> Result<PlaceNode, Refuse>
    ensures { (t : Typed) → HasTyped t x
        → GivesTarget result t t (judged line (spec.item_place (typed_in t x))) }
{
    if is_number(x.of_type) {
        Ok(PlaceNode {
            target: TargetNode::Item(x.node),
            of_type: ValueType::Scalar,
        })
    } else {
        Err(types_differ(alloc, line))
    }
}

// An assignment.
fn assigned(
    alloc: Global,
    typed: &mut Typed,
    line: u32,
    to: PlaceNode,
    x: TypedNode,
) -> Result<TypedNode, Refuse>
    requires to_in { HasTarget typed.old to }
    requires x_in { HasTyped typed.old x }
    ensures { GivesExpr result typed.old typed.new
        (judged line (spec.assigned line (target_in typed.old to) (typed_in typed.old x))) }
{
    if goes_into(x.of_type, to.of_type) {
        typed_as(typed, ExprNode::Assign(line, to.target, x.node), to.of_type)
    } else {
        Err(types_differ(alloc, line))
    }
}

// What a pointer in a slot points to.
fn target_of(alloc: Global, line: u32, slot: u32, t: ValueType) -> Result<PlaceNode, Refuse>
    ensures { (s : Typed) → GivesTarget result s s (judged line (spec.target_of slot t)) }
{
    match t {
        ValueType::Address(kind) => Ok(PlaceNode {
            target: TargetNode::Pointed(slot, kind),
            of_type: ValueType::Number(kind),
        }),
        ValueType::Text | ValueType::Place => not_assignable(alloc, line),
        _ => Err(types_differ(alloc, line)),
    }
}

// What a name points to, as what is assigned to.
pub(crate) fn target_place(
    alloc: Global,
    line: u32,
    name: &[u8],
    variable: Option<Slot>,
) -> Result<PlaceNode, Refuse>
    ensures { (t : Typed)
        → GivesTarget result t t (judged line (spec.target_place name.now variable)) }
{
    if let Some(v) = variable {
        return target_of(alloc, line, v.number, v.of_type);
    }
    if is(name, b"items") {
        return Err(types_differ(alloc, line));
    }
    Err(Refuse::Fault(unknown(alloc, UNKNOWN_NAME, line, name)?))
}

// ---- assignments with an operator, and steps

// An assignment with an operator.
fn compounded(
    alloc: Global,
    typed: &mut Typed,
    line: u32,
    op: Op,
    to: PlaceNode,
    x: TypedNode,
) -> Result<TypedNode, Refuse>
    requires to_in { HasTarget typed.old to }
    requires x_in { HasTyped typed.old x }
    ensures { GivesExpr result typed.old typed.new
        (judged line (spec.compounded line op (target_in typed.old to) (typed_in typed.old x))) }
{
    if are_numbers(to.of_type, x.of_type) {
        let node = ExprNode::Compound(line, to.target, op, x.node);
        typed_as(typed, node, to.of_type)
    } else {
        Err(types_differ(alloc, line))
    }
}

// An assignment, with an operator or without one.
pub(crate) fn set_to(
    alloc: Global,
    typed: &mut Typed,
    line: u32,
    op: Option<Op>,
    to: PlaceNode,
    x: TypedNode,
) -> Result<TypedNode, Refuse>
    requires to_in { HasTarget typed.old to }
    requires x_in { HasTyped typed.old x }
    ensures { GivesExpr result typed.old typed.new
        (judged line (spec.set_to line op (target_in typed.old to) (typed_in typed.old x))) }
{
    match op {
        None => assigned(alloc, typed, line, to, x),
        Some(op) => compounded(alloc, typed, line, op, to, x),
    }
}

// A step in front of a place.
pub(crate) fn front_step(by: Step) -> StepOp
    ensures { result ≡ spec.front_step by }
{
    match by {
        Step::Up => StepOp::PrefixIncrement,
        Step::Down => StepOp::PrefixDecrement,
    }
}

// A step behind a place.
pub(crate) fn back_step(by: Step) -> StepOp
    ensures { result ≡ spec.back_step by }
{
    match by {
        Step::Up => StepOp::PostfixIncrement,
        Step::Down => StepOp::PostfixDecrement,
    }
}

// A step of what is assigned to.
pub(crate) fn stepped(
    alloc: Global,
    typed: &mut Typed,
    line: u32,
    op: StepOp,
    to: PlaceNode,
) -> Result<TypedNode, Refuse>
    requires { HasTarget typed.old to }
    ensures { GivesExpr result typed.old typed.new
        (judged line (spec.stepped line op (target_in typed.old to))) }
{
    if is_number(to.of_type) {
        typed_as(typed, ExprNode::StepOf(line, op, to.target), to.of_type)
    } else {
        Err(types_differ(alloc, line))
    }
}
