//! Operators and casts whose operands are there.
ghost use Rattle.std.specs.Prelude.{◌≡◌, Some, length, true};
ghost use Rattle.xs_ctree.specs.Arena.{expr_fits, expr_from};
ghost use Rattle.xs_ctree.specs.Functions.{arena_of, expr_in};
ghost use Rattle.xs_ctypes.specs.Checked.{Good, judged};
ghost use Rattle.xs_ccheck.specs.ExprTyping as spec;
ghost use Rattle.xs_ccheck.specs.Resolving.{GivesExpr, HasTyped, typed_in};

use crate::exprs::{TypedNode, typed_as};
use std::alloc::Global;
use xs_base::Refuse;
use xs_csyn::BinaryOp;
use xs_ctree::{ExprNode, Typed, ValueType};
use xs_ctypes::{
    are_conditions, are_numbers, compares, is_condition, is_equality, of_choice, of_numbers,
    of_promoted, types_differ,
};
use xs_values::{Kind, Op, UnOp};

// An expression in parentheses.
pub(crate) fn passed(typed: &mut Typed, x: TypedNode) -> Result<TypedNode, Refuse>
    requires { HasTyped typed.old x }
    ensures { GivesExpr result typed.old typed.new (Good (spec.passed (typed_in typed.old x))) }
{
    typed_as(typed, ExprNode::Passed(x.node), x.of_type)
}

// A truth whose parts are there, where a test holds.
fn truth(
    alloc: Global,
    typed: &mut Typed,
    line: u32,
    test: bool,
    node: ExprNode,
) -> Result<TypedNode, Refuse>
    requires { expr_fits (arena_of typed.old) (length typed.old.exprs.items) node ≡ true }
    ensures { GivesExpr result typed.old typed.new (judged line (spec.truth test
        (expr_from (arena_of typed.old) (Some node) (expr_in typed.old)))) }
{
    if test {
        typed_as(typed, node, ValueType::Number(Kind::I32))
    } else {
        Err(types_differ(alloc, line))
    }
}

// An operand that an operator promotes.
fn promoting(
    alloc: Global,
    typed: &mut Typed,
    line: u32,
    op: UnOp,
    x: TypedNode,
) -> Result<TypedNode, Refuse>
    requires { HasTyped typed.old x }
    ensures { GivesExpr result typed.old typed.new
        (judged line (spec.promoting op (typed_in typed.old x))) }
{
    match of_promoted(op, x.of_type) {
        None => Err(types_differ(alloc, line)),
        Some(t) => typed_as(typed, ExprNode::Unary(op, x.node), t),
    }
}

// An operand behind an operator.
pub(crate) fn prefixed(
    alloc: Global,
    typed: &mut Typed,
    line: u32,
    op: UnOp,
    x: TypedNode,
) -> Result<TypedNode, Refuse>
    requires { HasTyped typed.old x }
    ensures { GivesExpr result typed.old typed.new
        (judged line (spec.prefixed op (typed_in typed.old x))) }
{
    match op {
        UnOp::Not => {
            let holds = is_condition(x.of_type);
            truth(alloc, typed, line, holds, ExprNode::Not(x.node))
        }
        UnOp::Plus => promoting(alloc, typed, line, UnOp::Plus, x),
        UnOp::Minus => promoting(alloc, typed, line, UnOp::Minus, x),
        UnOp::Complement => promoting(alloc, typed, line, UnOp::Complement, x),
    }
}

// Two numbers under an operator.
fn calculated(
    alloc: Global,
    typed: &mut Typed,
    line: u32,
    op: Op,
    a: TypedNode,
    b: TypedNode,
) -> Result<TypedNode, Refuse>
    requires a_in { HasTyped typed.old a }
    requires b_in { HasTyped typed.old b }
    ensures { GivesExpr result typed.old typed.new
        (judged line (spec.calculated op (typed_in typed.old a) (typed_in typed.old b))) }
{
    match of_numbers(op, a.of_type, b.of_type) {
        None => Err(types_differ(alloc, line)),
        Some(t) => typed_as(typed, ExprNode::Binary(op, a.node, b.node), t),
    }
}

// Whether an operator is `==`.
fn is_equal(op: Op) -> bool
    ensures { result ≡ spec.is_equal op }
{
    matches!(op, Op::Equal)
}

// Two pointers under `==` or `!=`.
fn compared(
    alloc: Global,
    typed: &mut Typed,
    line: u32,
    op: Op,
    a: TypedNode,
    b: TypedNode,
) -> Result<TypedNode, Refuse>
    requires a_in { HasTyped typed.old a }
    requires b_in { HasTyped typed.old b }
    ensures { GivesExpr result typed.old typed.new
        (judged line (spec.compared op (typed_in typed.old a) (typed_in typed.old b))) }
{
    let test = compares(a.of_type, b.of_type) && is_equality(op);
    let node = ExprNode::Same(is_equal(op), a.node, b.node);
    truth(alloc, typed, line, test, node)
}

fn operated(
    alloc: Global,
    typed: &mut Typed,
    line: u32,
    op: Op,
    a: TypedNode,
    b: TypedNode,
) -> Result<TypedNode, Refuse>
    requires a_in { HasTyped typed.old a }
    requires b_in { HasTyped typed.old b }
    ensures { GivesExpr result typed.old typed.new
        (judged line (spec.operated op (typed_in typed.old a) (typed_in typed.old b))) }
{
    if are_numbers(a.of_type, b.of_type) {
        calculated(alloc, typed, line, op, a, b)
    } else {
        compared(alloc, typed, line, op, a, b)
    }
}

// Two operands with an operator between them.
pub(crate) fn combined(
    alloc: Global,
    typed: &mut Typed,
    line: u32,
    op: BinaryOp,
    a: TypedNode,
    b: TypedNode,
) -> Result<TypedNode, Refuse>
    requires a_in { HasTyped typed.old a }
    requires b_in { HasTyped typed.old b }
    ensures { GivesExpr result typed.old typed.new
        (judged line (spec.combined op (typed_in typed.old a) (typed_in typed.old b))) }
{
    let conditions = are_conditions(a.of_type, b.of_type);
    match op {
        BinaryOp::On(op) => operated(alloc, typed, line, op, a, b),
        BinaryOp::Or => truth(alloc, typed, line, conditions, ExprNode::Or(a.node, b.node)),
        BinaryOp::And => truth(
            alloc,
            typed,
            line,
            conditions,
            ExprNode::And(a.node, b.node),
        ),
    }
}

// A choice of two values by a condition.
pub(crate) fn chosen(
    alloc: Global,
    typed: &mut Typed,
    line: u32,
    test: TypedNode,
    a: TypedNode,
    b: TypedNode,
) -> Result<TypedNode, Refuse>
    requires test_in { HasTyped typed.old test }
    requires a_in { HasTyped typed.old a }
    requires b_in { HasTyped typed.old b }
    ensures { GivesExpr result typed.old typed.new
        (judged line (spec.chosen line (typed_in typed.old test) (typed_in typed.old a)
        (typed_in typed.old b))) }
{
    match of_choice(test.of_type, a.of_type, b.of_type) {
        None => Err(types_differ(alloc, line)),
        Some(t) => {
            let node = ExprNode::Choice(line, t, test.node, a.node, b.node);
            typed_as(typed, node, t)
        }
    }
}
