//! The head of a `for`.
ghost use Rattle.std.specs.Prelude.{◌≡◌, IfOk, None, Ok, Some, drop, length, map, option_map, true};
ghost use Rattle.xs_cexpr.specs.ExpressionViews.{expr_tree};
ghost use Rattle.xs_cstmt.specs.StatementViews.{first_tree};
ghost use Rattle.xs_ctree.specs.Arena.{option_below, test_fits, test_from};
ghost use Rattle.xs_ctree.specs.Functions.{expr_in};
ghost use Rattle.xs_ctree.specs.TypedTree as tree;
ghost use Rattle.xs_ctree.specs.declared.typed.Typed.{Typed};
ghost use Rattle.xs_ccheck.specs.ExprTyping as exprs;
ghost use Rattle.xs_ccheck.specs.Resolving.{ForEnds, GivesOption, GivesStmt, HasForParts, HasOption, UnlessMemory, option_in};
ghost use Rattle.xs_ctypes.specs.Scopes as scopes;
ghost use Rattle.xs_ccheck.specs.StmtTyping as spec;

use crate::declarations::declaration;
use crate::exprs::{TypedNode, expr};
use crate::stmt_nodes::{block, done, nothing, pair};
use std::alloc::Global;
use xs_base::Refuse;
use xs_csyn::{Expr, First};
use xs_ctree::{Slot, StmtNode, TestNode, Typed};
use xs_ctypes::{Scope, is_condition, types_differ};

// An expression, where there is one.
pub(crate) fn option_expr(
    alloc: Global,
    typed: &mut Typed,
    scope: &Scope,
    e: &Option<Expr>,
) -> Result<Option<TypedNode>, Refuse>
    ensures { GivesOption result typed.old typed.new
        (exprs.option_expr scope.now.variables (option_map expr_tree e.now)) }
{
    match e {
        None => Ok(None),
        Some(e) => {
            let x = expr(alloc, typed, scope, e)?;
            Ok(Some(x))
        }
    }
}

// What stands first in the head of a `for`.
pub(crate) fn first_part(
    alloc: Global,
    typed: &mut Typed,
    scope: &mut Scope,
    first: &First,
) -> Result<u32, Refuse>
    ensures stmt { GivesStmt result typed.old typed.new
        (spec.first_part scope.old (first_tree first.now)) }
    ensures scope { UnlessMemory result (scope.new
        ≡ scopes.first_behind scope.old (first_tree first.now)) }
{
    match first {
        First::Nothing => nothing(typed),
        First::Declare(d) => declaration(alloc, typed, scope, d),
        First::Effect(e) => {
            let x = expr(alloc, typed, scope, e)?;
            done(typed, StmtNode::Effect(x.node))
        }
    }
}

// Whether an expression, where there is one, may be a condition.
fn is_test(test: Option<TypedNode>) -> bool
    ensures { (t : Typed)
        → result ≡ spec.is_test (option_map (λ x. x.of_type) (option_in t test)) }
{
    match test {
        None => true,
        Some(x) => is_condition(x.of_type),
    }
}

// When a loop with this test goes on.
fn test_node(test: Option<TypedNode>) -> TestNode
    ensures is { (t : Typed)
        → test_from result (expr_in t) ≡ spec.test_of (option_in t test) }
    ensures fits { (t : Typed) → HasOption t test
        → test_fits (length t.exprs.items) result ≡ true }
{
    match test {
        None => TestNode::Always,
        Some(x) => TestNode::When(x.node),
    }
}

// The node of an expression, where there is one.
fn node_of(e: Option<TypedNode>) -> Option<u32>
    ensures is { (t : Typed) → option_map (expr_in t) result
        ≡ option_map (λ x. x.tree) (option_in t e) }
    ensures fits { (t : Typed) → HasOption t e
        → option_below (length t.exprs.items) result ≡ true }
{
    match e {
        None => None,
        Some(x) => Some(x.node),
    }
}

// A `for` of these parts, which declares these slots.
fn for_node(
    alloc: Global,
    typed: &mut Typed,
    line: u32,
    slots: &[Slot],
    parts: (u32, (Option<TypedNode>, (Option<TypedNode>, u32))),
) -> Result<u32, Refuse>
    requires { HasForParts typed.old parts }
    ensures { ForEnds line (Ok parts) slots.now typed.old result typed.new }
{
    let (first, (test, (step, body))) = parts;
    if !is_test(test) {
        return Err(types_differ(alloc, line));
    }
    let node = StmtNode::Loop(line, true, test_node(test), node_of(step), body);
    let turns = typed.add_stmt(node)?;
    let all = pair(alloc, first, turns)?;
    block(typed, slots, all.as_slice())
}

// The end of a `for`: what it declares is known no more.
pub(crate) fn for_end(
    alloc: Global,
    typed: &mut Typed,
    scope: &mut Scope,
    known: usize,
    line: u32,
    parts: Result<(u32, (Option<TypedNode>, (Option<TypedNode>, u32))), Refuse>,
) -> Result<u32, Refuse>
    requires { IfOk parts (λ p. HasForParts typed.old p) }
    ensures scope { UnlessMemory result (scope.new ≡ scopes.knowing known scope.old) }
    ensures turns { ForEnds line parts (map (λ v. v.slot) (drop known scope.old.variables))
        typed.old result typed.new }
{
    match parts {
        Ok(parts) => {
            let slots = scope.slots_after(alloc, known)?;
            scope.forget_after(known);
            for_node(alloc, typed, line, slots.as_slice(), parts)
        }
        Err(e) => {
            scope.forget_after(known);
            Err(e)
        }
    }
}
