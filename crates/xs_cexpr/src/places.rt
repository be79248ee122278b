//! The places that expressions are.
ghost use Rattle.std.specs.Prelude.{◌≡◌, IfOk, map};
ghost use Rattle.xs_cexpr.specs.ExpressionReader as spec;
ghost use Rattle.xs_cexpr.specs.ExpressionTree as t;
ghost use Rattle.xs_cexpr.specs.ExpressionViews.{expr_tree, found, placed_view};

use crate::node::{Node, PlaceNode};
use crate::{Expr, Place};
use std::alloc::{AllocError, Global};
use xs_base::Bytes;

/// The place that an expression is, or else the expression.
pub type Placed = Result<PlaceNode, Node>;

// `*` of a name as a place, or else `*` of the expression.
#[tactic(auto, using(crate::proofs::ViewsCompute::views))]
fn placed_target(alloc: Global, line: u32, of: Box<Expr>, height: u32) -> Result<Placed, AllocError>
    ensures { IfOk result (λ p. placed_view p ≡ spec.placed (record {
      tree = t.Deref line (expr_tree of.value);
      height = height;
    })) }
{
    match Box::into_inner(of) {
        Expr::Name(_, name) => Ok(Ok(PlaceNode {
            place: Place::Target(line, name),
            height: 1,
        })),
        other => Ok(Err(Node {
            tree: Expr::Deref(line, Box::new(alloc, other)?),
            height,
        })),
    }
}

// ST of one argument as a place, or else the call.
#[tactic(auto, using(crate::proofs::ViewsCompute::views))]
fn placed_call(
    alloc: Global,
    line: u32,
    name: Bytes,
    args: Vec<Expr>,
    height: u32,
) -> Result<Placed, AllocError>
    ensures { IfOk result (λ p. placed_view p ≡ spec.placed (record {
      tree = t.Call line name (t.exprs_of (map expr_tree args.items));
      height = height;
    })) }
{
    if name.as_slice() != b"ST".as_slice() || args.len() != 1 {
        return Ok(Err(Node {
            tree: Expr::Call(line, name, args),
            height,
        }));
    }
    let mut all = args;
    match all.pop() {
        Some(at) => Ok(Ok(PlaceNode {
            place: Place::St(line, Box::new(alloc, at)?),
            height,
        })),
        None => Ok(Err(Node {
            tree: Expr::Call(line, name, all),
            height,
        })),
    }
}

/// The place that an expression is, or else the expression: a name, `*` of a name, a field, ST of
/// one expression.
#[tactic(auto, using(crate::proofs::ViewsCompute::views))]
pub fn as_place(alloc: Global, n: Node) -> Result<Placed, AllocError>
    ensures { IfOk result (λ p. placed_view p ≡ spec.placed (found n)) }
{
    let Node { tree, height } = n;
    match tree {
        Expr::Name(line, name) => Ok(Ok(PlaceNode {
            place: Place::Variable(line, name),
            height: 1,
        })),
        Expr::Arrow(line, name, field) => Ok(Ok(PlaceNode {
            place: Place::Field(line, name, field),
            height: 1,
        })),
        Expr::Deref(line, of) => placed_target(alloc, line, of, height),
        Expr::Call(line, name, args) => placed_call(alloc, line, name, args, height),
        other => Ok(Err(Node {
            tree: other,
            height,
        })),
    }
}
