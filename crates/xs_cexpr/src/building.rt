//! The nodes of expressions are made, each with its height.
ghost use Rattle.std.specs.Prelude.{◌≡◌, ◌+◌, ◌^◌, ◌<◌, IfOk};
ghost use Rattle.xs_cexpr.specs.ExpressionReader as spec;
ghost use Rattle.xs_cexpr.specs.ExpressionTree as t;
ghost use Rattle.xs_cexpr.specs.ExpressionViews.{expr_tree, found, found_all, found_place, place_tree};

use crate::node::{Node, Nodes, PlaceNode};
use crate::{Expr, Place};
use std::alloc::{AllocError, Global};
use xs_base::Bytes;
use xs_cinput::{BinaryOp, CType, Step};
use xs_values::{Op, UnOp};

/// A node that has no others in it.
#[tactic(auto, using(crate::proofs::ViewsCompute::views))]
pub fn leaf(tree: Expr) -> Node
    ensures { found result ≡ spec.leaf (expr_tree tree) }
{
    Node { tree, height: 1 }
}

/// A place that has no expression in it.
pub fn flat(place: Place) -> PlaceNode
    ensures { found_place result ≡ spec.flat (place_tree place) }
{
    PlaceNode { place, height: 1 }
}

/// A node in parentheses.
#[tactic(auto, using(crate::proofs::ViewsCompute::views))]
pub fn in_parens(alloc: Global, line: u32, n: Node) -> Result<Node, AllocError>
    requires { n.height + 1 < 2 ^ 32 }
    ensures { IfOk result (λ m. found m ≡ spec.above (t.Paren line) (found n)) }
{
    let Node { tree, height } = n;
    Ok(Node {
        tree: Expr::Paren(line, Box::new(alloc, tree)?),
        height: height + 1,
    })
}

/// A node with its type in front.
#[tactic(auto, using(crate::proofs::ViewsCompute::views))]
pub fn cast_to(alloc: Global, line: u32, to: CType, n: Node) -> Result<Node, AllocError>
    requires { n.height + 1 < 2 ^ 32 }
    ensures { IfOk result (λ m. found m ≡ spec.above (t.Cast line to) (found n)) }
{
    let Node { tree, height } = n;
    Ok(Node {
        tree: Expr::Cast(line, to, Box::new(alloc, tree)?),
        height: height + 1,
    })
}

/// A number as a pointer of this type.
#[tactic(auto, using(crate::proofs::ViewsCompute::views))]
pub fn pointer_of(alloc: Global, line: u32, to: CType, n: Node) -> Result<Node, AllocError>
    requires { n.height + 1 < 2 ^ 32 }
    ensures { IfOk result (λ m. found m ≡ spec.above (t.Int2Ptr line to) (found n)) }
{
    let Node { tree, height } = n;
    Ok(Node {
        tree: Expr::Int2Ptr(line, to, Box::new(alloc, tree)?),
        height: height + 1,
    })
}

/// A node with an operator on a number before it.
#[tactic(auto, using(crate::proofs::ViewsCompute::views))]
pub fn with_prefix(alloc: Global, line: u32, op: UnOp, n: Node) -> Result<Node, AllocError>
    requires { n.height + 1 < 2 ^ 32 }
    ensures { IfOk result (λ m. found m ≡ spec.above (t.One line op) (found n)) }
{
    let Node { tree, height } = n;
    Ok(Node {
        tree: Expr::Unary(line, op, Box::new(alloc, tree)?),
        height: height + 1,
    })
}

/// What a node points to.
#[tactic(auto, using(crate::proofs::ViewsCompute::views))]
pub fn target(alloc: Global, line: u32, n: Node) -> Result<Node, AllocError>
    requires { n.height + 1 < 2 ^ 32 }
    ensures { IfOk result (λ m. found m ≡ spec.above (t.Deref line) (found n)) }
{
    let Node { tree, height } = n;
    Ok(Node {
        tree: Expr::Deref(line, Box::new(alloc, tree)?),
        height: height + 1,
    })
}

/// A place with a step before it.
#[tactic(auto, using(crate::proofs::ViewsCompute::views))]
pub fn step_before(line: u32, step: Step, p: PlaceNode) -> Node
    requires { p.height + 1 < 2 ^ 32 }
    ensures { found result ≡ spec.above_place (t.Before line step) (found_place p) }
{
    let PlaceNode { place, height } = p;
    Node {
        tree: Expr::Before(line, step, place),
        height: height + 1,
    }
}

/// A place with a step after it.
#[tactic(auto, using(crate::proofs::ViewsCompute::views))]
pub fn step_after(line: u32, p: PlaceNode, step: Step) -> Node
    requires { p.height + 1 < 2 ^ 32 }
    ensures { found result ≡ spec.above_place (λ place. t.After line place step) (found_place p) }
{
    let PlaceNode { place, height } = p;
    Node {
        tree: Expr::After(line, place, step),
        height: height + 1,
    }
}

/// An element of what a node points to.
#[tactic(auto, using(crate::proofs::ViewsCompute::views))]
pub fn indexed(alloc: Global, line: u32, n: Node, at: Node) -> Result<Node, AllocError>
    requires left { n.height + 1 < 2 ^ 32 }
    requires right { at.height + 1 < 2 ^ 32 }
    ensures { IfOk result (λ m. found m ≡ spec.joined (t.Index line) (found n) (found at)) }
{
    let height = n.height.max(at.height) + 1;
    let tree = Expr::Index(line, Box::new(alloc, n.tree)?, Box::new(alloc, at.tree)?);
    Ok(Node { tree, height })
}

/// Two operands with the operator between them.
#[tactic(auto, using(crate::proofs::ViewsCompute::views))]
pub fn joined(alloc: Global, line: u32, op: BinaryOp, a: Node, b: Node) -> Result<Node, AllocError>
    requires left { a.height + 1 < 2 ^ 32 }
    requires right { b.height + 1 < 2 ^ 32 }
    ensures { IfOk result (λ m. found m ≡ spec.joined (t.Two line op) (found a) (found b)) }
{
    let height = a.height.max(b.height) + 1;
    let tree = Expr::Binary(line, op, Box::new(alloc, a.tree)?, Box::new(alloc, b.tree)?);
    Ok(Node { tree, height })
}

/// A choice of two by a test.
#[tactic(auto, using(crate::proofs::ViewsCompute::views))]
pub fn chosen(alloc: Global, line: u32, test: Node, a: Node, b: Node) -> Result<Node, AllocError>
    requires test { test.height + 1 < 2 ^ 32 }
    requires left { a.height + 1 < 2 ^ 32 }
    requires right { b.height + 1 < 2 ^ 32 }
    ensures { IfOk result (λ m. found m ≡ spec.chosen line (found test) (found a) (found b)) }
{
    let height = test.height.max(a.height).max(b.height) + 1;
    let test = Box::new(alloc, test.tree)?;
    let a = Box::new(alloc, a.tree)?;
    let tree = Expr::Choice(line, test, a, Box::new(alloc, b.tree)?);
    Ok(Node { tree, height })
}

/// A value for a place.
#[tactic(auto, using(crate::proofs::ViewsCompute::views))]
pub fn assigned(
    alloc: Global,
    line: u32,
    p: PlaceNode,
    op: Option<Op>,
    n: Node,
) -> Result<Node, AllocError>
    requires left { p.height + 1 < 2 ^ 32 }
    requires right { n.height + 1 < 2 ^ 32 }
    ensures { IfOk result (λ m. found m ≡ spec.assigned line (found_place p) op (found n)) }
{
    let height = p.height.max(n.height) + 1;
    let tree = Expr::Assign(line, p.place, op, Box::new(alloc, n.tree)?);
    Ok(Node { tree, height })
}

/// A call of a name with these arguments.
#[tactic(auto, using(crate::proofs::ViewsCompute::views))]
pub fn called(line: u32, name: Bytes, all: Nodes) -> Node
    requires { all.height + 1 < 2 ^ 32 }
    ensures { found result ≡ spec.called line name (found_all all) }
{
    let Nodes { trees, height } = all;
    Node {
        tree: Expr::Call(line, name, trees),
        height: height + 1,
    }
}

/// No nodes yet.
pub fn no_nodes(alloc: Global) -> Nodes
    ensures { found_all result ≡ spec.no_nodes }
{
    Nodes {
        trees: Vec::new(alloc),
        height: 0,
    }
}

/// The nodes with one more after them.
#[tactic(auto, using(crate::proofs::ViewsCompute::views))]
pub fn with_node(all: Nodes, one: Node) -> Result<Nodes, AllocError>
    ensures { IfOk result (λ m. found_all m ≡ spec.with_node (found_all all) (found one)) }
{
    let Nodes { mut trees, height } = all;
    trees.push(one.tree)?;
    Ok(Nodes {
        trees,
        height: height.max(one.height),
    })
}

/// A place of the argument list.
#[tactic(auto, using(crate::proofs::ViewsCompute::views))]
pub fn st_place(alloc: Global, line: u32, at: Node) -> Result<PlaceNode, AllocError>
    requires { at.height + 1 < 2 ^ 32 }
    ensures { IfOk result (λ p. found_place p ≡ spec.st_place line (found at)) }
{
    let Node { tree, height } = at;
    Ok(PlaceNode {
        place: Place::St(line, Box::new(alloc, tree)?),
        height: height + 1,
    })
}
