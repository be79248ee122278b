//! The labels of a `switch`.
ghost use Rattle.std.specs.Prelude.{◌≡◌, None, Ok, Some, map};
ghost use Rattle.xs_ctree.specs.Arena.{expr_from};
ghost use Rattle.xs_ctree.specs.Functions.{arena_of, expr_in};
ghost use Rattle.xs_ctree.specs.declared.typed.Typed.{Typed};
ghost use Rattle.xs_ctypes.specs.Checked.{Fine, judged};
ghost use Rattle.xs_ccheck.specs.ExprTyping as exprs;
ghost use Rattle.xs_ctypes.specs.Joining.{joined};
ghost use Rattle.xs_ccheck.specs.Resolving.{GivesLabel, GivesLabels, GivesStmt, HasTyped, HaveGroups, group_in, group_made};
ghost use Rattle.xs_ctypes.specs.Scopes as scopes;
ghost use Rattle.xs_ccheck.specs.StmtTyping as spec;

use crate::exprs::{TypedNode, expr, name_meant};
use std::alloc::Global;
use xs_base::Refuse;
use xs_csyn::Label;
use xs_ctok::Literal;
use xs_ctree::{ExprNode, Group as CodeGroup, Typed, ValueType};
use xs_ctypes::{Scope, both, settled, take_up, types_differ};
use xs_values::{CInt, DataModel, literal_kind, promote, wrap};

// The number of an integer literal.
fn literal_number(l: &Literal) -> CInt
    ensures { spec.labelled (Fine (exprs.literal l.now.base l.now.suffix l.now.value))
        ≡ Fine (Some result) }
{
    let kind = literal_kind(l.base, l.suffix, l.value, DataModel::Lp64);
    wrap(kind, i128::from(l.value))
}

// A label by the node of an expression, which is a constant.
fn constant_in(alloc: Global, line: u32, node: ExprNode) -> Result<Option<CInt>, Refuse>
    ensures { (t : Typed) → GivesLabel result t t
        (judged line (spec.constant (expr_from (arena_of t) (Some node) (expr_in t)))) }
{
    match node {
        ExprNode::Literal(n) => Ok(Some(n)),
        _ => Err(types_differ(alloc, line)),
    }
}

fn constant(alloc: Global, line: u32, node: Option<ExprNode>) -> Result<Option<CInt>, Refuse>
    ensures { (t : Typed) → GivesLabel result t t
        (judged line (spec.constant (expr_from (arena_of t) node (expr_in t)))) }
{
    match node {
        Some(node) => constant_in(alloc, line, node),
        None => Err(types_differ(alloc, line)),
    }
}

// A label by a name.
fn named_label(
    alloc: Global,
    typed: &mut Typed,
    scope: &Scope,
    line: u32,
    name: &[u8],
) -> Result<Option<CInt>, Refuse>
    ensures { GivesLabel result typed.old typed.new
        (judged line (spec.labelled (exprs.name_meant name.now
        (scopes.variable_of scope.now.variables name.now)))) }
{
    let x = name_meant(alloc, typed, line, name, scope.variable(name))?;
    constant(alloc, line, typed.expr(x.node))
}

// A label, None for `default`.
fn label(alloc: Global, typed: &mut Typed, scope: &Scope, l: &Label) -> Result<Option<CInt>, Refuse>
    ensures { GivesLabel result typed.old typed.new
        (judged (spec.line_of_label l.now) (spec.label_number scope.now.variables l.now)) }
{
    match l {
        Label::Int(_, literal) => Ok(Some(literal_number(literal))),
        Label::Name(line, name) => named_label(alloc, typed, scope, *line, name.as_slice()),
        Label::Default(_) => Ok(None),
    }
}

// The labels of a group.
pub(crate) fn labels(
    alloc: Global,
    typed: &mut Typed,
    scope: &Scope,
    all: &[Label],
) -> Result<Vec<Option<CInt>>, Refuse>
    ensures { GivesLabels result typed.old typed.new
        (spec.labels scope.now.variables all.now) }
{
    let mut good = Vec::new(alloc);
    let mut least = None;
    for l in all {
        let x = label(alloc, typed, scope, l);
        least = take_up(&mut good, least, x)?;
    }
    settled(good, least)
}

// The group of labels and statements.
pub(crate) fn group_of(
    labels: Result<Vec<Option<CInt>>, Refuse>,
    body: Result<Vec<u32>, Refuse>,
) -> Result<CodeGroup, Refuse>
    ensures { result ≡ group_made (joined labels body) }
{
    match both(labels, body) {
        Ok((labels, body)) => Ok(CodeGroup { labels, body }),
        Err(e) => Err(e),
    }
}

// A switch over a number.
pub(crate) fn switched(
    alloc: Global,
    typed: &mut Typed,
    line: u32,
    value: TypedNode,
    groups: &[CodeGroup],
) -> Result<u32, Refuse>
    requires value { HasTyped typed.old value }
    requires groups { HaveGroups typed.old groups.now }
    ensures { GivesStmt result typed.old typed.new
        (judged line (spec.switched line value.of_type (expr_in typed.old value.node)
        (map (group_in typed.old) groups.now))) }
{
    match value.of_type {
        ValueType::Number(kind) => {
            let index = typed.add_switch(line, promote(kind), value.node, groups)?;
            Ok(index)
        }
        _ => Err(types_differ(alloc, line)),
    }
}
