//! Expressions: names become slots, and types are checked.
ghost use Rattle.std.specs.Prelude.{◌≡◌, Ok, Some, length, map, option_map, true, []};
ghost use Rattle.xs_cexpr.specs.ExpressionTree.{Call, Choice, Index, Set, Two, exprs_of};
ghost use Rattle.xs_cexpr.specs.ExpressionViews.{expr_tree, place_tree};
ghost use Rattle.xs_ctree.specs.Arena.{expr_fits, expr_from};
ghost use Rattle.xs_ctree.specs.Functions.{arena_of, expr_in};
ghost use Rattle.xs_ctree.specs.Growth.{HasExpr};
ghost use Rattle.xs_ctree.specs.declared.typed.Typed.{Typed};
ghost use Rattle.xs_ctypes.specs.Checked.{Good, behind, judged};
ghost use Rattle.xs_ccheck.specs.ExprTyping as spec;
ghost use Rattle.xs_ccheck.specs.Resolving.{GivesExpr, GivesExprs, GivesTarget};

use crate::calls::{called, usage};
use crate::operators::{chosen, combined, passed, prefixed};
use crate::places::{
    back_step, front_step, item_place, set_to, stepped, target_place, variable_place,
};
use crate::pointers::{address_meant, cast, element, letter_in, pointed};
use std::alloc::Global;
use xs_base::fault_codes::UNKNOWN_NAME;
use xs_base::{Bytes, Refuse};
use xs_csyn::{BinaryOp, Expr, Place};
use xs_ctree::{ExprNode, Slot, StepOp, TargetNode, Typed, ValueType};
use xs_ctypes::{Scope, both, cast_named, is, not_built, settled, take_up, unknown};
use xs_perlapi::row_named;
use xs_values::{Base, DataModel, Kind, Op, Suffix, literal_kind, wrap};

/// The node of an expression, with its type.
#[derive(Clone, Copy, Debug)]
pub struct TypedNode {
    pub node: u32,
    pub of_type: ValueType,
}

/// What is assigned to, with its type.
#[derive(Clone, Copy, Debug)]
pub struct PlaceNode {
    pub target: TargetNode,
    pub of_type: ValueType,
}

// ---- single nodes

// A node whose parts are there, as an expression.
pub(crate) fn typed_as(
    typed: &mut Typed,
    node: ExprNode,
    of_type: ValueType,
) -> Result<TypedNode, Refuse>
    requires { expr_fits (arena_of typed.old) (length typed.old.exprs.items) node ≡ true }
    ensures { GivesExpr result typed.old typed.new
        (Good (spec.as_typed (expr_from (arena_of typed.old) (Some node) (expr_in typed.old))
        of_type)) }
{
    let node = typed.add_expr(node)?;
    Ok(TypedNode { node, of_type })
}

// A number of a kind.
fn number(typed: &mut Typed, kind: Kind, value: u64) -> Result<TypedNode, Refuse>
    ensures { GivesExpr result typed.old typed.new (Good (spec.number kind value)) }
{
    let wrapped = wrap(kind, i128::from(value));
    typed_as(typed, ExprNode::Literal(wrapped), ValueType::Number(kind))
}

// An integer literal.
fn literal(typed: &mut Typed, base: Base, suffix: Suffix, value: u64) -> Result<TypedNode, Refuse>
    ensures { GivesExpr result typed.old typed.new (Good (spec.literal base suffix value)) }
{
    let kind = literal_kind(base, suffix, value, DataModel::Lp64);
    number(typed, kind, value)
}

// A character, a `char` that is promoted.
fn character(typed: &mut Typed, byte: u8) -> Result<TypedNode, Refuse>
    ensures { GivesExpr result typed.old typed.new (Good (spec.character byte)) }
{
    let letter = wrap(Kind::I8, i128::from(byte));
    let wrapped = wrap(Kind::I32, letter.value());
    typed_as(
        typed,
        ExprNode::Literal(wrapped),
        ValueType::Number(Kind::I32),
    )
}

// A text literal.
fn letters(alloc: Global, typed: &mut Typed, text: &Bytes) -> Result<TypedNode, Refuse>
    ensures { GivesExpr result typed.old typed.new (Good (spec.letters text.now)) }
{
    let text = text.copy(alloc)?;
    let node = typed.add_letters(text)?;
    Ok(TypedNode {
        node,
        of_type: ValueType::Text,
    })
}

// A name that is no variable.
fn other_name(alloc: Global, typed: &mut Typed, line: u32, name: &[u8]) -> Result<TypedNode, Refuse>
    ensures { GivesExpr result typed.old typed.new (judged line (spec.other_name name.now)) }
{
    if is(name, b"items") {
        return typed_as(typed, ExprNode::ItemCount, ValueType::Number(Kind::I32));
    }
    Err(Refuse::Fault(unknown(alloc, UNKNOWN_NAME, line, name)?))
}

pub(crate) fn name_meant(
    alloc: Global,
    typed: &mut Typed,
    line: u32,
    name: &[u8],
    variable: Option<Slot>,
) -> Result<TypedNode, Refuse>
    ensures { GivesExpr result typed.old typed.new
        (judged line (spec.name_meant name.now variable)) }
{
    match variable {
        None => other_name(alloc, typed, line, name),
        Some(v) => typed_as(typed, ExprNode::Variable(v.number), v.of_type),
    }
}

// ---- any expression

#[cycle(expr)]
#[tactic(auto, using(xs_cstmt::proofs::ViewsCompute::views), unfolding(crate::specs::ExprTyping::expr))]
pub(crate) fn expr(
    alloc: Global,
    typed: &mut Typed,
    scope: &Scope,
    e: &Expr,
) -> Result<TypedNode, Refuse>
    ensures { GivesExpr result typed.old typed.new
        (spec.expr scope.now.variables (expr_tree e.now)) }
{
    match e {
        Expr::Name(line, name) => {
            let word = name.as_slice();
            name_meant(alloc, typed, *line, word, scope.variable(word))
        }
        Expr::Int(_, value) => literal(typed, value.base, value.suffix, value.value),
        Expr::Char(_, byte) => character(typed, *byte),
        Expr::Text(_, text) => letters(alloc, typed, text),
        Expr::Paren(_, a) => {
            let x = expr(alloc, typed, scope, a)?;
            passed(typed, x)
        }
        Expr::Unary(line, op, a) => {
            let x = expr(alloc, typed, scope, a)?;
            prefixed(alloc, typed, *line, *op, x)
        }
        Expr::Call(line, name, args) => call(alloc, typed, scope, *line, name, args),
        Expr::Assign(line, place, op, value) => {
            assign(alloc, typed, scope, *line, place, *op, value)
        }
        Expr::Binary(line, op, a, b) => binary(alloc, typed, scope, *line, *op, a, b),
        Expr::Choice(line, test, a, b) => choice(alloc, typed, scope, *line, test, a, b),
        Expr::Cast(line, to, a) => {
            let x = expr(alloc, typed, scope, a)?;
            let of_type = cast_named(&to.name, to.stars);
            cast(alloc, typed, *line, letter_in(scope, a), of_type, x)
        }
        Expr::Index(line, a, at) => index(alloc, typed, scope, *line, a, at),
        Expr::Deref(line, a) => {
            let x = expr(alloc, typed, scope, a)?;
            pointed(alloc, typed, *line, x)
        }
        Expr::Address(line, name) => address_meant(alloc, typed, scope, *line, name.as_slice()),
        Expr::Before(line, by, place) => {
            step(alloc, typed, scope, *line, front_step(*by), place)
        }
        Expr::After(line, place, by) => step(alloc, typed, scope, *line, back_step(*by), place),
        Expr::Int2Ptr(line, _, _) | Expr::Arrow(line, _, _) => Err(not_built(alloc, *line)),
    }
}

// An assignment.
#[cycle(expr)]
#[tactic(auto, using(xs_cstmt::proofs::ViewsCompute::views), unfolding(crate::specs::ExprTyping::expr))]
fn assign(
    alloc: Global,
    typed: &mut Typed,
    scope: &Scope,
    line: u32,
    place: &Place,
    op: Option<Op>,
    value: &Expr,
) -> Result<TypedNode, Refuse>
    ensures { GivesExpr result typed.old typed.new
        (spec.expr scope.now.variables (Set line (place_tree place.now) op (expr_tree value.now))) }
{
    let to = place_in(alloc, typed, scope, place);
    let x = expr(alloc, typed, scope, value);
    let (to, x) = both(to, x)?;
    set_to(alloc, typed, line, op, to, x)
}

// A step of a place.
#[cycle(expr)]
fn step(
    alloc: Global,
    typed: &mut Typed,
    scope: &Scope,
    line: u32,
    op: StepOp,
    place: &Place,
) -> Result<TypedNode, Refuse>
    ensures { GivesExpr result typed.old typed.new
        (behind (spec.place_in scope.now.variables (place_tree place.now))
        (λ to. judged line (spec.stepped line op to))) }
{
    let to = place_in(alloc, typed, scope, place)?;
    stepped(alloc, typed, line, op, to)
}

// A byte of a text.
#[cycle(expr)]
#[tactic(auto, using(xs_cstmt::proofs::ViewsCompute::views), unfolding(crate::specs::ExprTyping::expr))]
fn index(
    alloc: Global,
    typed: &mut Typed,
    scope: &Scope,
    line: u32,
    a: &Expr,
    at: &Expr,
) -> Result<TypedNode, Refuse>
    ensures { GivesExpr result typed.old typed.new
        (spec.expr scope.now.variables (Index line (expr_tree a.now) (expr_tree at.now))) }
{
    let x = expr(alloc, typed, scope, a);
    let y = expr(alloc, typed, scope, at);
    let (x, y) = both(x, y)?;
    element(alloc, typed, line, x, y)
}

// Two operands with an operator between them.
#[cycle(expr)]
#[tactic(auto, using(xs_cstmt::proofs::ViewsCompute::views), unfolding(crate::specs::ExprTyping::expr))]
fn binary(
    alloc: Global,
    typed: &mut Typed,
    scope: &Scope,
    line: u32,
    op: BinaryOp,
    a: &Expr,
    b: &Expr,
) -> Result<TypedNode, Refuse>
    ensures { GivesExpr result typed.old typed.new
        (spec.expr scope.now.variables (Two line op (expr_tree a.now) (expr_tree b.now))) }
{
    let x = expr(alloc, typed, scope, a);
    let y = expr(alloc, typed, scope, b);
    let (x, y) = both(x, y)?;
    combined(alloc, typed, line, op, x, y)
}

// A choice of two values.
#[cycle(expr)]
#[tactic(auto, using(xs_cstmt::proofs::ViewsCompute::views), unfolding(crate::specs::ExprTyping::expr))]
fn choice(
    alloc: Global,
    typed: &mut Typed,
    scope: &Scope,
    line: u32,
    test: &Expr,
    a: &Expr,
    b: &Expr,
) -> Result<TypedNode, Refuse>
    ensures { GivesExpr result typed.old typed.new
        (spec.expr scope.now.variables
        (Choice line (expr_tree test.now) (expr_tree a.now) (expr_tree b.now))) }
{
    let test = expr(alloc, typed, scope, test);
    let x = expr(alloc, typed, scope, a);
    let y = expr(alloc, typed, scope, b);
    let values = both(x, y);
    let (test, (x, y)) = both(test, values)?;
    chosen(alloc, typed, line, test, x, y)
}

// A call of a name.
#[cycle(expr)]
#[tactic(auto, using(xs_cstmt::proofs::ViewsCompute::views), unfolding(crate::specs::ExprTyping::expr))]
fn call(
    alloc: Global,
    typed: &mut Typed,
    scope: &Scope,
    line: u32,
    name: &Bytes,
    args: &[Expr],
) -> Result<TypedNode, Refuse>
    ensures { GivesExpr result typed.old typed.new
        (spec.expr scope.now.variables (Call line name.now (exprs_of (map expr_tree args.now)))) }
{
    let word = name.as_slice();
    if is(word, b"croak_xs_usage") {
        return usage(alloc, typed, line, args);
    }
    let xs = exprs(alloc, typed, scope, args)?;
    called(alloc, typed, line, word, row_named(word), xs.as_slice())
}

// Arguments, from left to right.
#[cycle(expr)]
#[tactic(auto, using(xs_cstmt::proofs::ViewsCompute::views), unfolding(crate::specs::ExprTyping::expr))]
fn exprs(
    alloc: Global,
    typed: &mut Typed,
    scope: &Scope,
    args: &[Expr],
) -> Result<Vec<TypedNode>, Refuse>
    ensures { GivesExprs result typed.old typed.new
        (spec.exprs scope.now.variables (exprs_of (map expr_tree args.now))) }
{
    let mut good = Vec::new(alloc);
    let mut least = None;
    for a in args {
        let x = expr(alloc, typed, scope, a);
        least = take_up(&mut good, least, x)?;
    }
    settled(good, least)
}

#[cycle(expr)]
#[tactic(auto, using(xs_cstmt::proofs::ViewsCompute::views), unfolding(crate::specs::ExprTyping::expr))]
fn place_in(
    alloc: Global,
    typed: &mut Typed,
    scope: &Scope,
    place: &Place,
) -> Result<PlaceNode, Refuse>
    ensures { GivesTarget result typed.old typed.new
        (spec.place_in scope.now.variables (place_tree place.now)) }
{
    match place {
        Place::Variable(line, name) => {
            let word = name.as_slice();
            variable_place(alloc, *line, word, scope.variable(word))
        }
        Place::Target(line, name) => {
            let word = name.as_slice();
            target_place(alloc, *line, word, scope.variable(word))
        }
        Place::St(line, at) => {
            let x = expr(alloc, typed, scope, at)?;
            item_place(alloc, *line, x)
        }
        Place::Field(line, _, _) => Err(not_built(alloc, *line)),
    }
}
