//! Expressions, by recursive descent.
ghost use Rattle.std.specs.Prelude.{◌≡◌, ◌+◌, ◌<◌, ◌≤◌, IfOk};
ghost use Rattle.xs_cexpr.specs.ExpressionReader as spec;
ghost use Rattle.xs_cinput.specs.TokenInput.{Reads};
ghost use Rattle.xs_cexpr.specs.ExpressionViews.{found, found_all, found_place};

use crate::building::{
    assigned, called, cast_to, chosen, flat, in_parens, indexed, joined, leaf, no_nodes,
    pointer_of, st_place, step_after, step_before, target, with_node, with_prefix,
};
use crate::literals::literal;
use crate::node::{Level, Node, Nodes, PlaceNode};
use crate::places::as_place;
use crate::{Expr, Place};
use std::alloc::Global;
use xs_base::{Bytes, Refuse};
use xs_cinput::{Cursor, Step, a_step, a_type, assignment, operator, prefix_op};
use xs_values::{Op, UnOp};

/// An expression of at most `room` levels.
#[cycle(expr)]
#[tactic(auto, using(crate::proofs::ViewsCompute::views), unfolding(crate::specs::ExpressionReader::expr))]
pub fn expr(
    alloc: Global,
    cursor: &mut Cursor<'_, '_>,
    room: u32,
    level: Level,
) -> Result<Node, Refuse>
    requires { room ≤ 64 }
    ensures read { Reads found (spec.expr room level cursor.old) result cursor.new }
    ensures within { IfOk result (λ n. n.height ≤ room) }
{
    if room == 0 {
        return Err(cursor.too_deep(alloc));
    }
    match level {
        Level::Whole => whole(alloc, cursor, room - 1),
        Level::Choice => choice(alloc, cursor, room - 1),
        Level::Binary(tight) => binary(alloc, cursor, room - 1, tight),
        Level::Unary => unary(alloc, cursor, room - 1),
    }
}

// A place of at most `room` levels.
#[cycle(expr)]
#[tactic(auto, using(crate::proofs::ViewsCompute::views), unfolding(crate::specs::ExpressionReader::place_of, crate::specs::ExpressionReader::place))]
fn place(alloc: Global, cursor: &mut Cursor<'_, '_>, room: u32) -> Result<PlaceNode, Refuse>
    requires { room ≤ 64 }
    ensures read { Reads found_place (spec.place_of room cursor.old) result cursor.new }
    ensures within { IfOk result (λ p. p.height ≤ room) }
{
    if room == 0 {
        return Err(cursor.too_deep(alloc));
    }
    let line = cursor.line();
    if cursor.eat(b"*") {
        let name = cursor.variable(alloc)?;
        return Ok(flat(Place::Target(line, name)));
    }
    let name = cursor.variable(alloc)?;
    named_place(alloc, cursor, room - 1, line, name)
}

// A place that begins with this name.
#[cycle(expr)]
#[tactic(auto, using(crate::proofs::ViewsCompute::views), unfolding(crate::specs::ExpressionReader::named_place))]
fn named_place(
    alloc: Global,
    cursor: &mut Cursor<'_, '_>,
    below: u32,
    line: u32,
    name: Bytes,
) -> Result<PlaceNode, Refuse>
    requires { below < 64 }
    ensures read { Reads found_place
        (spec.named_place (spec.expr below) line name cursor.old) result cursor.new }
    ensures within { IfOk result (λ p. p.height ≤ below + 1) }
{
    if cursor.eat(b"->") {
        let field = cursor.name(alloc)?;
        return Ok(flat(Place::Field(line, name, field)));
    }
    if name.as_slice() == b"ST".as_slice() && cursor.sees(b"(") {
        cursor.skip();
        let at = expr(alloc, cursor, below, Level::Whole)?;
        cursor.expect(alloc, b")")?;
        return Ok(st_place(alloc, line, at)?);
    }
    Ok(flat(Place::Variable(line, name)))
}

#[cycle(expr)]
#[tactic(auto, using(crate::proofs::ViewsCompute::views), unfolding(crate::specs::ExpressionReader::list, crate::specs::ExpressionReader::list_from))]
fn list(alloc: Global, cursor: &mut Cursor<'_, '_>, below: u32) -> Result<Nodes, Refuse>
    requires { below < 64 }
    ensures read { Reads found_all (spec.list (spec.expr below) cursor.old) result cursor.new }
    ensures within { IfOk result (λ n. n.height ≤ below) }
{
    let mut all = no_nodes(alloc);
    for _turn in 0..cursor.turns() {
        let one = expr(alloc, cursor, below, Level::Whole)?;
        let more = cursor.eat(b",");
        all = with_node(all, one)?;
        if !more {
            cursor.expect(alloc, b")")?;
            return Ok(all);
        }
    }
    Err(cursor.refuse(alloc))
}

// The arguments of a call, after the opening parenthesis, up to after the closing one.
#[cycle(expr)]
#[tactic(auto, using(crate::proofs::ViewsCompute::views), unfolding(crate::specs::ExpressionReader::arguments))]
fn arguments(alloc: Global, cursor: &mut Cursor<'_, '_>, below: u32) -> Result<Nodes, Refuse>
    requires { below < 64 }
    ensures read { Reads found_all (spec.arguments (spec.expr below) cursor.old) result cursor.new }
    ensures within { IfOk result (λ n. n.height ≤ below) }
{
    if cursor.eat(b")") {
        return Ok(no_nodes(alloc));
    }
    list(alloc, cursor, below)
}

// A name, a call of one, or a field of what it points to.
#[cycle(expr)]
#[tactic(auto, using(crate::proofs::ViewsCompute::views), unfolding(crate::specs::ExpressionReader::named, crate::specs::ExpressionReader::after_name))]
fn named(alloc: Global, cursor: &mut Cursor<'_, '_>, below: u32, line: u32) -> Result<Node, Refuse>
    requires { below < 64 }
    ensures read { Reads found (spec.named (spec.expr below) line cursor.old) result cursor.new }
    ensures within { IfOk result (λ n. n.height ≤ below + 1) }
{
    let name = cursor.variable(alloc)?;
    if cursor.eat(b"(") {
        let all = arguments(alloc, cursor, below)?;
        return Ok(called(line, name, all));
    }
    if cursor.eat(b"->") {
        let field = cursor.name(alloc)?;
        return Ok(leaf(Expr::Arrow(line, name, field)));
    }
    Ok(leaf(Expr::Name(line, name)))
}

// `INT2PTR(TYPE, EXPR)`, after the word.
#[cycle(expr)]
#[tactic(auto, using(crate::proofs::ViewsCompute::views), unfolding(crate::specs::ExpressionReader::int2ptr))]
fn int2ptr(
    alloc: Global,
    cursor: &mut Cursor<'_, '_>,
    below: u32,
    line: u32,
) -> Result<Node, Refuse>
    requires { below < 64 }
    ensures read { Reads found (spec.int2ptr (spec.expr below) line cursor.old) result cursor.new }
    ensures within { IfOk result (λ n. n.height ≤ below + 1) }
{
    cursor.expect(alloc, b"(")?;
    let to = a_type(alloc, cursor)?;
    cursor.expect(alloc, b",")?;
    let a = expr(alloc, cursor, below, Level::Whole)?;
    cursor.expect(alloc, b")")?;
    Ok(pointer_of(alloc, line, to, a)?)
}

// An operand that begins with no parenthesis, without what follows it.
#[cycle(expr)]
#[tactic(auto, using(crate::proofs::ViewsCompute::views), unfolding(crate::specs::ExpressionReader::primary, crate::specs::ExpressionReader::worded))]
fn primary(
    alloc: Global,
    cursor: &mut Cursor<'_, '_>,
    below: u32,
    line: u32,
) -> Result<Node, Refuse>
    requires { below < 64 }
    ensures read { Reads found (spec.primary (spec.expr below) line cursor.old) result cursor.new }
    ensures within { IfOk result (λ n. n.height ≤ below + 1) }
{
    if let Some(tree) = literal(alloc, cursor, line)? {
        cursor.skip();
        return Ok(leaf(tree));
    }
    if cursor.sees_word(b"INT2PTR") {
        cursor.skip();
        int2ptr(alloc, cursor, below, line)
    } else {
        named(alloc, cursor, below, line)
    }
}

// An element of what stands in front. `[` is not passed yet.
#[cycle(expr)]
#[tactic(auto, using(crate::proofs::ViewsCompute::views), unfolding(crate::specs::ExpressionReader::index))]
fn index(
    alloc: Global,
    cursor: &mut Cursor<'_, '_>,
    below: u32,
    line: u32,
    left: Node,
) -> Result<Node, Refuse>
    requires { below < 64 }
    ensures read { Reads found (spec.index (spec.expr below) (spec.place_of below) below line
        (found left) cursor.old) result cursor.new }
    ensures within { IfOk result (λ n. n.height ≤ below + 1) }
{
    if left.height > below {
        return Err(cursor.too_deep(alloc));
    }
    cursor.skip();
    let at = expr(alloc, cursor, below, Level::Whole)?;
    cursor.expect(alloc, b"]")?;
    Ok(indexed(alloc, line, left, at)?)
}

// What follows an operand: elements, and a step where the operand is a place.
#[cycle(expr)]
#[tactic(auto, using(crate::proofs::ViewsCompute::views), unfolding(crate::specs::ExpressionReader::suffixes))]
fn suffixes(
    alloc: Global,
    cursor: &mut Cursor<'_, '_>,
    below: u32,
    line: u32,
    mut left: Node,
) -> Result<Node, Refuse>
    requires small { below < 64 }
    requires left { left.height ≤ below + 1 }
    ensures read { Reads found (spec.suffixes (spec.expr below) (spec.place_of below) below line
        below (found left) cursor.old) result cursor.new }
    ensures within { IfOk result (λ n. n.height ≤ below + 1) }
{
    for _turn in 0..below {
        if cursor.sees(b"[") {
            left = index(alloc, cursor, below, line, left)?;
        } else {
            let Some(step) = a_step(cursor) else {
                return Ok(left);
            };
            match as_place(alloc, left)? {
                Err(other) => return Ok(other),
                Ok(p) => {
                    if p.height > below {
                        return Err(cursor.too_deep(alloc));
                    }
                    cursor.skip();
                    left = step_after(line, p, step);
                }
            }
        }
    }
    last_suffix(alloc, cursor, left)
}

// Where one level more would be too deep.
#[tactic(auto, unfolding(crate::specs::ExpressionReader::last_suffix))]
fn last_suffix(alloc: Global, cursor: &Cursor<'_, '_>, left: Node) -> Result<Node, Refuse>
    ensures read { Reads found (spec.last_suffix (found left) cursor.now) result cursor.now }
    ensures within { IfOk result (λ n. n.height ≤ left.height) }
{
    if cursor.sees(b"[") {
        return Err(cursor.too_deep(alloc));
    }
    if a_step(cursor).is_none() {
        return Ok(left);
    }
    match as_place(alloc, left)? {
        Err(other) => Ok(other),
        Ok(_) => Err(cursor.too_deep(alloc)),
    }
}

// A cast, after the opening parenthesis.
#[cycle(expr)]
#[tactic(auto, using(crate::proofs::ViewsCompute::views), unfolding(crate::specs::ExpressionReader::cast))]
fn cast(alloc: Global, cursor: &mut Cursor<'_, '_>, below: u32, line: u32) -> Result<Node, Refuse>
    requires { below < 64 }
    ensures read { Reads found (spec.cast (spec.expr below) (spec.place_of below) below line
        cursor.old) result cursor.new }
    ensures within { IfOk result (λ n. n.height ≤ below + 1) }
{
    let to = a_type(alloc, cursor)?;
    cursor.expect(alloc, b")")?;
    let n = expr(alloc, cursor, below, Level::Unary)?;
    Ok(cast_to(alloc, line, to, n)?)
}

// What begins with a parenthesis, after that.
#[cycle(expr)]
#[tactic(auto, using(crate::proofs::ViewsCompute::views), unfolding(crate::specs::ExpressionReader::opened))]
fn opened(alloc: Global, cursor: &mut Cursor<'_, '_>, below: u32, line: u32) -> Result<Node, Refuse>
    requires { below < 64 }
    ensures read { Reads found (spec.opened (spec.expr below) (spec.place_of below) below line
        cursor.old) result cursor.new }
    ensures within { IfOk result (λ n. n.height ≤ below + 1) }
{
    if cursor.sees_type() {
        return cast(alloc, cursor, below, line);
    }
    let a = expr(alloc, cursor, below, Level::Whole)?;
    cursor.expect(alloc, b")")?;
    let left = in_parens(alloc, line, a)?;
    suffixes(alloc, cursor, below, line, left)
}

// An operand with no operator before it, or a cast.
#[cycle(expr)]
#[tactic(auto, using(crate::proofs::ViewsCompute::views), unfolding(crate::specs::ExpressionReader::operand))]
fn operand(alloc: Global, cursor: &mut Cursor<'_, '_>, below: u32) -> Result<Node, Refuse>
    requires { below < 64 }
    ensures read { Reads found (spec.operand (spec.expr below) (spec.place_of below) below
        cursor.old) result cursor.new }
    ensures within { IfOk result (λ n. n.height ≤ below + 1) }
{
    let line = cursor.line();
    if cursor.eat(b"(") {
        return opened(alloc, cursor, below, line);
    }
    let first = primary(alloc, cursor, below, line)?;
    suffixes(alloc, cursor, below, line, first)
}

// The address of a name. `&` is not passed yet.
#[tactic(auto, using(crate::proofs::ViewsCompute::views), unfolding(crate::specs::ExpressionReader::address))]
fn address(alloc: Global, cursor: &mut Cursor<'_, '_>) -> Result<Node, Refuse>
    ensures read { Reads found (spec.address cursor.old) result cursor.new }
    ensures within { IfOk result (λ n. n.height ≤ 1) }
{
    let line = cursor.line();
    cursor.skip();
    let name = cursor.variable(alloc)?;
    Ok(leaf(Expr::Address(line, name)))
}

// An operator on a number before its operand. It is not passed yet.
#[cycle(expr)]
#[tactic(auto, using(crate::proofs::ViewsCompute::views), unfolding(crate::specs::ExpressionReader::prefixed))]
fn prefixed(
    alloc: Global,
    cursor: &mut Cursor<'_, '_>,
    below: u32,
    op: UnOp,
) -> Result<Node, Refuse>
    requires { below < 64 }
    ensures read { Reads found (spec.prefixed (spec.expr below) (spec.place_of below) below op
        cursor.old) result cursor.new }
    ensures within { IfOk result (λ n. n.height ≤ below + 1) }
{
    let line = cursor.line();
    cursor.skip();
    let n = expr(alloc, cursor, below, Level::Unary)?;
    Ok(with_prefix(alloc, line, op, n)?)
}

// What an operand points to. `*` is not passed yet.
#[cycle(expr)]
#[tactic(auto, using(crate::proofs::ViewsCompute::views), unfolding(crate::specs::ExpressionReader::dereferenced))]
fn dereferenced(alloc: Global, cursor: &mut Cursor<'_, '_>, below: u32) -> Result<Node, Refuse>
    requires { below < 64 }
    ensures read { Reads found (spec.dereferenced (spec.expr below) (spec.place_of below) below
        cursor.old) result cursor.new }
    ensures within { IfOk result (λ n. n.height ≤ below + 1) }
{
    let line = cursor.line();
    cursor.skip();
    let n = expr(alloc, cursor, below, Level::Unary)?;
    Ok(target(alloc, line, n)?)
}

// A step before its place. It is not passed yet.
#[cycle(expr)]
#[tactic(auto, using(crate::proofs::ViewsCompute::views), unfolding(crate::specs::ExpressionReader::stepped))]
fn stepped(
    alloc: Global,
    cursor: &mut Cursor<'_, '_>,
    below: u32,
    step: Step,
) -> Result<Node, Refuse>
    requires { below < 64 }
    ensures read { Reads found (spec.stepped (spec.expr below) (spec.place_of below) below step
        cursor.old) result cursor.new }
    ensures within { IfOk result (λ n. n.height ≤ below + 1) }
{
    let line = cursor.line();
    cursor.skip();
    let p = place(alloc, cursor, below)?;
    Ok(step_before(line, step, p))
}

// An operand, with the operators before it.
#[cycle(expr)]
#[tactic(auto, using(crate::proofs::ViewsCompute::views), unfolding(crate::specs::ExpressionReader::unary, crate::specs::ExpressionReader::pointed))]
fn unary(alloc: Global, cursor: &mut Cursor<'_, '_>, below: u32) -> Result<Node, Refuse>
    requires { below < 64 }
    ensures read { Reads found (spec.unary (spec.expr below) (spec.place_of below) below
        cursor.old) result cursor.new }
    ensures within { IfOk result (λ n. n.height ≤ below + 1) }
{
    if let Some(op) = prefix_op(cursor) {
        return prefixed(alloc, cursor, below, op);
    }
    if let Some(step) = a_step(cursor) {
        return stepped(alloc, cursor, below, step);
    }
    if cursor.sees(b"*") {
        dereferenced(alloc, cursor, below)
    } else if cursor.sees(b"&") {
        address(alloc, cursor)
    } else {
        operand(alloc, cursor, below)
    }
}

// Operators that bind at least so tightly, and their operands, after the left operand. The line is
// that of the first token of all.
#[cycle(expr)]
#[tactic(auto, using(crate::proofs::ViewsCompute::views), unfolding(crate::specs::ExpressionReader::climb))]
fn climb(
    alloc: Global,
    cursor: &mut Cursor<'_, '_>,
    below: u32,
    tight: u32,
    line: u32,
    mut left: Node,
) -> Result<Node, Refuse>
    requires small { below < 64 }
    requires left { left.height ≤ below + 1 }
    ensures read { Reads found (spec.climb (spec.expr below) (spec.place_of below) below tight line
        below (found left) cursor.old) result cursor.new }
    ensures within { IfOk result (λ n. n.height ≤ below + 1) }
{
    for _turn in 0..below {
        let Some((op, binds)) = operator(cursor, tight) else {
            return Ok(left);
        };
        if left.height > below {
            return Err(cursor.too_deep(alloc));
        }
        cursor.skip();
        let right = expr(alloc, cursor, below, Level::Binary(binds + 1))?;
        left = joined(alloc, line, op, left, right)?;
    }
    match operator(cursor, tight) {
        None => Ok(left),
        Some(_) => Err(cursor.too_deep(alloc)),
    }
}

#[cycle(expr)]
#[tactic(auto, using(crate::proofs::ViewsCompute::views), unfolding(crate::specs::ExpressionReader::binary))]
fn binary(
    alloc: Global,
    cursor: &mut Cursor<'_, '_>,
    below: u32,
    tight: u32,
) -> Result<Node, Refuse>
    requires { below < 64 }
    ensures read { Reads found (spec.binary (spec.expr below) (spec.place_of below) below tight
        cursor.old) result cursor.new }
    ensures within { IfOk result (λ n. n.height ≤ below + 1) }
{
    let line = cursor.line();
    let first = unary(alloc, cursor, below)?;
    climb(alloc, cursor, below, tight, line, first)
}

// The second of the two that a test chooses from, after the first.
#[cycle(expr)]
#[tactic(auto, using(crate::proofs::ViewsCompute::views), unfolding(crate::specs::ExpressionReader::other_choice))]
fn other_choice(
    alloc: Global,
    cursor: &mut Cursor<'_, '_>,
    below: u32,
    line: u32,
    test: Node,
    a: Node,
) -> Result<Node, Refuse>
    requires small { below < 64 }
    requires test { test.height ≤ below }
    requires a { a.height ≤ below }
    ensures read { Reads found (spec.other_choice (spec.expr below) line (found test) (found a)
        cursor.old) result cursor.new }
    ensures within { IfOk result (λ n. n.height ≤ below + 1) }
{
    cursor.expect(alloc, b":")?;
    let b = expr(alloc, cursor, below, Level::Choice)?;
    Ok(chosen(alloc, line, test, a, b)?)
}

// The two that a test chooses from. `?` is not passed yet.
#[cycle(expr)]
#[tactic(auto, using(crate::proofs::ViewsCompute::views), unfolding(crate::specs::ExpressionReader::choose))]
fn choose(
    alloc: Global,
    cursor: &mut Cursor<'_, '_>,
    below: u32,
    line: u32,
    test: Node,
) -> Result<Node, Refuse>
    requires { below < 64 }
    ensures read { Reads found (spec.choose (spec.expr below) (spec.place_of below) below line
        (found test) cursor.old) result cursor.new }
    ensures within { IfOk result (λ n. n.height ≤ below + 1) }
{
    if test.height > below {
        return Err(cursor.too_deep(alloc));
    }
    cursor.skip();
    let a = expr(alloc, cursor, below, Level::Whole)?;
    other_choice(alloc, cursor, below, line, test, a)
}

#[cycle(expr)]
#[tactic(auto, using(crate::proofs::ViewsCompute::views), unfolding(crate::specs::ExpressionReader::choice))]
fn choice(alloc: Global, cursor: &mut Cursor<'_, '_>, below: u32) -> Result<Node, Refuse>
    requires { below < 64 }
    ensures read { Reads found (spec.choice (spec.expr below) (spec.place_of below) below
        cursor.old) result cursor.new }
    ensures within { IfOk result (λ n. n.height ≤ below + 1) }
{
    let line = cursor.line();
    let test = binary(alloc, cursor, below, 1)?;
    if cursor.sees(b"?") {
        choose(alloc, cursor, below, line, test)
    } else {
        Ok(test)
    }
}

// A value for a place. The sign of the assignment is not passed yet.
#[cycle(expr)]
#[tactic(auto, using(crate::proofs::ViewsCompute::views), unfolding(crate::specs::ExpressionReader::assign))]
fn assign(
    alloc: Global,
    cursor: &mut Cursor<'_, '_>,
    below: u32,
    line: u32,
    op: Option<Op>,
    p: PlaceNode,
) -> Result<Node, Refuse>
    requires { below < 64 }
    ensures read { Reads found (spec.assign (spec.expr below) (spec.place_of below) below line op
        (found_place p) cursor.old) result cursor.new }
    ensures within { IfOk result (λ n. n.height ≤ below + 1) }
{
    if p.height > below {
        return Err(cursor.too_deep(alloc));
    }
    cursor.skip();
    let value = expr(alloc, cursor, below, Level::Whole)?;
    Ok(assigned(alloc, line, p, op, value)?)
}

#[cycle(expr)]
#[tactic(auto, using(crate::proofs::ViewsCompute::views), unfolding(crate::specs::ExpressionReader::whole))]
fn whole(alloc: Global, cursor: &mut Cursor<'_, '_>, below: u32) -> Result<Node, Refuse>
    requires { below < 64 }
    ensures read { Reads found (spec.whole (spec.expr below) (spec.place_of below) below
        cursor.old) result cursor.new }
    ensures within { IfOk result (λ n. n.height ≤ below + 1) }
{
    let line = cursor.line();
    let left = choice(alloc, cursor, below)?;
    let Some(op) = assignment(cursor) else {
        return Ok(left);
    };
    match as_place(alloc, left)? {
        Err(other) => Ok(other),
        Ok(p) => assign(alloc, cursor, below, line, op, p),
    }
}
