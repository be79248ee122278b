//! One piece of pending work.
ghost use Rattle.std.specs.Prelude.{◌≡◌, ◌∷◌, [], ℕ, IfOk, MatchOption, OnOk, Some, false, length, replicate, reverse, slice_index_or, slice_set, true};
ghost use Rattle.xs_ctree.specs.Arena.{expr_fits, expr_from, stmt_from, target_from};
ghost use Rattle.xs_ctree.specs.Functions.{arena_of, expr_in, stmt_in};
ghost use Rattle.xs_machine.specs.Machine as machine;
ghost use Rattle.xs_machine.specs.Dispatch.{counted_rows};
ghost use Rattle.xs_machine.specs.MachineState as state;
ghost use Rattle.xs_ctree.specs.TypedTree as tree;
ghost use Rattle.xs_ctree.specs.TypedTree.{Function};
ghost use Rattle.xs_machine.specs.MachineViews.{HasTop, IsShort, Operates, code_in, mach_of, operands_of, pending_of, state_of, task_of};

use crate::dispatch::{croak_usage, register, row_at};
use crate::machine::{Alone, Machine, Outcome, Task};
use std::alloc::Global;
use xs_api::{Abrupt, Depths, Halt, Operand, pop_top};
use xs_base::{Bytes, Items, Memory};
use xs_ctree::{Callable, ExprNode, Range, StmtNode, TargetNode, ValueType};
use xs_perlapi::Row;
use xs_values::{Kind, Op, Trap, UnOp, arith, unary, wrap};

// One expression, by its node.
fn act_on_expr(m: &mut Machine, i: u32) -> Result<(), Memory>
    requires { m.old.stopped ≡ Outcome.Returned [] }
    ensures acts { OnOk result (mach_of m.new
        ≡ machine.act_expr counted_rows (expr_in m.old.typed i) (pending_of m.old)
        (operands_of m.old) (state_of m.old)) }
    ensures typed { m.new.typed ≡ m.old.typed }
{
    match m.typed.expr(i) {
        None => push_items(m),
        Some(node) => act_on_expr_node(m, node),
    }
}

fn act_on_expr_node(m: &mut Machine, node: ExprNode) -> Result<(), Memory>
    requires stopped { m.old.stopped ≡ Outcome.Returned [] }
    requires fits { (i : ℕ) × (expr_fits (arena_of m.old.typed) i node ≡ true) }
    ensures acts { OnOk result (mach_of m.new
        ≡ machine.act_expr counted_rows
        (expr_from (arena_of m.old.typed) (Some node) (expr_in m.old.typed)) (pending_of m.old)
        (operands_of m.old) (state_of m.old)) }
    ensures typed { m.new.typed ≡ m.old.typed }
{
    match node {
        ExprNode::Literal(n) => m.push(Operand::Num(n)),
        ExprNode::Variable(x) => read_variable(m, x),
        ExprNode::ItemCount => push_items(m),
        ExprNode::Passed(e) => m.then(Task::DoExpr(e)),
        ExprNode::Read(e) => m.then_two(Task::DoExpr(e), Task::OnTop(Alone::Read)),
        ExprNode::Not(e) => m.then_two(Task::DoExpr(e), Task::OnTop(Alone::Not)),
        ExprNode::Unary(op, e) => m.then_two(Task::DoExpr(e), Task::OnTop(Alone::Sign(op))),
        ExprNode::Cast(t, e) => m.then_two(Task::DoExpr(e), Task::ToType(t)),
        ExprNode::Binary(op, a, b) => {
            m.then(Task::Operate(op))?;
            m.then_two(Task::DoExpr(a), Task::DoExpr(b))
        }
        ExprNode::And(a, b) => m.then_two(Task::DoExpr(a), Task::AndThen(b)),
        ExprNode::Or(a, b) => m.then_two(Task::DoExpr(a), Task::OrThen(b)),
        ExprNode::Choice(_, t, e, a, b) => {
            m.then(Task::ToType(t))?;
            m.then_two(Task::DoExpr(e), Task::Pick(a, b))
        }
        ExprNode::Assign(_, to, e) => begin_assignment(m, to, e),
        ExprNode::Api(_, row, operands) => begin_row(m, row, operands),
        ExprNode::Usage(_, text) => act_on_usage(m, text),
        _ => {
            unbuilt(m);
            Ok(())
        }
    }
}

// A form of code whose meaning is not built yet.
fn unbuilt(m: &mut Machine)
    ensures acts { mach_of m.new
        ≡ machine.unwind counted_rows (Abrupt.Traps Trap.Kind) (pending_of m.old)
        (state_of m.old) }
    ensures typed { m.new.typed ≡ m.old.typed }
{
    m.unwind(Abrupt::Traps(Trap::Kind));
}

// A row of Perl's API: its operands come first.
fn begin_row(m: &mut Machine, row: Row, operands: Range) -> Result<(), Memory>
    requires { m.old.stopped ≡ Outcome.Returned [] }
    ensures acts { OnOk result (mach_of m.new
        ≡ machine.run_on (task_of m.old.typed (Task.DoExprs operands)
        ∷ machine.DoRow row operands.count ∷ pending_of m.old) (operands_of m.old)
        (state_of m.old)) }
    ensures typed { m.new.typed ≡ m.old.typed }
{
    m.then_two(Task::DoExprs(operands), Task::DoRow(row, operands.count))
}

// An assignment: its right side comes first.
fn begin_assignment(m: &mut Machine, to: TargetNode, e: u32) -> Result<(), Memory>
    requires { m.old.stopped ≡ Outcome.Returned [] }
    ensures acts { OnOk result (mach_of m.new ≡ machine.act_assign counted_rows
        (target_from to (expr_in m.old.typed)) (expr_in m.old.typed e)
        (pending_of m.old) (operands_of m.old) (state_of m.old)) }
    ensures typed { m.new.typed ≡ m.old.typed }
{
    match to {
        TargetNode::Variable(x, t) => m.then_two(Task::DoExpr(e), Task::SetVar(x, t)),
        TargetNode::Item(at) => {
            m.then(Task::DoRow(Row::StSet, 2))?;
            m.then_two(Task::DoExpr(e), Task::DoExpr(at))
        }
        TargetNode::Pointed(_, _) | TargetNode::Field(_, _, _, _) => {
            unbuilt(m);
            Ok(())
        }
    }
}

// One statement, by its node.
fn act_on_stmt(m: &mut Machine, i: u32) -> Result<(), Memory>
    requires { m.old.stopped ≡ Outcome.Returned [] }
    ensures acts { OnOk result (mach_of m.new
        ≡ machine.act_stmt counted_rows (stmt_in m.old.typed i) (pending_of m.old)
        (operands_of m.old) (state_of m.old)) }
    ensures typed { m.new.typed ≡ m.old.typed }
{
    match m.typed.stmt(i) {
        None => m.then(Task::DoStmts(NO_PARTS)),
        Some(node) => act_on_stmt_node(m, node),
    }
}

// The range of no part.
const NO_PARTS: Range = Range { start: 0, count: 0 };

fn act_on_stmt_node(m: &mut Machine, node: StmtNode) -> Result<(), Memory>
    requires { m.old.stopped ≡ Outcome.Returned [] }
    ensures acts { OnOk result (mach_of m.new
        ≡ machine.act_stmt counted_rows
        (stmt_from (arena_of m.old.typed) (Some node) (expr_in m.old.typed)
        (stmt_in m.old.typed)) (pending_of m.old) (operands_of m.old) (state_of m.old)) }
    ensures typed { m.new.typed ≡ m.old.typed }
{
    match node {
        StmtNode::Block(_, body) => m.then(Task::DoStmts(body)),
        StmtNode::Effect(e) | StmtNode::Quit(_, e) => m.then_two(Task::DoExpr(e), Task::DropTop),
        StmtNode::Declare(_, x) => {
            write_variable(&mut m.vars, x, &Operand::Unset);
            Ok(())
        }
        StmtNode::If(_, e, a, b) => m.then_two(Task::DoExpr(e), Task::Branch(a, b)),
        StmtNode::Register(name, function, false) => act_on_registration(m, name, function),
        _ => {
            unbuilt(m);
            Ok(())
        }
    }
}

// The number of arguments.
fn push_items(m: &mut Machine) -> Result<(), Memory>
    requires { m.old.stopped ≡ Outcome.Returned [] }
    ensures acts { OnOk result (mach_of m.new
        ≡ machine.run_on (pending_of m.old) (state.item_count (state_of m.old) ∷ operands_of m.old)
        (state_of m.old)) }
    ensures typed { m.new.typed ≡ m.old.typed }
{
    let items = wrap(Kind::I32, i128::from(m.frame.items));
    m.push(Operand::Num(items))
}

// A variable's value.
fn read_variable(m: &mut Machine, x: u32) -> Result<(), Memory>
    requires { m.old.stopped ≡ Outcome.Returned [] }
    ensures acts { OnOk result (mach_of m.new
        ≡ machine.land counted_rows ◌∷◌ (pending_of m.old) (operands_of m.old)
        (state.read_var x (state_of m.old))) }
    ensures typed { m.new.typed ≡ m.old.typed }
{
    match variable(&m.vars, x) {
        Operand::Unset => {
            m.unwind(Abrupt::Traps(Trap::Unset));
            Ok(())
        }
        Operand::Num(n) => m.push(Operand::Num(n)),
        Operand::Scalar(s) => m.push(Operand::Scalar(s)),
        Operand::Void => m.push(Operand::Void),
    }
}

fn variable(vars: &Vec<Operand>, x: u32) -> Operand
    ensures { result ≡ slice_index_or vars.now.items x Operand.Unset }
{
    vars.get(x as usize).copied().unwrap_or(Operand::Unset)
}

fn write_variable(vars: &mut Vec<Operand>, x: u32, v: &Operand)
    ensures { vars.new.items ≡ slice_set vars.old.items x v.now }
{
    let at = x as usize;
    if at < vars.len() {
        vars[at] = *v;
    }
}

// Operands that are still to be done.
fn act_on_exprs(m: &mut Machine, operands: Range) -> Result<(), Memory>
    requires { m.old.stopped ≡ Outcome.Returned [] }
    ensures acts { OnOk result (mach_of m.new
        ≡ machine.act counted_rows (code_in m.old) (task_of m.old.typed (Task.DoExprs operands))
        (pending_of m.old) (operands_of m.old) (state_of m.old)) }
    ensures typed { m.new.typed ≡ m.old.typed }
{
    match m.typed.first_part(operands) {
        Some((first, rest)) => m.then_two(Task::DoExpr(first), Task::DoExprs(rest)),
        None => Ok(()),
    }
}

// Statements that are still to be done.
fn act_on_stmts(m: &mut Machine, body: Range) -> Result<(), Memory>
    requires { m.old.stopped ≡ Outcome.Returned [] }
    ensures acts { OnOk result (mach_of m.new
        ≡ machine.act counted_rows (code_in m.old) (task_of m.old.typed (Task.DoStmts body))
        (pending_of m.old) (operands_of m.old) (state_of m.old)) }
    ensures typed { m.new.typed ≡ m.old.typed }
{
    match m.typed.first_part(body) {
        Some((first, rest)) => m.then_two(Task::DoStmt(first), Task::DoStmts(rest)),
        None => Ok(()),
    }
}

// Pops the topmost operand. Where it is missing, which no tree of the types stage comes to, all
// work ends.
fn pop_operand(m: &mut Machine) -> Option<Operand>
    ensures pops { MatchOption result (IsShort m.old m.new) (λ v. HasTop v m.old m.new) }
    ensures typed { m.new.typed ≡ m.old.typed }
{
    match pop_top(&mut m.operands) {
        None => {
            m.halt(Outcome::Trapped(Trap::Kind));
            None
        }
        Some(v) => Some(v),
    }
}

// Goes on with a value, or unwinds.
fn land(m: &mut Machine, value: Result<Operand, Trap>) -> Result<(), Memory>
    requires { m.old.stopped ≡ Outcome.Returned [] }
    ensures lands { OnOk result (mach_of m.new
        ≡ machine.land counted_rows ◌∷◌ (pending_of m.old) (operands_of m.old)
        (state.given_or value (state_of m.old))) }
    ensures typed { m.new.typed ≡ m.old.typed }
{
    match value {
        Ok(v) => m.push(v),
        Err(trap) => {
            m.unwind(Abrupt::Traps(trap));
            Ok(())
        }
    }
}

// An assignment of the topmost operand.
fn act_on_assign(m: &mut Machine, x: u32, t: ValueType) -> Result<(), Memory>
    requires { m.old.stopped ≡ Outcome.Returned [] }
    ensures acts { OnOk result (mach_of m.new
        ≡ machine.act counted_rows (code_in m.old) (machine.SetVar x t) (pending_of m.old)
        (operands_of m.old) (state_of m.old)) }
    ensures typed { m.new.typed ≡ m.old.typed }
{
    let Some(v) = pop_operand(m) else {
        return Ok(());
    };
    match assigned(t, v) {
        None => land(m, Err(Trap::Kind)),
        Some(v) => assign(m, x, v),
    }
}

fn assign(m: &mut Machine, x: u32, v: Operand) -> Result<(), Memory>
    requires { m.old.stopped ≡ Outcome.Returned [] }
    ensures acts { OnOk result (mach_of m.new
        ≡ machine.land counted_rows ◌∷◌ (pending_of m.old) (operands_of m.old)
        (state.assign_as (Some v) x (state_of m.old))) }
    ensures typed { m.new.typed ≡ m.old.typed }
{
    write_variable(&mut m.vars, x, &v);
    m.push(v)
}

// A value as one of a type.
fn assigned(t: ValueType, v: Operand) -> Option<Operand>
    ensures { result ≡ state.assigned t v }
{
    match t {
        ValueType::Number(kind) => match v {
            Operand::Num(n) => Some(Operand::Num(wrap(kind, n.value()))),
            Operand::Unset | Operand::Scalar(_) | Operand::Void => None,
        },
        ValueType::Scalar => match v {
            Operand::Scalar(s) => Some(Operand::Scalar(s)),
            Operand::Unset | Operand::Num(_) | Operand::Void => None,
        },
        ValueType::Void => Some(Operand::Void),
        _ => None,
    }
}

// An operator on the two topmost operands.
fn act_on_operator(m: &mut Machine, op: Op) -> Result<(), Memory>
    requires { m.old.stopped ≡ Outcome.Returned [] }
    ensures acts { OnOk result (mach_of m.new
        ≡ machine.act counted_rows (code_in m.old) (machine.Operate op) (pending_of m.old)
        (operands_of m.old) (state_of m.old)) }
    ensures typed { m.new.typed ≡ m.old.typed }
{
    let Some(b) = pop_operand(m) else {
        return Ok(());
    };
    let Some(a) = pop_operand(m) else {
        return Ok(());
    };
    land(m, operate(op, a, b))
}

fn operate(op: Op, a: Operand, b: Operand) -> Result<Operand, Trap>
    ensures { Operates op a b result }
{
    match a {
        Operand::Num(a) => match b {
            Operand::Num(b) => match arith(op, a, b) {
                Ok(n) => Ok(Operand::Num(n)),
                Err(trap) => Err(trap),
            },
            Operand::Unset | Operand::Scalar(_) | Operand::Void => Err(Trap::Kind),
        },
        Operand::Unset | Operand::Scalar(_) | Operand::Void => Err(Trap::Kind),
    }
}

// An operation on the topmost operand.
fn act_on_top(m: &mut Machine, op: Alone) -> Result<(), Memory>
    requires { m.old.stopped ≡ Outcome.Returned [] }
    ensures acts { OnOk result (mach_of m.new
        ≡ machine.act counted_rows (code_in m.old) (machine.OnTop op) (pending_of m.old)
        (operands_of m.old) (state_of m.old)) }
    ensures typed { m.new.typed ≡ m.old.typed }
{
    let Some(v) = pop_operand(m) else {
        return Ok(());
    };
    land(m, alone_value(op, v))
}

fn alone_value(op: Alone, v: Operand) -> Result<Operand, Trap>
    ensures { result ≡ state.alone_value op v }
{
    match op {
        Alone::Read => result_read(v),
        Alone::Not => negated(truth_of(v)),
        Alone::Sign(op) => signed(op, v),
        Alone::Truth => truth_value(truth_of(v)),
    }
}

// What a function gave is read: one that fell off its end gave nothing.
fn result_read(v: Operand) -> Result<Operand, Trap>
    ensures { result ≡ state.result_read v }
{
    match v {
        Operand::Unset => Err(Trap::Unset),
        Operand::Num(n) => Ok(Operand::Num(n)),
        Operand::Scalar(s) => Ok(Operand::Scalar(s)),
        Operand::Void => Ok(Operand::Void),
    }
}

// What `!` gives.
fn negated(holds: Option<bool>) -> Result<Operand, Trap>
    ensures { result ≡ state.negated holds }
{
    match holds {
        None => Err(Trap::Kind),
        Some(true) => Ok(truth_number(false)),
        Some(false) => Ok(truth_number(true)),
    }
}

// What `&&` and `||` give of an operand.
fn truth_value(holds: Option<bool>) -> Result<Operand, Trap>
    ensures { result ≡ state.truth_value holds }
{
    match holds {
        None => Err(Trap::Kind),
        Some(holds) => Ok(truth_number(holds)),
    }
}

fn truth_number(holds: bool) -> Operand
    ensures { result ≡ state.truth_number holds }
{
    if holds {
        Operand::Num(wrap(Kind::I32, 1))
    } else {
        Operand::Num(wrap(Kind::I32, 0))
    }
}

// What an operator gives before its operand.
fn signed(op: UnOp, v: Operand) -> Result<Operand, Trap>
    ensures { result ≡ state.signed op v }
{
    match v {
        Operand::Num(a) => match unary(op, a) {
            Ok(n) => Ok(Operand::Num(n)),
            Err(trap) => Err(trap),
        },
        Operand::Unset | Operand::Scalar(_) | Operand::Void => Err(Trap::Kind),
    }
}

// A cast of the topmost operand.
fn act_on_cast(m: &mut Machine, t: ValueType) -> Result<(), Memory>
    requires { m.old.stopped ≡ Outcome.Returned [] }
    ensures acts { OnOk result (mach_of m.new
        ≡ machine.act counted_rows (code_in m.old) (machine.ToType t) (pending_of m.old)
        (operands_of m.old) (state_of m.old)) }
    ensures typed { m.new.typed ≡ m.old.typed }
{
    let Some(v) = pop_operand(m) else {
        return Ok(());
    };
    match assigned(t, v) {
        None => land(m, Err(Trap::Kind)),
        Some(v) => m.push(v),
    }
}

// A condition on the topmost operand.
fn act_on_branch(m: &mut Machine, a: u32, b: u32) -> Result<(), Memory>
    requires { m.old.stopped ≡ Outcome.Returned [] }
    ensures acts { OnOk result (mach_of m.new
        ≡ machine.act counted_rows (code_in m.old) (task_of m.old.typed (Task.Branch a b))
        (pending_of m.old) (operands_of m.old) (state_of m.old)) }
    ensures typed { m.new.typed ≡ m.old.typed }
{
    let Some(v) = pop_operand(m) else {
        return Ok(());
    };
    match truth_of(v) {
        None => land(m, Err(Trap::Kind)),
        Some(true) => m.then(Task::DoStmt(a)),
        Some(false) => m.then(Task::DoStmt(b)),
    }
}

// The second operand of `&&`, where the first, which is on top, holds.
fn act_on_and(m: &mut Machine, e: u32) -> Result<(), Memory>
    requires { m.old.stopped ≡ Outcome.Returned [] }
    ensures acts { OnOk result (mach_of m.new
        ≡ machine.act counted_rows (code_in m.old) (task_of m.old.typed (Task.AndThen e))
        (pending_of m.old) (operands_of m.old) (state_of m.old)) }
    ensures typed { m.new.typed ≡ m.old.typed }
{
    let Some(v) = pop_operand(m) else {
        return Ok(());
    };
    match truth_of(v) {
        None => land(m, Err(Trap::Kind)),
        Some(true) => m.then_two(Task::DoExpr(e), Task::OnTop(Alone::Truth)),
        Some(false) => m.push(truth_number(false)),
    }
}

// The second operand of `||`, where the first, which is on top, does not hold.
fn act_on_or(m: &mut Machine, e: u32) -> Result<(), Memory>
    requires { m.old.stopped ≡ Outcome.Returned [] }
    ensures acts { OnOk result (mach_of m.new
        ≡ machine.act counted_rows (code_in m.old) (task_of m.old.typed (Task.OrThen e))
        (pending_of m.old) (operands_of m.old) (state_of m.old)) }
    ensures typed { m.new.typed ≡ m.old.typed }
{
    let Some(v) = pop_operand(m) else {
        return Ok(());
    };
    match truth_of(v) {
        None => land(m, Err(Trap::Kind)),
        Some(true) => m.push(truth_number(true)),
        Some(false) => m.then_two(Task::DoExpr(e), Task::OnTop(Alone::Truth)),
    }
}

// One of the two expressions of `?:`, by the condition on top.
fn act_on_pick(m: &mut Machine, a: u32, b: u32) -> Result<(), Memory>
    requires { m.old.stopped ≡ Outcome.Returned [] }
    ensures acts { OnOk result (mach_of m.new
        ≡ machine.act counted_rows (code_in m.old) (task_of m.old.typed (Task.Pick a b))
        (pending_of m.old) (operands_of m.old) (state_of m.old)) }
    ensures typed { m.new.typed ≡ m.old.typed }
{
    let Some(v) = pop_operand(m) else {
        return Ok(());
    };
    match truth_of(v) {
        None => land(m, Err(Trap::Kind)),
        Some(true) => m.then(Task::DoExpr(a)),
        Some(false) => m.then(Task::DoExpr(b)),
    }
}

// Whether a condition holds.
fn truth_of(v: Operand) -> Option<bool>
    ensures { result ≡ state.truth_of v }
{
    match v {
        Operand::Num(n) => Some(n.value() != 0),
        Operand::Scalar(s) => Some(s.is_some()),
        Operand::Unset | Operand::Void => None,
    }
}

// A row on the topmost operands.
fn act_on_row(m: &mut Machine, row: Row, n: u32) -> Result<(), Memory>
    requires { m.old.stopped ≡ Outcome.Returned [] }
    ensures acts { OnOk result (mach_of m.new
        ≡ machine.act counted_rows (code_in m.old)
        (machine.DoRow row n) (pending_of m.old) (operands_of m.old) (state_of m.old)) }
    ensures typed { m.new.typed ≡ m.old.typed }
{
    let operands = pop_operands(&mut m.operands, n)?;
    match row_at(&mut m.perl, row, &operands, &mut m.frame) {
        Ok(v) => m.push(v),
        Err(Halt::Way(abrupt)) => {
            m.unwind(abrupt);
            Ok(())
        }
        Err(Halt::Memory) => Err(Memory),
    }
}

// The croak for wrong use.
fn act_on_usage(m: &mut Machine, text: u32) -> Result<(), Memory>
    requires { m.old.stopped ≡ Outcome.Returned [] }
    ensures acts { OnOk result (mach_of m.new
        ≡ machine.act_expr counted_rows
        (tree.Usage 0 (slice_index_or m.old.typed.texts.items text [])) (pending_of m.old)
        (operands_of m.old) (state_of m.old)) }
    ensures typed { m.new.typed ≡ m.old.typed }
{
    match croak_usage(&m.perl, &m.typed, text, &m.frame) {
        Ok(v) => m.push(v),
        Err(Halt::Way(abrupt)) => {
            m.unwind(abrupt);
            Ok(())
        }
        Err(Halt::Memory) => Err(Memory),
    }
}

// The registration of a function under a Perl name.
fn act_on_registration(m: &mut Machine, name: u32, function: u32) -> Result<(), Memory>
    requires { m.old.stopped ≡ Outcome.Returned [] }
    ensures acts { OnOk result (mach_of m.new
        ≡ machine.act_stmt counted_rows
        (tree.Register (slice_index_or m.old.typed.texts.items name []) function false)
        (pending_of m.old) (operands_of m.old) (state_of m.old)) }
    ensures typed { m.new.typed ≡ m.old.typed }
{
    match register(&mut m.perl, &m.typed, name, function, &m.frame) {
        Ok(_) => Ok(()),
        Err(Halt::Way(abrupt)) => {
            m.unwind(abrupt);
            Ok(())
        }
        Err(Halt::Memory) => Err(Memory),
    }
}

// The topmost operands, in the order in which they came.
fn pop_operands(stack: &mut Vec<Operand>, n: u32) -> Result<Vec<Operand>, Memory>
    ensures { IfOk result (λ popped. machine.popped n [] (reverse stack.old.items)
        ≡ (popped.items, reverse stack.new.items)) }
{
    let at = stack.len().saturating_sub(n as usize);
    let operands = stack.split_off(at)?;
    Ok(operands)
}

// The entry of a function.
fn enter(m: &mut Machine, f: Option<u32>) -> Result<(), Memory>
    requires { m.old.stopped ≡ Outcome.Returned [] }
    ensures acts { OnOk result (mach_of m.new
        ≡ machine.act counted_rows (code_in m.old) (machine.Enter f) (pending_of m.old)
        (operands_of m.old) (state_of m.old)) }
    ensures typed { m.new.typed ≡ m.old.typed }
{
    match m.typed.callee(f) {
        None => {
            let text = undefined_text(m.alloc, &m.frame.called)?;
            m.unwind(Abrupt::Croaks(text));
            Ok(())
        }
        Some(callee) => enter_body(m, callee),
    }
}

fn enter_body(m: &mut Machine, callee: Callable) -> Result<(), Memory>
    requires { m.old.stopped ≡ Outcome.Returned [] }
    ensures acts { (g : Function) → length g.slots ≡ callee.slots
        → g.body ≡ stmt_in m.old.typed callee.body
        → OnOk result (mach_of m.new
        ≡ machine.enter counted_rows (Some g) (pending_of m.old) (state_of m.old)) }
    ensures typed { m.new.typed ≡ m.old.typed }
{
    if m.turns == 0 {
        m.unwind(Abrupt::Spent);
        return Ok(());
    }
    let vars = unset_vars(m.alloc, callee.slots)?;
    m.turns -= 1;
    m.vars = vars;
    m.operands.clear();
    m.then(Task::DoStmt(callee.body))
}

// The variables at the entry of a function.
fn unset_vars(alloc: Global, slots: usize) -> Result<Vec<Operand>, Memory>
    ensures { IfOk result (λ vars. vars.items ≡ replicate slots Operand.Unset) }
{
    let mut vars = Vec::new(alloc);
    for _ in 0..slots {
        vars.push(Operand::Unset)?;
    }
    Ok(vars)
}

fn undefined_text(alloc: Global, name: &Bytes) -> Result<Bytes, Memory>
    ensures { IfOk result (λ text. text ≡ machine.undefined_text name.now) }
{
    let mut text = Bytes::from_slice(alloc, b"Undefined subroutine &")?;
    text.append(name.as_slice())?;
    text.append(b" called")?;
    Ok(text)
}

// The end of a function's body.
fn fall_off(m: &mut Machine, d: Depths) -> Result<(), Memory>
    requires { m.old.stopped ≡ Outcome.Returned [] }
    ensures acts { OnOk result (mach_of m.new
        ≡ machine.act counted_rows (code_in m.old) (machine.Leave d) (pending_of m.old)
        (operands_of m.old) (state_of m.old)) }
    ensures typed { m.new.typed ≡ m.old.typed }
{
    match m.perl.xs_end(&m.frame) {
        Ok(_) => {
            m.halt(Outcome::Returned(Items::new(m.alloc)));
            Ok(())
        }
        Err(Halt::Way(abrupt)) => {
            m.leave(abrupt, d);
            Ok(())
        }
        Err(Halt::Memory) => Err(Memory),
    }
}

/// Does one piece of pending work.
pub(crate) fn act_on(m: &mut Machine, task: Task) -> Result<(), Memory>
    requires { m.old.stopped ≡ Outcome.Returned [] }
    ensures acts { OnOk result (mach_of m.new
        ≡ machine.act counted_rows (code_in m.old) (task_of m.old.typed task) (pending_of m.old)
        (operands_of m.old) (state_of m.old)) }
    ensures typed { m.new.typed ≡ m.old.typed }
{
    match task {
        Task::DoExpr(i) => act_on_expr(m, i),
        Task::DoExprs(operands) => act_on_exprs(m, operands),
        Task::DoStmt(i) => act_on_stmt(m, i),
        Task::DoStmts(body) => act_on_stmts(m, body),
        Task::SetVar(x, t) => act_on_assign(m, x, t),
        Task::OnTop(op) => act_on_top(m, op),
        Task::Operate(op) => act_on_operator(m, op),
        Task::ToType(t) => act_on_cast(m, t),
        Task::DoRow(row, n) => act_on_row(m, row, n),
        Task::Branch(a, b) => act_on_branch(m, a, b),
        Task::AndThen(e) => act_on_and(m, e),
        Task::OrThen(e) => act_on_or(m, e),
        Task::Pick(a, b) => act_on_pick(m, a, b),
        Task::DropTop => {
            pop_operand(m);
            Ok(())
        }
        Task::Enter(f) => enter(m, f),
        Task::Leave(d) => fall_off(m, d),
    }
}
