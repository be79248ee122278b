//! Declarations.
ghost use Rattle.std.specs.Prelude.{◌≡◌, IfOk, None, Ok, Some, length, map, option_map, true, []};
ghost use Rattle.xs_cexpr.specs.ExpressionViews.{expr_tree};
ghost use Rattle.xs_cstmt.specs.StatementViews.{declared_tree, declarator_tree};
ghost use Rattle.xs_ctree.specs.Functions.{expr_in};
ghost use Rattle.xs_ctree.specs.Growth.{HasExpr};
ghost use Rattle.xs_ctree.specs.declared.typed.Typed.{Typed};
ghost use Rattle.xs_ctypes.specs.Checked.{Good, judged};
ghost use Rattle.xs_ccheck.specs.Resolving.{GivesStmt, GivesStmts, GivesType, HaveStmts, UnlessMemory, all_stmts_in};
ghost use Rattle.xs_ctypes.specs.Scopes as scopes;
ghost use Rattle.xs_ccheck.specs.StmtTyping as spec;

use crate::exprs::expr;
use crate::stmt_nodes::{block, done, nothing, pair};
use std::alloc::Global;
use xs_base::fault_codes::DECLARED_TWICE;
use xs_base::{Bytes, Memory, Refuse};
use xs_csyn::{Declarator, Declared, Expr};
use xs_ctree::{ExprNode, StmtNode, TargetNode, Typed, ValueType};
use xs_ctypes::{Scope, goes_into, settled, take_up, type_named, types_differ, worded};

// Whether a first value of a type, where there is one, goes into a variable of a type.
fn is_given(given: Option<ValueType>, t: ValueType) -> bool
    ensures { result ≡ spec.is_given given t }
{
    match given {
        None => true,
        Some(from) => goes_into(from, t),
    }
}

// The type of a name that is declared with a type and with a first value of a type.
fn declared(
    alloc: Global,
    scope: &Scope,
    line: u32,
    name: &[u8],
    of_type: Option<ValueType>,
    given: Option<ValueType>,
) -> Result<ValueType, Refuse>
    ensures { GivesType result (judged line (spec.declared scope.now name.now of_type given)) }
{
    let Some(t) = of_type else {
        return Err(types_differ(alloc, line));
    };
    if !is_given(given, t) {
        return Err(types_differ(alloc, line));
    }
    if scope.is_in_use(name) {
        return Err(Refuse::Fault(worded(alloc, line, DECLARED_TWICE, name)?));
    }
    Ok(t)
}

// The number of the slot that is declared next.
fn next_slot(scope: &Scope) -> Result<u32, Memory>
    ensures { IfOk result (λ n. n ≡ length scope.now.slots) }
{
    match u32::try_from(scope.slot_count()) {
        Ok(number) => Ok(number),
        Err(_) => Err(Memory),
    }
}

// The declaration of a slot that its first value is assigned to.
fn begun(
    alloc: Global,
    typed: &mut Typed,
    line: u32,
    slot: u32,
    t: ValueType,
    value: u32,
) -> Result<u32, Refuse>
    requires { HasExpr typed.old value }
    ensures { GivesStmt result typed.old typed.new
        (Good (spec.begun line slot (expr_in typed.old value) t)) }
{
    let target = TargetNode::Variable(slot, t);
    let assigned = typed.add_expr(ExprNode::Assign(line, target, value))?;
    let declares = typed.add_stmt(StmtNode::Declare(line, slot))?;
    let assigns = typed.add_stmt(StmtNode::Effect(assigned))?;
    let body = pair(alloc, declares, assigns)?;
    block(typed, &[], body.as_slice())
}

// A name that is declared with a type word and has no value.
fn declared_unset(
    alloc: Global,
    typed: &mut Typed,
    scope: &Scope,
    base: &Bytes,
    d: &Declarator,
) -> Result<u32, Refuse>
    ensures { GivesStmt result typed.old typed.new
        (spec.declarator base.now scope.now (declarator_tree d.now) None) }
{
    let of_type = type_named(base, d.stars);
    declared(alloc, scope, d.line, d.name.as_slice(), of_type, None)?;
    let slot = next_slot(scope)?;
    done(typed, StmtNode::Declare(d.line, slot))
}

// A name that is declared with a type word and a first value.
fn declared_with(
    alloc: Global,
    typed: &mut Typed,
    scope: &Scope,
    base: &Bytes,
    d: &Declarator,
    value: &Expr,
) -> Result<u32, Refuse>
    ensures { GivesStmt result typed.old typed.new
        (spec.declarator base.now scope.now (declarator_tree d.now)
        (Some (expr_tree value.now))) }
{
    let x = expr(alloc, typed, scope, value)?;
    let of_type = type_named(base, d.stars);
    let name = d.name.as_slice();
    let t = declared(alloc, scope, d.line, name, of_type, Some(x.of_type))?;
    let slot = next_slot(scope)?;
    begun(alloc, typed, d.line, slot, t, x.node)
}

// A name that is declared with a type word.
fn declarator(
    alloc: Global,
    typed: &mut Typed,
    scope: &Scope,
    base: &Bytes,
    d: &Declarator,
) -> Result<u32, Refuse>
    ensures { GivesStmt result typed.old typed.new
        (spec.declarator base.now scope.now (declarator_tree d.now)
        (option_map expr_tree d.now.value)) }
{
    match &d.value {
        None => declared_unset(alloc, typed, scope, base, d),
        Some(value) => declared_with(alloc, typed, scope, base, d, value),
    }
}

// Names that are declared one after another.
fn declarators(
    alloc: Global,
    typed: &mut Typed,
    scope: &mut Scope,
    base: &Bytes,
    names: &[Declarator],
) -> Result<Vec<u32>, Refuse>
    ensures stmts { GivesStmts result typed.old typed.new
        (spec.declarators base.now scope.old (map declarator_tree names.now)) }
    ensures scope { UnlessMemory result (scope.new
        ≡ scopes.declarators_behind base.now scope.old (map declarator_tree names.now)) }
{
    let mut good = Vec::new(alloc);
    let mut least = None;
    for d in names {
        let x = declarator(alloc, typed, scope, base, d);
        scope.declare(alloc, base, d)?;
        least = take_up(&mut good, least, x)?;
    }
    settled(good, least)
}

// Statements in order, as one.
fn in_order(typed: &mut Typed, body: &[u32]) -> Result<u32, Refuse>
    requires { HaveStmts typed.old body.now }
    ensures { GivesStmt result typed.old typed.new
        (Good (spec.in_order (all_stmts_in typed.old body.now))) }
{
    let Some((first, rest)) = body.split_first() else {
        return nothing(typed);
    };
    if rest.split_first().is_some() {
        return block(typed, &[], body);
    }
    Ok(*first)
}

// A declaration.
pub(crate) fn declaration(
    alloc: Global,
    typed: &mut Typed,
    scope: &mut Scope,
    d: &Declared,
) -> Result<u32, Refuse>
    ensures stmt { GivesStmt result typed.old typed.new
        (spec.declaration d.now.base scope.old (map declarator_tree d.now.names)) }
    ensures scope { UnlessMemory result (scope.new
        ≡ scopes.declared_behind scope.old (declared_tree d.now)) }
{
    let body = declarators(alloc, typed, scope, &d.base, d.names.as_slice())?;
    in_order(typed, body.as_slice())
}
