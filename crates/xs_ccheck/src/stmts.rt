//! Statements.
ghost use Rattle.std.specs.Prelude.{◌≡◌, IfOk, None, Ok, Some, drop, map, option_map, true, []};
ghost use Rattle.xs_cexpr.specs.ExpressionViews.{expr_tree};
ghost use Rattle.xs_cstmt.specs.StatementTree as syntax;
ghost use Rattle.xs_cstmt.specs.StatementTree.{stmts_of};
ghost use Rattle.xs_cstmt.specs.StatementViews.{for_tree, group_tree, stmt_tree};
ghost use Rattle.xs_ctree.specs.Arena.{expr_from};
ghost use Rattle.xs_ctree.specs.Functions.{arena_of, expr_in};
ghost use Rattle.xs_ctree.specs.Growth.{HasExpr};
ghost use Rattle.xs_ctree.specs.TypedTree as tree;
ghost use Rattle.xs_ctree.specs.declared.typed.Typed.{Typed};
ghost use Rattle.xs_ctypes.specs.Checked.{Good, judged};
ghost use Rattle.xs_ccheck.specs.Resolving.{BlockEnds, GivesGroup, GivesGroups, GivesStmt, GivesStmts, HasTyped, HaveStmts, UnlessMemory, typed_in};
ghost use Rattle.xs_ctypes.specs.Scopes as scopes;
ghost use Rattle.xs_ccheck.specs.StmtTyping as spec;

use crate::declarations::declaration;
use crate::enclosing::{Where, in_group, in_turn};
use crate::exprs::{TypedNode, expr};
use crate::for_heads::{first_part, for_end, option_expr};
use crate::labels::{group_of, labels, switched};
use crate::stmt_nodes::{block, conditional, done, leaving, nothing, without_else};
use std::alloc::Global;
use xs_base::fault_codes::{UNKNOWN_FUNCTION, UNKNOWN_NAME, WORD_NOT_ALLOWED};
use xs_base::{Bytes, Memory, Refuse};
use xs_csyn::{Expr, ForHead, Group, PerlForm, PerlWord, Stmt};
use xs_ctok::Literal;
use xs_ctree::{ExprNode, Group as CodeGroup, StmtNode, TestNode, Typed, ValueType};
use xs_ctypes::{
    FileNames, Scope, both, goes_into, is, not_built, settled, take_up, types_differ, unknown,
    worded,
};
use xs_perlapi::Row;
use xs_values::{Kind, wrap};

// ---- expressions as statements, and the end of a function

// Whether a row ends the run of the function that calls it.
fn ends(row: Row) -> bool
    ensures { result ≡ spec.ends row }
{
    match row {
        Row::XsReturn | Row::XsReturnYes | Row::XsEnd => true,
        _ => false,
    }
}

// Whether nothing of the function is run after the expression of a node.
fn quits(node: Option<ExprNode>) -> bool
    ensures { (t : Typed)
        → result ≡ spec.quits (expr_from (arena_of t) node (expr_in t)) }
{
    match node {
        Some(ExprNode::Api(_, row, _)) => ends(row),
        Some(ExprNode::Usage(_, _)) => true,
        _ => false,
    }
}

// An expression as a statement.
fn effect(typed: &mut Typed, line: u32, e: u32) -> Result<u32, Refuse>
    requires { HasExpr typed.old e }
    ensures { GivesStmt result typed.old typed.new (Good (spec.effect line (expr_in typed.old e))) }
{
    if quits(typed.expr(e)) {
        done(typed, StmtNode::Quit(line, e))
    } else {
        done(typed, StmtNode::Effect(e))
    }
}

// The return of one item.
fn returned_yes(typed: &mut Typed, line: u32) -> Result<u32, Refuse>
    ensures { GivesStmt result typed.old typed.new
        (Good (tree.Quit line (tree.Api line Row.XsReturnYes tree.NoExprs))) }
{
    let row = typed.add_row(line, Row::XsReturnYes, &[])?;
    done(typed, StmtNode::Quit(line, row))
}

// `break`, which leaves a loop or a `switch`.
fn break_out(alloc: Global, typed: &mut Typed, place: Where, line: u32) -> Result<u32, Refuse>
    ensures { GivesStmt result typed.old typed.new (judged line (spec.break_out place line)) }
{
    let stands = place.in_loop || place.in_switch;
    leaving(alloc, typed, line, stands, StmtNode::Break(line), b"break")
}

// `continue`, which goes on with the next turn of a loop.
fn next_turn(alloc: Global, typed: &mut Typed, place: Where, line: u32) -> Result<u32, Refuse>
    ensures { GivesStmt result typed.old typed.new (judged line (spec.next_turn place line)) }
{
    let node = StmtNode::Continue(line);
    leaving(alloc, typed, line, place.in_loop, node, b"continue")
}

// Whether a function that gives a result of a type may return with a value of this type, or
// without one.
fn may_return(result_type: ValueType, given: Option<ValueType>) -> bool
    ensures { result ≡ spec.may_return result_type given }
{
    match result_type {
        ValueType::Void => given.is_none(),
        ValueType::Faulty => true,
        _ => match given {
            None => false,
            Some(t) => goes_into(t, result_type),
        },
    }
}

// The end of a function without a value.
fn ended(alloc: Global, typed: &mut Typed, place: Where, line: u32) -> Result<u32, Refuse>
    ensures { GivesStmt result typed.old typed.new
        (judged line (spec.returned place line None)) }
{
    if may_return(place.result, None) {
        done(typed, StmtNode::Return(line))
    } else {
        Err(types_differ(alloc, line))
    }
}

// The end of a function with a value.
fn given(
    alloc: Global,
    typed: &mut Typed,
    place: Where,
    line: u32,
    value: TypedNode,
) -> Result<u32, Refuse>
    requires { HasTyped typed.old value }
    ensures { GivesStmt result typed.old typed.new
        (judged line (spec.returned place line (Some (typed_in typed.old value)))) }
{
    if may_return(place.result, Some(value.of_type)) {
        done(typed, StmtNode::Give(line, value.node))
    } else {
        Err(types_differ(alloc, line))
    }
}

// The end of a function.
fn function_end(
    alloc: Global,
    typed: &mut Typed,
    scope: &Scope,
    place: Where,
    line: u32,
    value: &Option<Expr>,
) -> Result<u32, Refuse>
    ensures { GivesStmt result typed.old typed.new
        (spec.function_end place scope.now line (option_map expr_tree value.now)) }
{
    match value {
        None => ended(alloc, typed, place, line),
        Some(value) => {
            let x = expr(alloc, typed, scope, value)?;
            given(alloc, typed, place, line, x)
        }
    }
}

// ---- the XS interface

fn registered(
    alloc: Global,
    typed: &mut Typed,
    line: u32,
    place: Where,
    full: &Bytes,
    function: &Bytes,
    keeps: bool,
    index: Option<usize>,
) -> Result<u32, Refuse>
    ensures { GivesStmt result typed.old typed.new
        (judged line (spec.registered place full.now function.now keeps index)) }
{
    let Some(index) = index else {
        return Err(Refuse::Fault(worded(alloc, line, UNKNOWN_FUNCTION, function.as_slice())?));
    };
    if !place.in_boot {
        return Err(Refuse::Fault(worded(alloc, line, WORD_NOT_ALLOWED, b"newXS_deffile")?));
    }
    let Ok(index) = u32::try_from(index) else {
        return Err(Refuse::Memory);
    };
    let full = full.copy(alloc)?;
    let node = typed.add_register(full, index, keeps)?;
    Ok(node)
}

fn perl_word(alloc: Global, typed: &mut Typed, line: u32, word: PerlWord) -> Result<u32, Refuse>
    ensures { GivesStmt result typed.old typed.new (judged line (spec.perl_word line word)) }
{
    match word {
        PerlWord::DXsArgs => {
            Err(Refuse::Fault(worded(alloc, line, WORD_NOT_ALLOWED, b"dXSARGS")?))
        }
        PerlWord::XsReturnYes => returned_yes(typed, line),
        _ => Err(not_built(alloc, line)),
    }
}

// The value of `ix` under the name that was registered.
fn set_index(
    alloc: Global,
    typed: &mut Typed,
    place: Where,
    line: u32,
    literal: &Literal,
) -> Result<u32, Refuse>
    ensures { GivesStmt result typed.old typed.new
        (judged line (spec.set_index place literal.now.value)) }
{
    if !place.in_boot {
        return Err(Refuse::Fault(worded(alloc, line, WORD_NOT_ALLOWED, b"XSANY")?));
    }
    let index = wrap(Kind::I32, i128::from(literal.value));
    done(typed, StmtNode::SetIndex(index))
}

// `PERL_UNUSED_VAR`, which does nothing.
fn unused(
    alloc: Global,
    typed: &mut Typed,
    scope: &Scope,
    line: u32,
    name: &[u8],
) -> Result<u32, Refuse>
    ensures { GivesStmt result typed.old typed.new
        (judged line (spec.unused scope.now.variables name.now)) }
{
    if is(name, b"items") || is(name, b"cv") || scope.variable(name).is_some() {
        nothing(typed)
    } else {
        Err(Refuse::Fault(unknown(alloc, UNKNOWN_NAME, line, name)?))
    }
}

fn perl(
    alloc: Global,
    typed: &mut Typed,
    scope: &Scope,
    names: &FileNames,
    place: Where,
    line: u32,
    form: &PerlForm,
) -> Result<u32, Refuse>
    ensures { GivesStmt result typed.old typed.new
        (judged line (spec.perl names.now place scope.now.variables line form.now)) }
{
    match form {
        PerlForm::Word(word) => perl_word(alloc, typed, line, *word),
        PerlForm::NewXs {
            keeps,
            full,
            function,
        } => {
            let index = names.index_of(function.as_slice());
            registered(alloc, typed, line, place, full, function, *keeps, index)
        }
        PerlForm::SetIndex(literal) => set_index(alloc, typed, place, line, literal),
        PerlForm::Unused(name) => unused(alloc, typed, scope, line, name.as_slice()),
        PerlForm::ResetStack | PerlForm::NewRecord { .. } => Err(not_built(alloc, line)),
    }
}

// ---- any statement

// The end of a block: its variables are known no more.
fn block_end(
    alloc: Global,
    typed: &mut Typed,
    scope: &mut Scope,
    known: usize,
    body: Result<Vec<u32>, Refuse>,
) -> Result<u32, Refuse>
    requires { IfOk body (λ v. HaveStmts typed.old v.items) }
    ensures scope { UnlessMemory result (scope.new ≡ scopes.knowing known scope.old) }
    ensures block { BlockEnds body (map (λ v. v.slot) (drop known scope.old.variables))
        typed.old result typed.new }
{
    match body {
        Ok(body) => {
            let slots = scope.slots_after(alloc, known)?;
            scope.forget_after(known);
            block(typed, slots.as_slice(), body.as_slice())
        }
        Err(e) => {
            scope.forget_after(known);
            Err(e)
        }
    }
}

#[cycle(stmt)]
#[tactic(auto, using(xs_cstmt::proofs::ViewsCompute::views), unfolding(crate::specs::StmtTyping::stmt, xs_ctypes::specs::Scopes::scope_behind))]
fn stmt(
    alloc: Global,
    typed: &mut Typed,
    scope: &mut Scope,
    names: &FileNames,
    place: Where,
    s: &Stmt,
) -> Result<u32, Refuse>
    ensures stmt { GivesStmt result typed.old typed.new
        (spec.stmt names.now place scope.old (stmt_tree s.now)) }
    ensures scope { UnlessMemory result (scope.new
        ≡ scopes.scope_behind scope.old (stmt_tree s.now)) }
{
    match s {
        Stmt::Block(_, body) => {
            let known = scope.known_count();
            let inner = stmts(alloc, typed, scope, names, place, body.as_slice());
            block_end(alloc, typed, scope, known, inner)
        }
        Stmt::Empty(_) => nothing(typed),
        Stmt::Declare(d) => declaration(alloc, typed, scope, d),
        Stmt::Effect(line, e) => {
            let x = expr(alloc, typed, scope, e)?;
            effect(typed, *line, x.node)
        }
        Stmt::If(line, test, then_do) => {
            one_branch(alloc, typed, scope, names, place, *line, test, then_do)
        }
        Stmt::IfElse(line, test, then_do, other) => {
            two_branches(
                alloc, typed, scope, names, place, *line, test, then_do, other,
            )
        }
        Stmt::While(line, test, body) => {
            while_loop(alloc, typed, scope, names, place, *line, test, body)
        }
        Stmt::DoWhile(line, body, test) => {
            do_loop(alloc, typed, scope, names, place, *line, body, test)
        }
        Stmt::Break(line) => break_out(alloc, typed, place, *line),
        Stmt::Continue(line) => next_turn(alloc, typed, place, *line),
        Stmt::Return(line, value) => { function_end(alloc, typed, scope, place, *line, value) }
        Stmt::Perl(line, form) => perl(alloc, typed, scope, names, place, *line, form),
        Stmt::For(line, head, body) => {
            for_loop(alloc, typed, scope, names, place, *line, head, body)
        }
        Stmt::Switch(line, value, all) => {
            switch(alloc, typed, scope, names, place, *line, value, all)
        }
    }
}

// An if without else.
#[cycle(stmt)]
#[tactic(auto, using(xs_cstmt::proofs::ViewsCompute::views), unfolding(crate::specs::StmtTyping::stmt, xs_ctypes::specs::Scopes::scope_behind))]
fn one_branch(
    alloc: Global,
    typed: &mut Typed,
    scope: &mut Scope,
    names: &FileNames,
    place: Where,
    line: u32,
    test: &Expr,
    then_do: &Stmt,
) -> Result<u32, Refuse>
    ensures stmt { GivesStmt result typed.old typed.new
        (spec.stmt names.now place scope.old (syntax.If line (expr_tree test.now)
        (stmt_tree then_do.now))) }
    ensures scope { UnlessMemory result (scope.new
        ≡ scopes.scope_behind scope.old (stmt_tree then_do.now)) }
{
    let x = expr(alloc, typed, scope, test);
    let branch = stmt(alloc, typed, scope, names, place, then_do);
    let (x, branch) = both(x, branch)?;
    without_else(alloc, typed, line, x, branch)
}

// An if with else.
#[cycle(stmt)]
#[tactic(auto, using(xs_cstmt::proofs::ViewsCompute::views), unfolding(crate::specs::StmtTyping::stmt, xs_ctypes::specs::Scopes::scope_behind))]
fn two_branches(
    alloc: Global,
    typed: &mut Typed,
    scope: &mut Scope,
    names: &FileNames,
    place: Where,
    line: u32,
    test: &Expr,
    then_do: &Stmt,
    other: &Stmt,
) -> Result<u32, Refuse>
    ensures stmt { GivesStmt result typed.old typed.new
        (spec.stmt names.now place scope.old (syntax.IfElse line (expr_tree test.now)
        (stmt_tree then_do.now) (stmt_tree other.now))) }
    ensures scope { UnlessMemory result (scope.new
        ≡ scopes.scope_behind (scopes.scope_behind scope.old (stmt_tree then_do.now))
        (stmt_tree other.now)) }
{
    let x = expr(alloc, typed, scope, test);
    let branch = stmt(alloc, typed, scope, names, place, then_do);
    let other = stmt(alloc, typed, scope, names, place, other);
    let (x, (branch, other)) = both(x, both(branch, other))?;
    conditional(
        alloc,
        typed,
        line,
        x,
        StmtNode::If(line, x.node, branch, other),
    )
}

// A loop whose test comes before each turn.
#[cycle(stmt)]
#[tactic(auto, using(xs_cstmt::proofs::ViewsCompute::views), unfolding(crate::specs::StmtTyping::stmt, xs_ctypes::specs::Scopes::scope_behind))]
fn while_loop(
    alloc: Global,
    typed: &mut Typed,
    scope: &mut Scope,
    names: &FileNames,
    place: Where,
    line: u32,
    test: &Expr,
    body: &Stmt,
) -> Result<u32, Refuse>
    ensures stmt { GivesStmt result typed.old typed.new
        (spec.stmt names.now place scope.old (syntax.While line (expr_tree test.now)
        (stmt_tree body.now))) }
    ensures scope { UnlessMemory result (scope.new
        ≡ scopes.scope_behind scope.old (stmt_tree body.now)) }
{
    let x = expr(alloc, typed, scope, test);
    let body = stmt(alloc, typed, scope, names, in_turn(place), body);
    let (x, body) = both(x, body)?;
    let node = StmtNode::Loop(line, true, TestNode::When(x.node), None, body);
    conditional(alloc, typed, line, x, node)
}

// A loop whose test comes after each turn.
#[cycle(stmt)]
#[tactic(auto, using(xs_cstmt::proofs::ViewsCompute::views), unfolding(crate::specs::StmtTyping::stmt, xs_ctypes::specs::Scopes::scope_behind))]
fn do_loop(
    alloc: Global,
    typed: &mut Typed,
    scope: &mut Scope,
    names: &FileNames,
    place: Where,
    line: u32,
    body: &Stmt,
    test: &Expr,
) -> Result<u32, Refuse>
    ensures stmt { GivesStmt result typed.old typed.new
        (spec.stmt names.now place scope.old (syntax.DoWhile line (stmt_tree body.now)
        (expr_tree test.now))) }
    ensures scope { UnlessMemory result (scope.new
        ≡ scopes.scope_behind scope.old (stmt_tree body.now)) }
{
    let body = stmt(alloc, typed, scope, names, in_turn(place), body);
    let x = expr(alloc, typed, scope, test);
    let (body, x) = both(body, x)?;
    let node = StmtNode::Loop(line, false, TestNode::When(x.node), None, body);
    conditional(alloc, typed, line, x, node)
}

// A `for`.
#[cycle(stmt)]
#[tactic(auto, using(xs_cstmt::proofs::ViewsCompute::views), unfolding(crate::specs::StmtTyping::stmt, xs_ctypes::specs::Scopes::scope_behind))]
fn for_loop(
    alloc: Global,
    typed: &mut Typed,
    scope: &mut Scope,
    names: &FileNames,
    place: Where,
    line: u32,
    head: &ForHead,
    body: &Stmt,
) -> Result<u32, Refuse>
    ensures stmt { GivesStmt result typed.old typed.new
        (spec.stmt names.now place scope.old (syntax.For line (for_tree head.now)
        (stmt_tree body.now))) }
    ensures scope { UnlessMemory result (scope.new
        ≡ scopes.scope_behind scope.old (syntax.For line (for_tree head.now)
        (stmt_tree body.now))) }
{
    let known = scope.known_count();
    let first = first_part(alloc, typed, scope, &head.first);
    let test = option_expr(alloc, typed, scope, &head.test);
    let step = option_expr(alloc, typed, scope, &head.step);
    let body = stmt(alloc, typed, scope, names, in_turn(place), body);
    let turns = both(step, body);
    let rest = both(test, turns);
    let parts = both(first, rest);
    for_end(alloc, typed, scope, known, line, parts)
}

// A `switch`.
#[cycle(stmt)]
#[tactic(auto, using(xs_cstmt::proofs::ViewsCompute::views), unfolding(crate::specs::StmtTyping::stmt, xs_ctypes::specs::Scopes::scope_behind))]
fn switch(
    alloc: Global,
    typed: &mut Typed,
    scope: &mut Scope,
    names: &FileNames,
    place: Where,
    line: u32,
    value: &Expr,
    all: &Vec<Group>,
) -> Result<u32, Refuse>
    ensures stmt { GivesStmt result typed.old typed.new
        (spec.stmt names.now place scope.old (syntax.Switch line (expr_tree value.now)
        (syntax.groups_of (map group_tree all.now.items)))) }
    ensures scope { UnlessMemory result (scope.new
        ≡ scopes.groups_behind scope.old (syntax.groups_of (map group_tree all.now.items))) }
{
    let x = expr(alloc, typed, scope, value);
    let all = groups(alloc, typed, scope, names, in_group(place), all.as_slice());
    let (x, all) = both(x, all)?;
    switched(alloc, typed, line, x, all.as_slice())
}

// The groups of a `switch`.
#[cycle(stmt)]
#[tactic(auto, using(xs_cstmt::proofs::ViewsCompute::views), unfolding(crate::specs::StmtTyping::stmt, xs_ctypes::specs::Scopes::scope_behind))]
fn groups(
    alloc: Global,
    typed: &mut Typed,
    scope: &mut Scope,
    names: &FileNames,
    place: Where,
    all: &[Group],
) -> Result<Vec<CodeGroup>, Refuse>
    ensures groups { GivesGroups result typed.old typed.new
        (spec.groups names.now place scope.old (syntax.groups_of (map group_tree all.now))) }
    ensures scope { UnlessMemory result (scope.new
        ≡ scopes.groups_behind scope.old (syntax.groups_of (map group_tree all.now))) }
{
    let mut good = Vec::new(alloc);
    let mut least = None;
    for g in all {
        let x = group(alloc, typed, scope, names, place, g);
        least = take_up(&mut good, least, x)?;
    }
    settled(good, least)
}

// The labels and the statements of a group.
#[cycle(stmt)]
#[tactic(auto, unfolding(crate::specs::StmtTyping::stmt, xs_ctypes::specs::Scopes::scope_behind))]
fn group(
    alloc: Global,
    typed: &mut Typed,
    scope: &mut Scope,
    names: &FileNames,
    place: Where,
    g: &Group,
) -> Result<CodeGroup, Refuse>
    ensures group { GivesGroup result typed.old typed.new
        (spec.group names.now place scope.old (group_tree g.now).labels
        (group_tree g.now).body) }
    ensures scope { UnlessMemory result (scope.new
        ≡ scopes.scopes_behind scope.old (group_tree g.now).body) }
{
    let labels = labels(alloc, typed, scope, g.labels.as_slice());
    let body = stmts(alloc, typed, scope, names, place, g.body.as_slice());
    group_of(labels, body)
}

// Statements in order.
#[cycle(stmt)]
#[tactic(auto, using(xs_cstmt::proofs::ViewsCompute::views), unfolding(crate::specs::StmtTyping::stmt, xs_ctypes::specs::Scopes::scope_behind))]
pub(crate) fn stmts(
    alloc: Global,
    typed: &mut Typed,
    scope: &mut Scope,
    names: &FileNames,
    place: Where,
    body: &[Stmt],
) -> Result<Vec<u32>, Refuse>
    ensures stmts { GivesStmts result typed.old typed.new
        (spec.stmts names.now place scope.old (stmts_of (map stmt_tree body.now))) }
    ensures scope { UnlessMemory result (scope.new
        ≡ scopes.scopes_behind scope.old (stmts_of (map stmt_tree body.now))) }
{
    let mut good = Vec::new(alloc);
    let mut least = None;
    for s in body {
        let x = stmt(alloc, typed, scope, names, place, s);
        least = take_up(&mut good, least, x)?;
    }
    settled(good, least)
}
