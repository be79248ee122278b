//! Statements, by recursive descent.
ghost use Rattle.std.specs.Prelude.{◌≡◌, IfOk, Ok, false, map};
ghost use Rattle.xs_base.specs.Names.{is_among};
ghost use Rattle.xs_cstmt.specs.StatementReader as spec;
ghost use Rattle.xs_cstmt.specs.StatementTree as t;
ghost use Rattle.xs_cinput.specs.TokenInput.{Reads};
ghost use Rattle.xs_cexpr.specs.ExpressionViews.{expr_tree};
ghost use Rattle.xs_cstmt.specs.StatementViews.{group_tree, group_trees, stmt_tree, stmt_trees};

use crate::forms::begins_form;
use crate::openers::{LEAVING_CALLS, Opener, opener_ahead};
use crate::pieces::{condition, declaration, ends_body, for_head, labels, simple};
use crate::{Group, Label, PerlForm, PerlWord, Stmt};
use std::alloc::Global;
use xs_base::{Items, Memory, Refuse, is_among, with_more};
use xs_cexpr::Expr;
use xs_cinput::Cursor;

// Whether a word of the XS interface ends a function.
fn returns(word: PerlWord) -> bool
    ensures { result ≡ spec.returns word }
{
    match word {
        PerlWord::XsReturnEmpty
        | PerlWord::XsReturnUndef
        | PerlWord::XsReturnYes
        | PerlWord::XsReturnNo => true,
        _ => false,
    }
}

// Whether a statement of the XS interface ends a function.
fn form_returns(form: &PerlForm) -> bool
    ensures { result ≡ spec.form_returns form.now }
{
    match form {
        PerlForm::Word(word) => returns(*word),
        _ => false,
    }
}

// Whether it is a call that does not come back.
#[tactic(auto, using(crate::proofs::ViewsCompute::views))]
fn is_leaving_call(a: &Expr) -> bool
    ensures { result ≡ spec.is_leaving_call (expr_tree a.now) }
{
    match a {
        Expr::Call(_, name, _) => is_among(&LEAVING_CALLS, name.as_slice()),
        _ => false,
    }
}

// Whether a statement leaves the group in which it stands last.
#[tactic(auto, using(crate::proofs::ViewsCompute::views))]
fn leaves(s: &Stmt) -> bool
    ensures { result ≡ spec.leaves (stmt_tree s.now) }
{
    match s {
        Stmt::Block(_, body) => match body.last() {
            None => false,
            Some(last) => leaves(last),
        },
        Stmt::Break(_) | Stmt::Return(_, _) => true,
        Stmt::Effect(_, a) => is_leaving_call(a),
        Stmt::Perl(_, form) => form_returns(form),
        _ => false,
    }
}

// Whether the last of some statements leaves the group.
fn last_leaves(body: &[Stmt]) -> bool
    ensures { result ≡ spec.last_leaves false (t.stmts_of (map stmt_tree body.now)) }
{
    match body.last() {
        None => false,
        Some(last) => leaves(last),
    }
}

// Whether a group of a `switch` is left at its end.
#[tactic(auto, using(crate::proofs::ViewsCompute::group_views))]
fn is_left(group: &Group) -> bool
    ensures { result ≡ spec.last_leaves false (group_tree group.now).body }
{
    last_leaves(group.body.as_slice())
}

// Labels and the statements after them.
#[tactic(auto, using(crate::proofs::ViewsCompute::group_views))]
fn group_of(line: u32, labels: Items<Label>, body: Vec<Stmt>) -> Group
    ensures { group_tree result ≡ record {
      line = line;
      labels = labels;
      body = t.stmts_of (stmt_trees body);
    } }
{
    Group { line, labels, body }
}

/// `if (EXPR) STATEMENT` as a statement.
#[tactic(auto, using(crate::proofs::ViewsCompute::views))]
pub fn if_of(alloc: Global, line: u32, test: Expr, then_do: Stmt) -> Result<Stmt, Memory>
    ensures { IfOk result (λ s. stmt_tree s ≡ t.If line (expr_tree test) (stmt_tree then_do)) }
{
    Ok(Stmt::If(line, test, Box::new(alloc, then_do)?))
}

// An `if` up to the end of its first branch.
#[derive(Drop)]
struct Tested {
    line: u32,
    test: Expr,
    then_do: Box<Stmt>,
}

// An `if` with no `else` as a statement.
#[tactic(auto, using(crate::proofs::ViewsCompute::views))]
fn without_else(head: Tested) -> Stmt
    ensures { stmt_tree result ≡ t.If head.line (expr_tree head.test)
        (stmt_tree head.then_do.value) }
{
    let Tested {
        line,
        test,
        then_do,
    } = head;
    Stmt::If(line, test, then_do)
}

// An `if` with the statement after its `else` as a statement.
#[tactic(auto, using(crate::proofs::ViewsCompute::views))]
fn if_else_of(alloc: Global, head: Tested, else_do: Stmt) -> Result<Stmt, Memory>
    ensures { IfOk result (λ s. stmt_tree s ≡ t.IfElse head.line (expr_tree head.test)
        (stmt_tree head.then_do.value) (stmt_tree else_do)) }
{
    let Tested {
        line,
        test,
        then_do,
    } = head;
    Ok(Stmt::IfElse(line, test, then_do, Box::new(alloc, else_do)?))
}

/// What stands directly in a block.
#[cycle(stmt)]
#[tactic(auto, using(crate::proofs::ViewsCompute::views), unfolding(crate::specs::StatementReader::part))]
pub fn part(alloc: Global, cursor: &mut Cursor<'_, '_>, below: u32) -> Result<Stmt, Refuse>
    ensures { Reads stmt_tree (spec.part (spec.stmt below) cursor.old) result cursor.new }
{
    if cursor.sees_type() && !begins_form(cursor) {
        Ok(Stmt::Declare(declaration(alloc, cursor)?))
    } else {
        stmt(alloc, cursor, below)
    }
}

/// What stands in a block, after the opening brace, up to after the closing one.
#[cycle(stmt)]
#[tactic(auto, using(crate::proofs::ViewsCompute::views), unfolding(crate::specs::StatementReader::parts, crate::specs::StatementReader::parts_from))]
pub fn parts(alloc: Global, cursor: &mut Cursor<'_, '_>, below: u32) -> Result<Vec<Stmt>, Refuse>
    ensures { Reads stmt_trees (spec.parts (spec.stmt below) cursor.old) result cursor.new }
{
    let mut all = Vec::new(alloc);
    for _turn in 0..cursor.turns() {
        if cursor.eat(b"}") {
            return Ok(all);
        }
        let one = part(alloc, cursor, below)?;
        all = with_more(all, one)?;
    }
    Err(cursor.refuse(alloc))
}

#[cycle(stmt)]
#[tactic(auto, using(crate::proofs::ViewsCompute::views), unfolding(crate::specs::StatementReader::block))]
fn block(alloc: Global, cursor: &mut Cursor<'_, '_>, below: u32) -> Result<Stmt, Refuse>
    ensures { Reads stmt_tree (spec.block (spec.stmt below) cursor.old) result cursor.new }
{
    let line = cursor.line();
    cursor.skip();
    let body = parts(alloc, cursor, below)?;
    Ok(Stmt::Block(line, body))
}

// The branch after `else`, which comes next.
#[cycle(stmt)]
#[tactic(auto, using(crate::proofs::ViewsCompute::views))]
fn with_else(
    alloc: Global,
    cursor: &mut Cursor<'_, '_>,
    below: u32,
    head: Tested,
) -> Result<Stmt, Refuse>
    ensures { Reads stmt_tree (spec.with_else (spec.stmt below) head.line (expr_tree head.test)
        (stmt_tree head.then_do.value) cursor.old) result cursor.new }
{
    cursor.skip();
    let else_do = stmt(alloc, cursor, below)?;
    Ok(if_else_of(alloc, head, else_do)?)
}

// What follows the branch of an `if`.
#[cycle(stmt)]
#[tactic(auto, using(crate::proofs::ViewsCompute::views), unfolding(crate::specs::StatementReader::else_branch))]
fn else_branch(
    alloc: Global,
    cursor: &mut Cursor<'_, '_>,
    below: u32,
    head: Tested,
) -> Result<Stmt, Refuse>
    ensures { Reads stmt_tree (spec.else_branch (spec.stmt below) head.line (expr_tree head.test)
        (stmt_tree head.then_do.value) cursor.old) result cursor.new }
{
    if cursor.sees_word(b"else") {
        with_else(alloc, cursor, below, head)
    } else {
        Ok(without_else(head))
    }
}

#[cycle(stmt)]
#[tactic(auto, using(crate::proofs::ViewsCompute::views), unfolding(crate::specs::StatementReader::an_if))]
fn an_if(alloc: Global, cursor: &mut Cursor<'_, '_>, below: u32) -> Result<Stmt, Refuse>
    ensures { Reads stmt_tree (spec.an_if (spec.stmt below) cursor.old) result cursor.new }
{
    let line = cursor.line();
    cursor.skip();
    let test = condition(alloc, cursor)?;
    let then_do = stmt(alloc, cursor, below)?;
    let head = Tested {
        line,
        test,
        then_do: Box::new(alloc, then_do)?,
    };
    else_branch(alloc, cursor, below, head)
}

#[cycle(stmt)]
#[tactic(auto, using(crate::proofs::ViewsCompute::views), unfolding(crate::specs::StatementReader::a_while))]
fn a_while(alloc: Global, cursor: &mut Cursor<'_, '_>, below: u32) -> Result<Stmt, Refuse>
    ensures { Reads stmt_tree (spec.a_while (spec.stmt below) cursor.old) result cursor.new }
{
    let line = cursor.line();
    cursor.skip();
    let test = condition(alloc, cursor)?;
    let body = stmt(alloc, cursor, below)?;
    Ok(Stmt::While(line, test, Box::new(alloc, body)?))
}

// `while (EXPR);` after the body of a `do`.
#[tactic(auto, using(crate::proofs::ViewsCompute::views))]
fn do_end(alloc: Global, cursor: &mut Cursor<'_, '_>, line: u32, body: Stmt) -> Result<Stmt, Refuse>
    ensures { Reads stmt_tree (spec.do_end line (stmt_tree body) cursor.old) result cursor.new }
{
    cursor.expect_word(alloc, b"while")?;
    let test = condition(alloc, cursor)?;
    cursor.expect(alloc, b";")?;
    Ok(Stmt::DoWhile(line, Box::new(alloc, body)?, test))
}

#[cycle(stmt)]
#[tactic(auto, using(crate::proofs::ViewsCompute::views), unfolding(crate::specs::StatementReader::a_do))]
fn a_do(alloc: Global, cursor: &mut Cursor<'_, '_>, below: u32) -> Result<Stmt, Refuse>
    ensures { Reads stmt_tree (spec.a_do (spec.stmt below) cursor.old) result cursor.new }
{
    let line = cursor.line();
    cursor.skip();
    let body = stmt(alloc, cursor, below)?;
    do_end(alloc, cursor, line, body)
}

#[cycle(stmt)]
#[tactic(auto, using(crate::proofs::ViewsCompute::views), unfolding(crate::specs::StatementReader::a_for))]
fn a_for(alloc: Global, cursor: &mut Cursor<'_, '_>, below: u32) -> Result<Stmt, Refuse>
    ensures { Reads stmt_tree (spec.a_for (spec.stmt below) cursor.old) result cursor.new }
{
    let line = cursor.line();
    cursor.skip();
    let head = for_head(alloc, cursor)?;
    let body = stmt(alloc, cursor, below)?;
    Ok(Stmt::For(line, head, Box::new(alloc, body)?))
}

// The statements of a group, up to the next label or the closing brace.
#[cycle(stmt)]
#[tactic(auto, using(crate::proofs::ViewsCompute::views), unfolding(crate::specs::StatementReader::group_body, crate::specs::StatementReader::body_from))]
fn group_body(alloc: Global, cursor: &mut Cursor<'_, '_>, below: u32) -> Result<Vec<Stmt>, Refuse>
    ensures { Reads stmt_trees (spec.group_body (spec.stmt below) cursor.old) result cursor.new }
{
    let mut all = Vec::new(alloc);
    for _turn in 0..cursor.turns() {
        if ends_body(cursor) {
            return Ok(all);
        }
        let one = stmt(alloc, cursor, below)?;
        all = with_more(all, one)?;
    }
    Err(cursor.refuse(alloc))
}

#[cycle(stmt)]
#[tactic(auto, using(crate::proofs::ViewsCompute::views), unfolding(crate::specs::StatementReader::group))]
fn group(alloc: Global, cursor: &mut Cursor<'_, '_>, below: u32) -> Result<Group, Refuse>
    ensures { Reads group_tree (spec.group (spec.stmt below) cursor.old) result cursor.new }
{
    let line = cursor.line();
    let labels = labels(alloc, cursor)?;
    let body = group_body(alloc, cursor, below)?;
    Ok(group_of(line, labels, body))
}

// The groups of a `switch`, after the opening brace, up to after the closing one.
#[cycle(stmt)]
#[tactic(auto, using(crate::proofs::ViewsCompute::views), unfolding(crate::specs::StatementReader::groups, crate::specs::StatementReader::groups_from))]
fn groups(alloc: Global, cursor: &mut Cursor<'_, '_>, below: u32) -> Result<Vec<Group>, Refuse>
    ensures { Reads group_trees (spec.groups (spec.stmt below) cursor.old) result cursor.new }
{
    let mut all = Vec::new(alloc);
    let mut may = true;
    for _turn in 0..cursor.turns() {
        if cursor.eat(b"}") {
            return Ok(all);
        }
        if !may {
            return Err(cursor.refuse(alloc));
        }
        let one = group(alloc, cursor, below)?;
        may = is_left(&one);
        all = with_more(all, one)?;
    }
    Err(cursor.refuse(alloc))
}

#[cycle(stmt)]
#[tactic(auto, using(crate::proofs::ViewsCompute::views), unfolding(crate::specs::StatementReader::a_switch))]
fn a_switch(alloc: Global, cursor: &mut Cursor<'_, '_>, below: u32) -> Result<Stmt, Refuse>
    ensures { Reads stmt_tree (spec.a_switch (spec.stmt below) cursor.old) result cursor.new }
{
    let line = cursor.line();
    cursor.skip();
    let on = condition(alloc, cursor)?;
    cursor.expect(alloc, b"{")?;
    let all = groups(alloc, cursor, below)?;
    Ok(Stmt::Switch(line, on, all))
}

// A statement in which others stand, by its first word.
#[cycle(stmt)]
fn opened_by(
    alloc: Global,
    cursor: &mut Cursor<'_, '_>,
    below: u32,
    first: Opener,
) -> Result<Stmt, Refuse>
    ensures { Reads stmt_tree (spec.opened_by (spec.stmt below) first cursor.old) result
        cursor.new }
{
    match first {
        Opener::If => an_if(alloc, cursor, below),
        Opener::While => a_while(alloc, cursor, below),
        Opener::Do => a_do(alloc, cursor, below),
        Opener::For => a_for(alloc, cursor, below),
        Opener::Switch => a_switch(alloc, cursor, below),
    }
}

/// A statement of at most `room` levels.
#[cycle(stmt)]
#[tactic(auto, using(crate::proofs::ViewsCompute::views), unfolding(crate::specs::StatementReader::stmt))]
pub fn stmt(alloc: Global, cursor: &mut Cursor<'_, '_>, room: u32) -> Result<Stmt, Refuse>
    ensures { Reads stmt_tree (spec.stmt room cursor.old) result cursor.new }
{
    if cursor.sees(b"{") {
        if room == 0 {
            return Err(cursor.too_deep(alloc));
        }
        return block(alloc, cursor, room - 1);
    }
    match opener_ahead(cursor) {
        None => simple(alloc, cursor),
        Some(first) => {
            if room == 0 {
                return Err(cursor.too_deep(alloc));
            }
            opened_by(alloc, cursor, room - 1, first)
        }
    }
}
