//! Declarations, and the parts of statements that hold expressions.
ghost use Rattle.std.specs.Prelude.{◌≡◌, map, option_map};
ghost use Rattle.xs_cstmt.specs.StatementReader as spec;
ghost use Rattle.xs_cinput.specs.TokenInput.{Reads};
ghost use Rattle.xs_cexpr.specs.ExpressionViews.{expr_tree};
ghost use Rattle.xs_cstmt.specs.StatementViews.{declarator_tree, declared_tree, first_tree, for_tree, stmt_tree};

use crate::forms::{form_ahead, int_ahead, perl_form};
use crate::{Declarator, Declared, First, ForHead, Label, Stmt};
use std::alloc::Global;
use xs_base::{Items, Refuse};
use xs_cexpr::{Expr, Level, Node, expr};
use xs_cinput::{Cursor, stars, type_name};

/// How deep statements may stand in each other, and how many nodes the longest way down an
/// expression may have.
pub const MAX_NESTING: u32 = 64;

#[tactic(auto, unfolding(crate::specs::StatementReader::an_expr))]
fn an_expr(alloc: Global, cursor: &mut Cursor<'_, '_>) -> Result<Expr, Refuse>
    ensures { Reads expr_tree (spec.an_expr cursor.old) result cursor.new }
{
    let Node { tree, height: _ } = expr(alloc, cursor, MAX_NESTING, Level::Whole)?;
    Ok(tree)
}

// An expression up to after this sign, or the sign alone.
#[tactic(auto, unfolding(crate::specs::StatementReader::until))]
fn until(alloc: Global, cursor: &mut Cursor<'_, '_>, sign: &[u8]) -> Result<Option<Expr>, Refuse>
    ensures { Reads (option_map expr_tree) (spec.until sign.now cursor.old) result cursor.new }
{
    if cursor.eat(sign) {
        return Ok(None);
    }
    let a = an_expr(alloc, cursor)?;
    cursor.expect(alloc, sign)?;
    Ok(Some(a))
}

// The value after `=`, if that comes next.
#[tactic(auto, unfolding(crate::specs::StatementReader::first_value))]
fn first_value(alloc: Global, cursor: &mut Cursor<'_, '_>) -> Result<Option<Expr>, Refuse>
    ensures { Reads (option_map expr_tree) (spec.first_value cursor.old) result cursor.new }
{
    if !cursor.eat(b"=") {
        return Ok(None);
    }
    let a = an_expr(alloc, cursor)?;
    Ok(Some(a))
}

#[tactic(auto, unfolding(crate::specs::StatementReader::declarator))]
fn declarator(alloc: Global, cursor: &mut Cursor<'_, '_>) -> Result<Declarator, Refuse>
    ensures { Reads declarator_tree (spec.declarator cursor.old) result cursor.new }
{
    let stars = stars(alloc, cursor)?;
    let line = cursor.line();
    let name = cursor.variable(alloc)?;
    let value = first_value(alloc, cursor)?;
    Ok(Declarator {
        line,
        stars,
        name,
        value,
    })
}

#[tactic(auto, unfolding(crate::specs::StatementReader::declarators, crate::specs::StatementReader::declarators_from))]
fn declarators(alloc: Global, cursor: &mut Cursor<'_, '_>) -> Result<Items<Declarator>, Refuse>
    ensures { Reads (map declarator_tree) (spec.declarators cursor.old) result cursor.new }
{
    let mut all = Items::new(alloc);
    for _turn in 0..cursor.turns() {
        let one = declarator(alloc, cursor)?;
        let more = cursor.eat(b",");
        all.push(one)?;
        if !more {
            return Ok(all);
        }
    }
    Err(cursor.refuse(alloc))
}

/// Names that are declared with the type before them, up to after the `;`.
#[tactic(auto, unfolding(crate::specs::StatementReader::declaration))]
pub fn declaration(alloc: Global, cursor: &mut Cursor<'_, '_>) -> Result<Declared, Refuse>
    ensures { Reads declared_tree (spec.declaration cursor.old) result cursor.new }
{
    let line = cursor.line();
    let base = type_name(alloc, cursor)?;
    let names = declarators(alloc, cursor)?;
    cursor.expect(alloc, b";")?;
    Ok(Declared { line, base, names })
}

// An expression for its effect.
#[tactic(auto, using(crate::proofs::ViewsCompute::views), unfolding(crate::specs::StatementReader::effect))]
fn effect(alloc: Global, cursor: &mut Cursor<'_, '_>) -> Result<Stmt, Refuse>
    ensures { Reads stmt_tree (spec.effect cursor.old) result cursor.new }
{
    let line = cursor.line();
    let a = an_expr(alloc, cursor)?;
    cursor.expect(alloc, b";")?;
    Ok(Stmt::Effect(line, a))
}

// `return`, with a value or without.
#[tactic(auto, using(crate::proofs::ViewsCompute::views), unfolding(crate::specs::StatementReader::returned))]
fn returned(alloc: Global, cursor: &mut Cursor<'_, '_>) -> Result<Stmt, Refuse>
    ensures { Reads stmt_tree (spec.returned cursor.old) result cursor.new }
{
    let line = cursor.line();
    cursor.skip();
    let value = until(alloc, cursor, b";")?;
    Ok(Stmt::Return(line, value))
}

// `break` or `continue`, with the `;` after it.
#[tactic(auto, using(crate::proofs::ViewsCompute::views), unfolding(crate::specs::StatementReader::jump))]
fn jump(alloc: Global, cursor: &mut Cursor<'_, '_>, is_break: bool) -> Result<Stmt, Refuse>
    ensures { Reads stmt_tree (spec.jump is_break cursor.old) result cursor.new }
{
    let line = cursor.line();
    cursor.skip();
    cursor.expect(alloc, b";")?;
    if is_break {
        Ok(Stmt::Break(line))
    } else {
        Ok(Stmt::Continue(line))
    }
}

// A statement in which no other stands and that is no form of the XS interface.
#[tactic(auto, using(crate::proofs::ViewsCompute::views), unfolding(crate::specs::StatementReader::plain, crate::specs::StatementReader::empty))]
fn plain(alloc: Global, cursor: &mut Cursor<'_, '_>) -> Result<Stmt, Refuse>
    ensures { Reads stmt_tree (spec.plain cursor.old) result cursor.new }
{
    if cursor.sees(b";") {
        let line = cursor.line();
        cursor.skip();
        Ok(Stmt::Empty(line))
    } else if cursor.sees_word(b"return") {
        returned(alloc, cursor)
    } else if cursor.sees_word(b"break") {
        jump(alloc, cursor, true)
    } else if cursor.sees_word(b"continue") {
        jump(alloc, cursor, false)
    } else {
        effect(alloc, cursor)
    }
}

/// A statement in which no other stands.
#[tactic(auto, unfolding(crate::specs::StatementReader::simple))]
pub fn simple(alloc: Global, cursor: &mut Cursor<'_, '_>) -> Result<Stmt, Refuse>
    ensures { Reads stmt_tree (spec.simple cursor.old) result cursor.new }
{
    match form_ahead(cursor) {
        Some(form) => perl_form(alloc, cursor, form),
        None => plain(alloc, cursor),
    }
}

/// An expression in parentheses.
#[tactic(auto, unfolding(crate::specs::StatementReader::condition))]
pub fn condition(alloc: Global, cursor: &mut Cursor<'_, '_>) -> Result<Expr, Refuse>
    ensures { Reads expr_tree (spec.condition cursor.old) result cursor.new }
{
    cursor.expect(alloc, b"(")?;
    let a = an_expr(alloc, cursor)?;
    cursor.expect(alloc, b")")?;
    Ok(a)
}

// What stands first in the head of a `for`, up to after the `;`.
#[tactic(auto, unfolding(crate::specs::StatementReader::first_part))]
fn first_part(alloc: Global, cursor: &mut Cursor<'_, '_>) -> Result<First, Refuse>
    ensures { Reads first_tree (spec.first_part cursor.old) result cursor.new }
{
    if cursor.sees_type() {
        return Ok(First::Declare(declaration(alloc, cursor)?));
    }
    match until(alloc, cursor, b";")? {
        None => Ok(First::Nothing),
        Some(a) => Ok(First::Effect(a)),
    }
}

/// The head of a `for`, after that word.
#[tactic(auto, unfolding(crate::specs::StatementReader::for_head))]
pub fn for_head(alloc: Global, cursor: &mut Cursor<'_, '_>) -> Result<ForHead, Refuse>
    ensures { Reads for_tree (spec.for_head cursor.old) result cursor.new }
{
    cursor.expect(alloc, b"(")?;
    let first = first_part(alloc, cursor)?;
    let test = until(alloc, cursor, b";")?;
    let step = until(alloc, cursor, b")")?;
    Ok(ForHead { first, test, step })
}

/// Whether a label of a `switch` comes next.
#[tactic(auto, unfolding(crate::specs::StatementReader::sees_label))]
pub fn sees_label(cursor: &Cursor<'_, '_>) -> bool
    ensures { result ≡ spec.sees_label cursor.now }
{
    cursor.sees_word(b"case") || cursor.sees_word(b"default")
}

/// Whether the next label or the closing brace of a `switch` comes next.
pub fn ends_body(cursor: &Cursor<'_, '_>) -> bool
    ensures { result ≡ spec.ends_body cursor.now }
{
    cursor.sees(b"}") || sees_label(cursor)
}

// `default:`, after that word.
#[tactic(auto, unfolding(crate::specs::StatementReader::default_label))]
fn default_label(alloc: Global, cursor: &mut Cursor<'_, '_>, line: u32) -> Result<Label, Refuse>
    ensures { Reads (λ l. l) (spec.default_label line cursor.old) result cursor.new }
{
    cursor.expect(alloc, b":")?;
    Ok(Label::Default(line))
}

// `case INT:` or `case NAME:`, after that word.
#[tactic(auto, unfolding(crate::specs::StatementReader::case_label, crate::specs::StatementReader::int_label, crate::specs::StatementReader::name_label))]
fn case_label(alloc: Global, cursor: &mut Cursor<'_, '_>, line: u32) -> Result<Label, Refuse>
    ensures { Reads (λ l. l) (spec.case_label line cursor.old) result cursor.new }
{
    if let Some(literal) = int_ahead(cursor) {
        cursor.skip();
        cursor.expect(alloc, b":")?;
        return Ok(Label::Int(line, literal));
    }
    let name = cursor.variable(alloc)?;
    cursor.expect(alloc, b":")?;
    Ok(Label::Name(line, name))
}

#[tactic(auto, unfolding(crate::specs::StatementReader::a_label))]
fn a_label(alloc: Global, cursor: &mut Cursor<'_, '_>) -> Result<Label, Refuse>
    ensures { Reads (λ l. l) (spec.a_label cursor.old) result cursor.new }
{
    let line = cursor.line();
    if cursor.sees_word(b"default") {
        cursor.skip();
        return default_label(alloc, cursor, line);
    }
    cursor.expect_word(alloc, b"case")?;
    case_label(alloc, cursor, line)
}

/// The labels of a group: one, and those directly after it.
#[tactic(auto, unfolding(crate::specs::StatementReader::labels, crate::specs::StatementReader::labels_from))]
pub fn labels(alloc: Global, cursor: &mut Cursor<'_, '_>) -> Result<Items<Label>, Refuse>
    ensures { Reads (λ all. all) (spec.labels cursor.old) result cursor.new }
{
    let mut all = Items::new(alloc);
    for _turn in 0..cursor.turns() {
        let one = a_label(alloc, cursor)?;
        all.push(one)?;
        if !sees_label(cursor) {
            return Ok(all);
        }
    }
    Err(cursor.refuse(alloc))
}
