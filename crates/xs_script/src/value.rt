//! Expressions. Brackets are kept in a list, so that no line is too deep to read.
ghost use Rattle.std.specs.Prelude.{◌≡◌, IfOk, map};
ghost use Rattle.xs_script.specs.Brackets.{around_of, bracket};
ghost use Rattle.xs_script.specs.PartInput.{Reads};
ghost use Rattle.xs_script.specs.Partial.{partial_of};
ghost use Rattle.xs_script.specs.Value as spec;
ghost use Rattle.xs_script.specs.CommandViews.{entry, expr_view};

use crate::around::{Open, depth, pop_open};
use crate::command::{E, Number};
use crate::command_words::{ARG, UNDEF};
use crate::cursor::Cursor;
use crate::line_part::{Kind, Mark, Stop};
use crate::script_number::{argument_of, number_of};
use std::alloc::Global;
use xs_base::{Bytes, Memory, add};

/// How many brackets may be open in an expression.
pub const MAX_NESTING: usize = 16;

/// An expression that is being read: the open brackets, and the expression that has ended right
/// here, if one has.
#[derive(Drop)]
pub struct Partial {
    pub around: Vec<Open>,
    pub ended: Option<E>,
}

/// A variable, known or not.
#[tactic(auto, unfolding(crate::specs::Value::variable))]
pub fn variable(alloc: Global, cursor: &mut Cursor<'_>) -> Result<Bytes, Stop>
    ensures { Reads (λ b. b) (spec.variable cursor.old) result cursor.new }
{
    let name = cursor.part(alloc, Kind::Name)?;
    cursor.named(alloc, name.as_slice())?;
    Ok(name)
}

#[tactic(auto, unfolding(crate::specs::Value::whole_number))]
fn whole_number(alloc: Global, cursor: &mut Cursor<'_>) -> Result<Number, Stop>
    ensures { Reads (λ n. n) (spec.whole_number cursor.old) result cursor.new }
{
    let text = cursor.part(alloc, Kind::Number)?;
    match number_of(text.as_slice()) {
        Some(n) => Ok(n),
        None => {
            cursor.exceeded(text);
            Ok(Number::Int(0))
        }
    }
}

/// The number of an argument, after the word `arg`.
#[tactic(auto, unfolding(crate::specs::Value::argument))]
pub fn argument(alloc: Global, cursor: &mut Cursor<'_>) -> Result<u32, Stop>
    ensures { Reads (λ n. n) (spec.argument cursor.old) result cursor.new }
{
    if !cursor.eat_word(ARG.as_bytes()) {
        return Err(Stop::Unread);
    }
    let text = cursor.part(alloc, Kind::Number)?;
    match argument_of(text.as_slice()) {
        Some(n) => Ok(n),
        None => {
            cursor.exceeded(text);
            Ok(0)
        }
    }
}

#[tactic(auto, using(crate::proofs::ValueViews::views), unfolding(crate::specs::Value::by_name))]
fn by_name(alloc: Global, cursor: &mut Cursor<'_>, in_sub: bool) -> Result<E, Stop>
    ensures { Reads expr_view (spec.by_name in_sub cursor.old) result cursor.new }
{
    if cursor.eat_word(UNDEF.as_bytes()) {
        Ok(E::Undef)
    } else if in_sub {
        Ok(E::Argument(argument(alloc, cursor)?))
    } else {
        Ok(E::Variable(variable(alloc, cursor)?))
    }
}

#[tactic(auto, using(crate::proofs::ValueViews::views), unfolding(crate::specs::Value::reference))]
fn reference(alloc: Global, cursor: &mut Cursor<'_>, in_sub: bool) -> Result<E, Stop>
    ensures { Reads expr_view (spec.reference in_sub cursor.old) result cursor.new }
{
    if in_sub {
        return Err(Stop::Unread);
    }
    cursor.expect(Mark::Backslash)?;
    Ok(E::Reference(variable(alloc, cursor)?))
}

/// An expression without brackets.
#[tactic(auto, using(crate::proofs::ValueViews::views), unfolding(crate::specs::Value::simple))]
fn simple(alloc: Global, cursor: &mut Cursor<'_>, in_sub: bool) -> Result<E, Stop>
    ensures { Reads expr_view (spec.simple in_sub cursor.old) result cursor.new }
{
    match cursor.kind() {
        Kind::Name => by_name(alloc, cursor, in_sub),
        Kind::Number => Ok(E::Number(whole_number(alloc, cursor)?)),
        Kind::Text => Ok(E::Text(cursor.part(alloc, Kind::Text)?)),
        Kind::Mark => reference(alloc, cursor, in_sub),
        Kind::End => Err(Stop::Unread),
    }
}

// A bracket has closed. What is nested too deep is not kept, since the line is at fault then.
#[tactic(auto, using(crate::proofs::ValueViews::views))]
fn finished(around: Vec<Open>, e: E) -> Partial
    ensures { partial_of result ≡ spec.finished (around_of around.items) (expr_view e) }
{
    let kept = if depth(&around) < MAX_NESTING {
        e
    } else {
        E::Undef
    };
    Partial {
        around,
        ended: Some(kept),
    }
}

// An expression begins in this bracket.
#[tactic(auto, using(crate::proofs::Arounds::arounds))]
fn inside(mut around: Vec<Open>, inner: Open) -> Result<Partial, Memory>
    ensures { IfOk result (λ partial. partial_of partial
        ≡ spec.inside (bracket inner) (around_of around.items)) }
{
    add(&mut around, inner)?;
    Ok(Partial {
        around,
        ended: None,
    })
}

#[tactic(auto, unfolding(crate::specs::Value::key))]
fn key(alloc: Global, cursor: &mut Cursor<'_>) -> Result<Bytes, Stop>
    ensures { Reads (λ b. b) (spec.key cursor.old) result cursor.new }
{
    let name = cursor.part(alloc, Kind::Text)?;
    cursor.expect(Mark::Arrow)?;
    Ok(name)
}

// A key, whose value begins after the arrow.
fn keyed(
    alloc: Global,
    cursor: &mut Cursor<'_>,
    entries: Vec<(Bytes, E)>,
    around: Vec<Open>,
) -> Result<Partial, Stop>
    ensures { Reads partial_of
        (spec.keyed (map entry entries.items) (around_of around.items) cursor.old) result
        cursor.new }
{
    let name = key(alloc, cursor)?;
    Ok(inside(around, Open::Hash(entries, name))?)
}

#[tactic(auto, using(crate::proofs::ValueViews::views), unfolding(crate::specs::Value::in_square))]
fn in_square(alloc: Global, cursor: &mut Cursor<'_>, around: Vec<Open>) -> Result<Partial, Stop>
    ensures { Reads partial_of (spec.in_square (around_of around.items) cursor.old) result
        cursor.new }
{
    cursor.opened(depth(&around) + 1);
    if cursor.eat(Mark::CloseSquare) {
        Ok(finished(around, E::List(Vec::new(alloc))))
    } else {
        Ok(inside(around, Open::List(Vec::new(alloc)))?)
    }
}

#[tactic(auto, using(crate::proofs::ValueViews::views), unfolding(crate::specs::Value::in_curly))]
fn in_curly(alloc: Global, cursor: &mut Cursor<'_>, around: Vec<Open>) -> Result<Partial, Stop>
    ensures { Reads partial_of (spec.in_curly (around_of around.items) cursor.old) result
        cursor.new }
{
    cursor.opened(depth(&around) + 1);
    if cursor.eat(Mark::CloseCurly) {
        Ok(finished(around, E::Hash(Vec::new(alloc))))
    } else {
        keyed(alloc, cursor, Vec::new(alloc), around)
    }
}

/// Where an expression begins.
#[tactic(auto, using(crate::proofs::ValueViews::views), unfolding(crate::specs::Value::begin))]
fn begin(
    alloc: Global,
    cursor: &mut Cursor<'_>,
    in_sub: bool,
    around: Vec<Open>,
) -> Result<Partial, Stop>
    ensures { Reads partial_of (spec.begin in_sub (around_of around.items) cursor.old) result
        cursor.new }
{
    if cursor.eat(Mark::OpenSquare) {
        in_square(alloc, cursor, around)
    } else if cursor.eat(Mark::OpenCurly) {
        in_curly(alloc, cursor, around)
    } else {
        let e = simple(alloc, cursor, in_sub)?;
        Ok(Partial {
            around,
            ended: Some(e),
        })
    }
}

#[tactic(auto, using(crate::proofs::ValueViews::views), unfolding(crate::specs::Value::follow_list))]
fn follow_list(cursor: &mut Cursor<'_>, items: Vec<E>, around: Vec<Open>) -> Result<Partial, Stop>
    ensures { Reads partial_of
        (spec.follow_list (map expr_view items.items) (around_of around.items) cursor.old) result
        cursor.new }
{
    if cursor.eat(Mark::Comma) {
        return Ok(inside(around, Open::List(items))?);
    }
    cursor.expect(Mark::CloseSquare)?;
    Ok(finished(around, E::List(items)))
}

#[tactic(auto, using(crate::proofs::ValueViews::views), unfolding(crate::specs::Value::follow_hash))]
fn follow_hash(
    alloc: Global,
    cursor: &mut Cursor<'_>,
    entries: Vec<(Bytes, E)>,
    around: Vec<Open>,
) -> Result<Partial, Stop>
    ensures { Reads partial_of
        (spec.follow_hash (map entry entries.items) (around_of around.items) cursor.old) result
        cursor.new }
{
    if cursor.eat(Mark::Comma) {
        return keyed(alloc, cursor, entries, around);
    }
    cursor.expect(Mark::CloseCurly)?;
    Ok(finished(around, E::Hash(entries)))
}

/// Where an expression has ended in a bracket.
#[tactic(auto, using(crate::proofs::ValueViews::views))]
fn follow(
    alloc: Global,
    cursor: &mut Cursor<'_>,
    inner: Open,
    e: E,
    around: Vec<Open>,
) -> Result<Partial, Stop>
    ensures { Reads partial_of
        (spec.follow (bracket inner) (expr_view e) (around_of around.items) cursor.old) result
        cursor.new }
{
    match inner {
        Open::List(mut items) => {
            add(&mut items, e)?;
            follow_list(cursor, items, around)
        }
        Open::Hash(mut entries, name) => {
            add(&mut entries, (name, e))?;
            follow_hash(alloc, cursor, entries, around)
        }
    }
}

/// An expression, in a sub or outside.
#[tactic(auto, using(crate::proofs::ValueViews::views), unfolding(crate::specs::Value::value, crate::specs::Value::turns))]
pub fn value(alloc: Global, cursor: &mut Cursor<'_>, in_sub: bool) -> Result<E, Stop>
    ensures { Reads expr_view (spec.value in_sub cursor.old) result cursor.new }
{
    let mut partial = Partial {
        around: Vec::new(alloc),
        ended: None,
    };
    for _turn in 0..cursor.left() + 1 {
        let Partial { mut around, ended } = partial;
        partial = match ended {
            None => begin(alloc, cursor, in_sub, around)?,
            Some(e) => match pop_open(&mut around) {
                None => return Ok(e),
                Some(inner) => follow(alloc, cursor, inner, e, around)?,
            },
        };
    }
    Err(Stop::Unread)
}
