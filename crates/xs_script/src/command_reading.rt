//! Commands and actions, by their rules.
ghost use Rattle.std.specs.Prelude.{◌≡◌};
ghost use Rattle.xs_script.specs.PartInput.{Reads};
ghost use Rattle.xs_script.specs.Rules as spec;
ghost use Rattle.xs_script.specs.CommandViews.{act, acts_of, call_of, exprs_in, command_view};

use crate::command::{Action, Command, E};
use crate::command_words::{CALL, DIE, DROP, ISA, MY, PUSH, RO, SET, SHOW, SUB};
use crate::cursor::{Cursor, names_sub};
use crate::line_part::{Kind, Mark, Stop};
use crate::value::{argument, value, variable};
use std::alloc::Global;
use xs_base::{Bytes, add};

#[tactic(auto, using(crate::proofs::ValueViews::views), unfolding(crate::specs::Rules::some_arguments, crate::specs::Rules::listed))]
fn some_arguments(alloc: Global, cursor: &mut Cursor<'_>, in_sub: bool) -> Result<Vec<E>, Stop>
    ensures { Reads exprs_in (spec.some_arguments in_sub cursor.old) result cursor.new }
{
    let mut all = Vec::new(alloc);
    for _turn in 0..cursor.left() {
        let e = value(alloc, cursor, in_sub)?;
        add(&mut all, e)?;
        if !cursor.eat(Mark::Comma) {
            cursor.expect(Mark::CloseRound)?;
            return Ok(all);
        }
    }
    Err(Stop::Unread)
}

/// The arguments of a call, with their parentheses.
#[tactic(auto, unfolding(crate::specs::Rules::arguments))]
fn arguments(alloc: Global, cursor: &mut Cursor<'_>, in_sub: bool) -> Result<Vec<E>, Stop>
    ensures { Reads exprs_in (spec.arguments in_sub cursor.old) result cursor.new }
{
    cursor.expect(Mark::OpenRound)?;
    if cursor.eat(Mark::CloseRound) {
        Ok(Vec::new(alloc))
    } else {
        some_arguments(alloc, cursor, in_sub)
    }
}

/// A sub and the arguments of its call.
#[tactic(auto, unfolding(crate::specs::Rules::call))]
fn call(alloc: Global, cursor: &mut Cursor<'_>, in_sub: bool) -> Result<(Bytes, Vec<E>), Stop>
    ensures { Reads call_of (spec.call in_sub cursor.old) result cursor.new }
{
    let sub = cursor.sub_name(alloc)?;
    let args = arguments(alloc, cursor, in_sub)?;
    Ok((sub, args))
}

#[tactic(auto, unfolding(crate::specs::Rules::action, crate::specs::Rules::set_action))]
fn action(alloc: Global, cursor: &mut Cursor<'_>) -> Result<Action, Stop>
    ensures { Reads act (spec.action cursor.old) result cursor.new }
{
    if cursor.eat_word(PUSH.as_bytes()) {
        Ok(Action::Push(value(alloc, cursor, true)?))
    } else if cursor.eat_word(SET.as_bytes()) {
        let k = argument(alloc, cursor)?;
        cursor.expect(Mark::Equals)?;
        Ok(Action::Set(k, value(alloc, cursor, true)?))
    } else if cursor.eat_word(CALL.as_bytes()) {
        let (sub, args) = call(alloc, cursor, true)?;
        Ok(Action::Call(sub, args))
    } else if cursor.eat_word(DIE.as_bytes()) {
        Ok(Action::Die(cursor.part(alloc, Kind::Text)?))
    } else {
        Err(Stop::Unread)
    }
}

/// The actions of a sub.
#[tactic(auto, unfolding(crate::specs::Rules::actions, crate::specs::Rules::listed))]
fn actions(alloc: Global, cursor: &mut Cursor<'_>) -> Result<Vec<Action>, Stop>
    ensures { Reads acts_of (spec.actions cursor.old) result cursor.new }
{
    let mut all = Vec::new(alloc);
    for _turn in 0..cursor.left() {
        let a = action(alloc, cursor)?;
        add(&mut all, a)?;
        if !cursor.eat(Mark::Semicolon) {
            return Ok(all);
        }
    }
    Err(Stop::Unread)
}

/// Whether a call comes next. The word `call` alone may be a variable.
#[tactic(auto, unfolding(crate::specs::Rules::sees_call))]
fn sees_call(cursor: &Cursor<'_>) -> bool
    ensures { result ≡ spec.sees_call cursor.now }
{
    cursor.sees_word(CALL.as_bytes()) && names_sub(cursor.kind_after())
}

#[tactic(auto, unfolding(crate::specs::Rules::my_command))]
fn my_command(alloc: Global, cursor: &mut Cursor<'_>, line: u32) -> Result<Command, Stop>
    ensures { Reads command_view (spec.my_command line cursor.old) result cursor.new }
{
    let name = cursor.part(alloc, Kind::Name)?;
    cursor.expect(Mark::Equals)?;
    if sees_call(cursor) {
        cursor.eat_word(CALL.as_bytes());
        let (sub, args) = call(alloc, cursor, false)?;
        Ok(Command::MyCall(line, name, sub, args))
    } else {
        Ok(Command::My(line, name, value(alloc, cursor, false)?))
    }
}

#[tactic(auto, unfolding(crate::specs::Rules::sub_command))]
fn sub_command(alloc: Global, cursor: &mut Cursor<'_>, line: u32) -> Result<Command, Stop>
    ensures { Reads command_view (spec.sub_command line cursor.old) result cursor.new }
{
    let sub = cursor.sub_name(alloc)?;
    cursor.expect(Mark::Equals)?;
    Ok(Command::Sub(line, sub, actions(alloc, cursor)?))
}

/// The commands whose one part is a variable.
#[tactic(auto, unfolding(crate::specs::Rules::variable_command))]
fn variable_command(alloc: Global, cursor: &mut Cursor<'_>, line: u32) -> Result<Command, Stop>
    ensures { Reads command_view (spec.variable_command line cursor.old) result cursor.new }
{
    if cursor.eat_word(RO.as_bytes()) {
        Ok(Command::Ro(line, variable(alloc, cursor)?))
    } else if cursor.eat_word(SHOW.as_bytes()) {
        Ok(Command::Show(line, variable(alloc, cursor)?))
    } else if cursor.eat_word(DROP.as_bytes()) {
        Ok(Command::Drop(line, variable(alloc, cursor)?))
    } else {
        Err(Stop::Unread)
    }
}

#[tactic(auto, unfolding(crate::specs::Rules::by_word, crate::specs::Rules::isa_command))]
fn by_word(alloc: Global, cursor: &mut Cursor<'_>, line: u32) -> Result<Command, Stop>
    ensures { Reads command_view (spec.by_word line cursor.old) result cursor.new }
{
    if cursor.eat_word(MY.as_bytes()) {
        my_command(alloc, cursor, line)
    } else if cursor.eat_word(CALL.as_bytes()) {
        let (sub, args) = call(alloc, cursor, false)?;
        Ok(Command::Call(line, sub, args))
    } else if cursor.eat_word(ISA.as_bytes()) {
        let class = cursor.part(alloc, Kind::Name)?;
        let parent = cursor.part(alloc, Kind::Name)?;
        Ok(Command::Isa(line, class, parent))
    } else if cursor.eat_word(SUB.as_bytes()) {
        sub_command(alloc, cursor, line)
    } else {
        variable_command(alloc, cursor, line)
    }
}

/// The command of a whole line.
#[tactic(auto, unfolding(crate::specs::Rules::command, crate::specs::Rules::at_end))]
pub fn command(alloc: Global, cursor: &mut Cursor<'_>, line: u32) -> Result<Command, Stop>
    ensures { Reads command_view (spec.command line cursor.old) result cursor.new }
{
    let command = by_word(alloc, cursor, line)?;
    match cursor.kind() {
        Kind::End => Ok(command),
        _ => Err(Stop::Unread),
    }
}
