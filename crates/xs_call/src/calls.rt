//! The commands that can be run so far: calls in list form with whole numbers that an IV holds.
ghost use Rattle.std.specs.Prelude.{◌≡◌, IfOk, map};
ghost use Rattle.xs_base.specs.Reading.{Gives};
ghost use Rattle.xs_call.specs.BuiltCalls.{call_of_command, call_with, calls_of_commands, int_of, ints_of, not_built_at};
ghost use Rattle.xs_script.specs.CommandTree.{Num};
ghost use Rattle.xs_script.specs.CommandViews.{expr_view, command_view};

use std::alloc::Global;
use xs_base::{Bytes, Fault, FileOf, Items, Memory, Refuse};
use xs_meaning::CallCommand;
use xs_script::{Command, E, Number};

// A number that an IV holds.
fn signed(number: Number) -> Option<i64>
    ensures { result ≡ int_of (Num number) }
{
    match number {
        Number::Int(n) => Some(n),
        Number::Uns(_) => None,
    }
}

// The number that an expression is, if it is one that an IV holds.
#[tactic(auto, using(xs_script::proofs::ValueViews::views))]
fn int_value(e: &E) -> Option<i64>
    ensures { result ≡ int_of (expr_view e.now) }
{
    match e {
        E::Number(number) => signed(*number),
        E::Undef => None,
        E::Text(_) => None,
        E::Variable(_) => None,
        E::Reference(_) => None,
        E::List(_) => None,
        E::Hash(_) => None,
        E::Argument(_) => None,
    }
}

fn int_values(alloc: Global, es: &[E]) -> Result<Option<Items<i64>>, Memory>
    ensures { IfOk result (λ numbers. numbers ≡ ints_of (map expr_view es.now)) }
{
    let mut numbers = Items::new(alloc);
    for e in es {
        let Some(n) = int_value(e) else {
            return Ok(None);
        };
        numbers.push(n)?;
    }
    Ok(Some(numbers))
}

// The refusal of a command of a form that is not built yet.
fn not_built_at(alloc: Global, line: u32) -> Refuse
    ensures { result ≡ Refuse.Fault (not_built_at line) }
{
    Refuse::Fault(Fault::not_built(alloc, FileOf::Script, line))
}

fn call_with(alloc: Global, line: u32, sub: &Bytes, args: &[E]) -> Result<CallCommand, Refuse>
    ensures { Gives result (call_with line sub.now (ints_of (map expr_view args.now))) }
{
    let Some(args) = int_values(alloc, args)? else {
        return Err(not_built_at(alloc, line));
    };
    Ok(CallCommand {
        line,
        sub: sub.copy(alloc)?,
        args,
    })
}

fn plain_call(alloc: Global, command: &Command) -> Result<CallCommand, Refuse>
    ensures { Gives result (call_of_command (command_view command.now)) }
{
    match command {
        Command::Call(line, sub, args) => Ok(call_with(alloc, *line, sub, args.as_slice())?),
        Command::My(line, _, _) => Err(not_built_at(alloc, *line)),
        Command::MyCall(line, _, _, _) => Err(not_built_at(alloc, *line)),
        Command::Ro(line, _) => Err(not_built_at(alloc, *line)),
        Command::Show(line, _) => Err(not_built_at(alloc, *line)),
        Command::Drop(line, _) => Err(not_built_at(alloc, *line)),
        Command::Isa(line, _, _) => Err(not_built_at(alloc, *line)),
        Command::Sub(line, _, _) => Err(not_built_at(alloc, *line)),
    }
}

/// The calls of a script, or the refusal of its first command of another form.
pub fn built_calls(alloc: Global, commands: &[Command]) -> Result<Items<CallCommand>, Refuse>
    ensures { Gives result (calls_of_commands (map command_view commands.now)) }
{
    let mut calls = Items::new(alloc);
    for command in commands {
        let call = plain_call(alloc, command)?;
        calls.push(call)?;
    }
    Ok(calls)
}
