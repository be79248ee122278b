//! Lines and scripts.
ghost use Rattle.std.specs.Option.{option_copied, option_map};
ghost use Rattle.std.specs.Prelude.{◌≡◌, ◌-◌, ◌<◌, ◌^◌, IfNone, IfOk, IfSome, List, OnOk, Result, false, length};
ghost use Rattle.xs_base.specs.Lines.{lines_of};
ghost use Rattle.xs_base.specs.Reading.{GivesBy};
ghost use Rattle.xs_base.specs.declared.fault.Fault.{Fault};
ghost use Rattle.xs_script.specs.CommandTree.{CommandView};
ghost use Rattle.xs_script.specs.GrammarMeaning.{LinesMean, Means};
ghost use Rattle.xs_script.specs.Script as spec;
ghost use Rattle.xs_script.specs.CommandViews.{command_view, command_views};

use crate::command::Command;
use crate::command_reading::command;
use crate::cursor::{Cursor, Met};
use crate::line_part::Stop;
use crate::line_parts::tokens;
use crate::scope::Scope;
use crate::value::MAX_NESTING;
use std::alloc::Global;
use xs_base::fault_codes::{
    BAD_SCRIPT_LINE, NAMED_TWICE_IN_SCRIPT, NUMBER_OUT_OF_RANGE, TOO_MANY_IN_SCRIPT,
    UNKNOWN_VARIABLE, VALUE_TOO_DEEP,
};
use xs_base::{
    Bytes, Fault, FileOf, Items, Line, Memory, Refuse, is_among_names, is_blank_line, is_remark,
    lines,
};

/// How many commands a script may have.
const MAX_COMMANDS: u32 = 10_000;

/// How many variables a script may declare, dropped ones included.
const MAX_VARIABLES: usize = 256;

/// How many subs a script may declare.
const MAX_SUBS: usize = 256;

fn empty_scope(alloc: Global) -> Scope
    ensures { result ≡ spec.empty_scope }
{
    Scope {
        variables: Items::new(alloc),
        dropped: Items::new(alloc),
        subs: Items::new(alloc),
        commands: 0,
    }
}

// Adds what a command declares to the scope.
fn enter(alloc: Global, scope: &mut Scope, command: &Command) -> Result<(), Memory>
    requires { scope.old.commands < spec.max_commands }
    ensures { OnOk result (scope.new ≡ spec.scope_after (command_view command.now) scope.old) }
{
    match command {
        Command::My(_, name, _) | Command::MyCall(_, name, _, _) => {
            scope.variables.push(name.copy(alloc)?)?;
        }
        Command::Drop(_, name) => scope.dropped.push(name.copy(alloc)?)?,
        Command::Sub(_, name, _) => scope.subs.push(name.copy(alloc)?)?,
        _ => {}
    }
    scope.commands += 1;
    Ok(())
}

// The variable or the sub of this command, if it was declared before.
fn twice<'a>(scope: &Scope, command: &'a Command) -> Option<&'a Bytes>
    ensures { option_copied result ≡ spec.twice scope.now (command_view command.now) }
{
    let (names, name) = match command {
        Command::My(_, name, _) | Command::MyCall(_, name, _, _) => (&scope.variables, name),
        Command::Sub(_, name, _) => (&scope.subs, name),
        _ => return None,
    };
    if is_among_names(names.as_slice(), name.as_slice()) {
        Some(name)
    } else {
        None
    }
}

fn is_full(scope: &Scope, command: &Command) -> bool
    ensures full { result ≡ spec.is_full scope.now (command_view command.now) }
    ensures room { result ≡ false → scope.now.commands < spec.max_commands }
{
    let is_over = match command {
        Command::My(_, _, _) | Command::MyCall(_, _, _, _) => {
            scope.variables.len() >= MAX_VARIABLES
        }
        Command::Sub(_, _, _) => scope.subs.len() >= MAX_SUBS,
        _ => false,
    };
    is_over || scope.commands >= MAX_COMMANDS
}

/// The fault of a line that has a reading: the one of the least code, and of these the leftmost.
#[tactic(auto, unfolding(crate::specs::Script::first_fault))]
fn first_fault(
    alloc: Global,
    scope: &Scope,
    line: u32,
    command: &Command,
    met: Met,
) -> Result<Option<Fault>, Memory>
    ensures exact { IfOk result (λ found. found
        ≡ spec.first_fault scope.now line (command_view command.now) met) }
    ensures room { IfOk result (λ found. IfNone found (scope.now.commands < spec.max_commands)) }
{
    let Met {
        unknown,
        beyond,
        deepest,
    } = met;
    if let Some(name) = unknown {
        return Ok(Some(Fault::new(FileOf::Script, line, UNKNOWN_VARIABLE, name)));
    }
    if let Some(name) = twice(scope, command) {
        return Ok(Some(Fault::new(
            FileOf::Script,
            line,
            NAMED_TWICE_IN_SCRIPT,
            name.copy(alloc)?,
        )));
    }
    if let Some(number) = beyond {
        return Ok(Some(Fault::new(FileOf::Script, line, NUMBER_OUT_OF_RANGE, number)));
    }
    if deepest > MAX_NESTING {
        return Ok(Some(Fault::bare(alloc, FileOf::Script, line, VALUE_TOO_DEEP)));
    }
    if is_full(scope, command) {
        return Ok(Some(Fault::bare(alloc, FileOf::Script, line, TOO_MANY_IN_SCRIPT)));
    }
    Ok(None)
}

/// Whether a line has no command: it is empty but for blanks, or a `#` stands after its blanks.
fn is_skipped(text: &[u8]) -> bool
    ensures { result ≡ spec.is_skipped text.now }
{
    is_blank_line(text) || is_remark(text)
}

/// The command of a line, if it has one, or its first fault.
#[tactic(auto, unfolding(crate::specs::Script::line_of, crate::specs::Script::reading_of))]
fn read_line(alloc: Global, scope: &Scope, line: &Line) -> Result<Option<Command>, Refuse>
    ensures exact { GivesBy (option_map command_view) result (spec.line_of scope.now line.now) }
    ensures room { IfOk result
        (λ found. IfSome found (λ _. scope.now.commands < spec.max_commands)) }
{
    if is_skipped(line.text.as_slice()) {
        return Ok(None);
    }
    let (found, met) = match reading(alloc, scope, line) {
        Ok(read) => read,
        Err(Stop::Unread) => {
            return Err(Refuse::Fault(Fault::bare(
                alloc,
                FileOf::Script,
                line.number,
                BAD_SCRIPT_LINE,
            )));
        }
        Err(Stop::Memory) => return Err(Refuse::Memory),
    };
    match first_fault(alloc, scope, line.number, &found, met)? {
        Some(f) => Err(Refuse::Fault(f)),
        None => Ok(Some(found)),
    }
}

// The command that a line reads as, and what was met in it.
#[tactic(auto, unfolding(crate::specs::Script::reading_of))]
fn reading(alloc: Global, scope: &Scope, line: &Line) -> Result<(Command, Met), Stop>
    ensures { spec.ReadsLine result (spec.reading_of scope.now line.now) }
{
    let parts = tokens(alloc, line.text.as_slice())?;
    let mut cursor = Cursor::new(parts.as_slice(), scope);
    let found = command(alloc, &mut cursor, line.number)?;
    Ok((found, cursor.into_met()))
}

fn commands(alloc: Global, src: &Bytes) -> Result<Vec<Command>, Refuse>
    requires { length src.now < 2 ^ 32 - 1 }
    ensures { GivesBy command_views result (spec.script_of src.now) }
{
    let all = lines(alloc, src)?;
    let mut scope = empty_scope(alloc);
    let mut out = Vec::new(alloc);
    for line in all.as_slice() {
        if let Some(found) = read_line(alloc, &scope, line)? {
            enter(alloc, &mut scope, &found)?;
            out.push(found)?;
        }
    }
    Ok(out)
}

/// The commands of a script, in their order, or the first fault of the first line that has one: 951
/// where a line has no reading, 952 where a variable is not declared or was dropped, 953 where a
/// variable or a sub is declared twice, 954 where a number is out of its range, 955 where brackets
/// nest deeper than 16, and 956 where there are more than 10,000 commands, 256 variables or 256
/// subs. Of several faults of a line the one of the least code is given, and of these the leftmost.
/// Empty lines and lines whose first byte after blanks is `#` have no command.
pub fn read_script(alloc: Global, src: &Bytes) -> Result<Vec<Command>, Refuse>
    requires { length src.now < 2 ^ 32 - 1 }

    // Which commands or which fault it is.
    ensures exact { GivesBy command_views result (spec.script_of src.now) }

    // The lines mean this by the rules of the grammar.
    ensures sound { Means result src.now }

    // What the lines mean by those rules is given, so that they mean one thing.
    ensures complete { (r : Result (List CommandView) Fault)
        → LinesMean spec.empty_scope (lines_of src.now) r → GivesBy command_views result r }
{
    commands(alloc, src)
}
