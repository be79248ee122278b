//! The files of a command are read, and its job is done.
ghost use Rattle.std.specs.Prelude.{◌≤◌, ◌-◌, ◌^◌, ◌<◌, IfOk, length};
ghost use Rattle.xs_base.specs.Reading.{Gives};
ghost use Rattle.xsubpp.specs.Answers.{accepted_of};
ghost use Rattle.xsubpp.specs.Reads.{IsAnswerOf, IsByReads};
ghost use Rattle.xsubpp.specs.CommandLine.{command_view};

use crate::FILE_LIMIT;
use crate::answer::{Answer, done_or_refused, name_of, unread};
use crate::command_line::CommandWords;
use std::alloc::Global;
use xs_base::{Bytes, Desk, FileOf, Memory, Refuse};

/// Reads the files of a command in the order of its words, and does its job.
pub fn answer_to<D: Desk>(
    alloc: Global,
    desk: &mut D,
    command: CommandWords<'_>,
) -> Result<Answer, Memory>
    ensures later { D.fault_count desk.old ≤ D.fault_count desk.new }
    ensures reported { IfOk result (λ a. IsAnswerOf (D.files desk.old) (command_view command.entry)
        (D.fault_count desk.old) (D.fault_count desk.new) a) }
    ensures reads { IfOk result (λ a. IsByReads (command_view command.entry) a) }
{
    let name = name_of(command, FileOf::Xs);
    let xs = match desk.read(name, FILE_LIMIT) {
        Ok(bytes) => bytes,
        Err(fault) => return unread(alloc, name, FileOf::Xs, fault),
    };
    match command {
        CommandWords::Compile(_file) => {
            done_or_refused(alloc, command, xs_call::compile(alloc, &xs))
        }
        CommandWords::Call(_file, script) => {
            let commands = match desk.read(script, FILE_LIMIT) {
                Ok(bytes) => bytes,
                Err(fault) => return unread(alloc, script, FileOf::Script, fault),
            };
            done_or_refused(alloc, command, xs_call::call(alloc, &xs, &commands))
        }
        CommandWords::Check(_file) => done_or_refused(alloc, command, accept(alloc, &xs)),
    }
}

// What `check` writes of a file that is accepted.
fn accept(alloc: Global, xs: &Bytes) -> Result<Bytes, Refuse>
    requires { length xs.now < 2 ^ 32 - 1 }
    ensures { Gives result (accepted_of xs.now) }
{
    xs_call::check(alloc, xs)?;
    let text = Bytes::from_slice(alloc, b"accepted\n")?;
    Ok(text)
}
