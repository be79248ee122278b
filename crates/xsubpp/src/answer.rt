//! What a run answers. It is whole in memory before the first write.
ghost use Rattle.std.specs.Prelude.{◌≡◌, [], IfOk, IsErr};
ghost use Rattle.xsubpp.specs.Answers.{name_of, unread};
ghost use Rattle.xsubpp.specs.Reads.{Finishes};
ghost use Rattle.xsubpp.specs.CommandLine.{command_view};

use crate::command_line::CommandWords;
use crate::fault_lines::{fault_line, file_line};
use crate::status::Status;
use std::alloc::Global;
use xs_base::fault_codes::FILE_TOO_LONG;
use xs_base::{Bytes, DeskFault, Fault, FileOf, Memory, Refuse};

/// A status, and what is written to each sink.
#[derive(Debug, Drop)]
pub struct Answer {
    pub status: Status,
    pub out: Bytes,
    pub err: Bytes,
}

/// The answer where a file was not read.
pub fn unread(alloc: Global, name: &Bytes, file: FileOf, fault: DeskFault) -> Result<Answer, Memory>
    ensures answer { IfOk result (λ a. a ≡ unread name.now file fault) }
    ensures memory { fault ≡ DeskFault.Memory → IsErr result }
{
    match fault {
        DeskFault::Missing => on_err(
            alloc,
            Status::Missing,
            file_line(alloc, name, b": missing")?,
        ),
        DeskFault::Failed => on_err(
            alloc,
            Status::ReadFault,
            file_line(alloc, name, b": read fault")?,
        ),
        DeskFault::Longer => {
            let fault = Fault::bare(alloc, file, 0, FILE_TOO_LONG);
            on_err(alloc, Status::Refused, fault_line(alloc, name, &fault)?)
        }
        DeskFault::Memory => Err(Memory),
    }
}

// An answer that writes on `err` alone.
fn on_err(alloc: Global, status: Status, err: Bytes) -> Result<Answer, Memory>
    ensures { IfOk result (λ a. a ≡ record { status = status; out = []; err = err }) }
{
    Ok(Answer {
        status,
        out: Bytes::new(alloc),
        err,
    })
}

/// The answer of a command's job: its text, or the first fault with the word that named its file.
pub fn done_or_refused(
    alloc: Global,
    command: CommandWords<'_>,
    job: Result<Bytes, Refuse>,
) -> Result<Answer, Memory>
    ensures { IfOk result (λ a. Finishes (command_view command.entry) job a) }
{
    match job {
        Ok(text) => Ok(Answer {
            status: Status::Done,
            out: text,
            err: Bytes::new(alloc),
        }),
        Err(Refuse::Fault(fault)) => {
            let name = name_of(command, fault.file);
            on_err(alloc, Status::Refused, fault_line(alloc, name, &fault)?)
        }
        Err(Refuse::Memory) => Err(Memory),
    }
}

/// The word that named a file.
pub fn name_of<'a>(command: CommandWords<'a>, file: FileOf) -> &'a Bytes
    ensures { result.now ≡ name_of (command_view command.entry) file }
{
    match command {
        CommandWords::Compile(xs) => xs,
        CommandWords::Call(xs, script) => match file {
            FileOf::Script => script,
            _ => xs,
        },
        CommandWords::Check(xs) => xs,
    }
}
