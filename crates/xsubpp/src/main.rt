//! The program. Its words, files and streams come from the system; all else is `xsubpp`.
#![tactic(auto)]

mod answer;
mod command_line;
#[cfg(test)]
mod examples;
mod fault_lines;
mod file_reading;
mod status;
#[cfg(test)]
mod tests;
mod top;
#[cfg(test)]
mod wide_examples;

pub use status::Status;
use std::process::ExitCode;
use std::rt::Env;
use std::{env, io};
pub use top::{FILE_LIMIT, USAGE, xsubpp};
use xs_base::{Bytes, HostDesk, HostSink, Memory};

fn main(rt: HostRuntime) -> ExitCode {
    let Ok(words) = words_of(&rt) else {
        return ExitCode::from(Status::Memory.number());
    };
    let mut desk = HostDesk::new(&rt, rt.alloc());
    let mut out = HostSink::new(rt.stdout());
    let mut err = HostSink::new(rt.stderr());
    let status = xsubpp(rt.alloc(), words.as_slice(), &mut desk, &mut out, &mut err);
    ExitCode::from(status.number())
}

// The words after the program's name. A word that is no text makes the whole list no command, so
// then there are none.
fn words_of<R: Env + AllocGlobal>(rt: &R) -> Result<Vec<Bytes>, Memory> {
    let mut words = Vec::new(rt.alloc());
    match env::args(rt) {
        Ok(all) => {
            for word in all.skip(1) {
                words.push(Bytes::from_slice(rt.alloc(), word.as_bytes())?)?;
            }
            Ok(words)
        }
        Err(e) if e.kind() == io::ErrorKind::OutOfMemory => Err(Memory),
        Err(_) => Ok(words),
    }
}
