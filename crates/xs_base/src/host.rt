//! The edges of the program: the files of the system, and std's writers.
ghost use Rattle.std.specs.Prelude.{◌≡◌, ◌≤◌, length, None, IfOk};

use crate::{Bytes, Desk, DeskFault, Sink, SinkFault};
use std::alloc::Global;
use std::io::{ErrorKind, Read, Write};
use std::rt::Files;
use std::{fs, str};

/// The files of the system, by their names as text. It does not report what it holds, and counts
/// each error of a read but for a missing file.
#[derive(Drop)]
pub struct HostDesk<'r, R: Files> {
    rt: &'r R,
    alloc: Global,
    failed: u64,
}

impl<'r, R: Files> HostDesk<'r, R> {
    /// The files of the system, read by the runtime. No read has failed yet.
    pub fn new(rt: &'r R, alloc: Global) -> HostDesk<'r, R>
        ensures count { ⟦<HostDesk<'r, R> as Desk>⟧.fault_count result ≡ 0 }
        ensures reported { ⟦<HostDesk<'r, R> as Desk>⟧.files result ≡ None }
    {
        HostDesk {
            rt,
            alloc,
            failed: 0,
        }
    }
}

// The bytes of a file, where there are no more of them than the limit.
fn read_file<R: Files>(rt: &R, alloc: Global, name: &[u8], limit: u32) -> Result<Bytes, DeskFault>
    ensures { IfOk result (λ bytes. length bytes ≤ limit) }
{
    let Ok(path) = str::from_utf8(name) else {
        return Err(DeskFault::Failed);
    };
    match fs::open(rt, path) {
        Ok(mut file) => read_all(alloc, &mut file, limit),
        Err(e) if e.kind() == ErrorKind::NotFound => Err(DeskFault::Missing),
        Err(_) => Err(DeskFault::Failed),
    }
}

// What a reader gives until its end.
fn read_all<F: Read>(alloc: Global, file: &mut F, limit: u32) -> Result<Bytes, DeskFault>
    ensures { IfOk result (λ bytes. length bytes ≤ limit) }
{
    let mut bytes = Bytes::new(alloc);
    let mut buf = [0u8; 4096];
    for _ in 0..u64::MAX {
        let Ok(n) = file.read(&mut buf) else {
            return Err(DeskFault::Failed);
        };
        if n == 0 {
            return Ok(bytes);
        }
        if n > limit as usize - bytes.len() {
            return Err(DeskFault::Longer);
        }
        if bytes.append(&buf[..n]).is_err() {
            return Err(DeskFault::Memory);
        }
    }
    Err(DeskFault::Failed)
}

impl<'r, R: Files> Desk for HostDesk<'r, R> {
    ghost files = { λ _. None };

    ghost fault_count = { λ d. d.failed };

    fn read(&mut self, name: &Bytes, limit: u32) -> Result<Bytes, DeskFault> {
        let answer = read_file(self.rt, self.alloc, name.as_slice(), limit);
        if let Err(DeskFault::Failed) = &answer {
            self.failed = self.failed.saturating_add(1);
        }
        answer
    }

    fn faults(&self) -> u64 {
        self.failed
    }
}

/// One of std's writers. It does not report what was written, and counts each error and each write
/// of no bytes.
#[derive(Drop)]
pub struct HostSink<W: Write + Drop> {
    writer: W,
    failed: u64,
}

impl<W: Write + Drop> HostSink<W> {
    /// A sink over a writer of the system. No write has failed yet.
    pub fn new(writer: W) -> HostSink<W>
        ensures count { ⟦<HostSink<W> as Sink>⟧.fault_count result ≡ 0 }
        ensures reported { ⟦<HostSink<W> as Sink>⟧.written result ≡ None }
    {
        HostSink { writer, failed: 0 }
    }
}

impl<W: Write + Drop> Sink for HostSink<W> {
    ghost written = { λ _. None };

    ghost fault_count = { λ s. s.failed };

    fn write(&mut self, piece: &[u8]) -> Result<usize, SinkFault> {
        match self.writer.write(piece) {
            Ok(n) if n > 0 => Ok(n),
            _ => {
                self.failed = self.failed.saturating_add(1);
                Err(SinkFault::Failed)
            }
        }
    }

    fn faults(&self) -> u64 {
        self.failed
    }
}
