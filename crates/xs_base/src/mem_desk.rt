//! A desk in memory, for tests. It reports what it holds, and fails at the reads that are listed.
ghost use Rattle.std.specs.Option.{ForSome, option_copied};
ghost use Rattle.std.specs.Prelude.{◌≡◌, ◌≢◌, ◌≤◌, ◌∷◌, [], IfOk, OnErr, OnOk, Some, length};
ghost use Rattle.xs_base.specs.Desks.{ReadCause, Reads};
ghost use Rattle.xs_base.specs.InMemory.{after_read, failing_at, held, mem_read, no_failures};

use crate::failures::Failures;
use crate::{Bytes, Desk, DeskFault, Memory};
use std::alloc::Global;
use std::marker::Model;

/// A file that a desk in memory holds.
#[derive(Debug, Drop)]
pub struct HeldFile {
    pub name: Bytes,
    pub bytes: Bytes,
}

/// A desk in memory.
#[derive(Debug, Drop)]
pub struct MemDesk {
    alloc: Global,
    /// The file that was added last comes first, and hides an older one of its name.
    held: Vec<HeldFile>,
    failures: Failures,
}

impl Model for MemDesk {
    ghost use Rattle.xs_base.specs.InMemory.{MemFiles};

    ghost Value = { MemFiles };

    ghost view = { λ d. record { held_files = d.held.items; failures = d.failures } };
}

impl MemDesk {
    /// A desk without files.
    pub fn new(alloc: Global) -> MemDesk
        ensures { result ≡ record { held_files = []; failures = no_failures } }
    {
        MemDesk {
            alloc,
            held: Vec::new(alloc),
            failures: Failures::new(alloc),
        }
    }

    /// Puts a file onto the desk, in front of one of the same name, which is hidden by it.
    pub fn add(&mut self, name: Bytes, bytes: Bytes) -> Result<(), Memory>
        ensures ok { OnOk result (self.new
            ≡ record self.old {
              held_files = record { name = name; bytes = bytes }
                  ∷ self.old.held_files;
            }) }
        ensures err { OnErr result (self.new ≡ self.old) }
    {
        self.held.insert(0, HeldFile { name, bytes })?;
        Ok(())
    }

    /// Makes the read of this number fail. Reads are counted from 1.
    pub fn fail_at(&mut self, call: u64) -> Result<(), Memory>
        ensures ok { OnOk result (self.new
            ≡ record self.old { failures = failing_at call self.old.failures }) }
        ensures err { OnErr result (self.new ≡ self.old) }
    {
        self.failures.add(call)
    }
}

// The bytes of the file of a name.
fn find<'a>(files: &'a [HeldFile], name: &Bytes) -> Option<&'a Bytes>
    ensures { option_copied result ≡ held files.now name.now }
{
    for file in files {
        if file.name == *name {
            return Some(&file.bytes);
        }
    }
    None
}

impl Desk for MemDesk {
    ghost files = { λ d. Some (held d.held_files) };

    ghost fault_count = { λ d. d.failures.failed };

    fn read(&mut self, name: &Bytes, limit: u32) -> Result<Bytes, DeskFault>
        ensures bound { IfOk result (λ bytes. length bytes ≤ limit) }
        ensures reported { ForSome (Some (held self.old.held_files))
            (λ files. Reads (files name.now) limit result) }
        ensures same { Some (held self.new.held_files) ≡ Some (held self.old.held_files) }
        ensures cause { ReadCause self.old.failures.failed self.new.failures.failed result }
        // It fails at the listed calls alone.
        ensures exact { result ≢ Err DeskFault.Memory → result ≡ mem_read self.old name.now limit }
        ensures after { self.new ≡ after_read self.old }
    {
        if self.failures.next(false) {
            return Err(DeskFault::Failed);
        }
        let bytes = find(&self.held, name).ok_or(DeskFault::Missing)?;
        if bytes.len() > limit as usize {
            return Err(DeskFault::Longer);
        }
        bytes.copy(self.alloc).map_err(|_| DeskFault::Memory)
    }

    fn faults(&self) -> u64 {
        self.failures.count()
    }
}
