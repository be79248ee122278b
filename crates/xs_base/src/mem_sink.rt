//! A sink in memory, for tests. It reports what was written, and fails at the writes that are
//! listed and where its room is full.
ghost use Rattle.std.specs.Prelude.{◌≡◌, ◌++◌, ◌∷◌, [], ◌≤◌, ◌<◌, length, take, IfOk, OnErr, OnOk, Some};
ghost use Rattle.xs_base.specs.InMemory.{after_write, failing_at, mem_write, no_failures};
ghost use Rattle.xs_base.specs.Sinks.{WriteCause, appended};

use crate::failures::Failures;
use crate::{Memory, Sink, SinkFault};
use std::alloc::Global;
use std::marker::Model;

/// A sink in memory. Its whole room is allocated when it is made, so that no write needs memory.
#[derive(Debug, Drop)]
pub struct MemSink {
    written: Vec<u8>,
    per_write: u32,
    room: u32,
    failures: Failures,
}

impl Model for MemSink {
    ghost use Rattle.std.specs.Prelude.{length, ◌≤◌, ◌<◌};
    ghost use Rattle.std.specs.Vec.{vec_capacity};
    ghost use Rattle.xs_base.specs.InMemory.{MemBytes};

    ghost Value = { MemBytes };

    ghost view = { λ s. record {
      written = s.written.items;
      per_write = s.per_write;
      room = s.room;
      failures = s.failures;
    } };

    ghost invariant = { λ s. (0 < s.per_write) × (length s.written.items ≤ s.room)
        × (s.room ≤ vec_capacity s.written) };
}

impl MemSink {
    /// A sink that accepts at most `per_write` bytes in a write, and `room` bytes in all.
    pub fn new(alloc: Global, per_write: u32, room: u32) -> Result<MemSink, Memory>
        requires { 0 < per_write }
        ensures { IfOk result (λ s. s
            ≡ record { written = []; per_write = per_write; room = room; failures = no_failures }) }
    {
        let written = Vec::with_capacity(alloc, room as usize)?;
        Ok(MemSink {
            written,
            per_write,
            room,
            failures: Failures::new(alloc),
        })
    }

    /// Makes the write of this number fail. Writes are counted from 1.
    pub fn fail_at(&mut self, call: u64) -> Result<(), Memory>
        ensures ok { OnOk result (self.new
            ≡ record self.old { failures = failing_at call self.old.failures }) }
        ensures err { OnErr result (self.new ≡ self.old) }
    {
        self.failures.add(call)
    }

    /// The bytes that were written.
    pub fn bytes(&self) -> &[u8]
        ensures { result.now ≡ self.now.written }
    {
        self.written.as_slice()
    }
}

impl Sink for MemSink {
    ghost written = { λ s. Some s.written };

    ghost fault_count = { λ s. s.failures.failed };

    fn write(&mut self, piece: &[u8]) -> Result<usize, SinkFault>
        requires { 0 < length piece.now }
        ensures some { IfOk result (λ n. 0 < n) }
        ensures within { IfOk result (λ n. n ≤ length piece.now) }
        ensures accepted { IfOk result (λ n. Some self.new.written
            ≡ appended (Some self.old.written) (take n piece.now)) }
        ensures failed { OnErr result (Some self.new.written ≡ Some self.old.written) }
        ensures cause { WriteCause self.old.failures.failed self.new.failures.failed result }
        ensures exact { result ≡ mem_write self.old piece.now }
        ensures after { self.new ≡ after_write self.old piece.now }
    {
        let left = self.room as usize - self.written.len();
        if self.failures.next(left == 0) {
            return Err(SinkFault::Failed);
        }
        let n = (self.per_write as usize).min(piece.len()).min(left);
        self.written.extend_from_slice(&piece[..n]).unwrap();
        Ok(n)
    }

    fn faults(&self) -> u64 {
        self.failures.count()
    }
}
