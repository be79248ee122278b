//! Where files come from.
ghost use Rattle.std.specs.Option.{ForSome};
ghost use Rattle.std.specs.Prelude.{◌≡◌, ◌≤◌, IfOk, Option, length, ℕ};
ghost use Rattle.xs_base.specs.Desks.{Files, ReadCause, Reads};

use crate::Bytes;
use thiserror::Error;

/// Why a file was not read.
#[derive(Clone, Copy, Debug, PartialEq, Eq, Error)]
pub enum DeskFault {
    /// There is no file of this name.
    #[error("no such file")]
    Missing,
    /// The file has more bytes than the limit.
    #[error("the file is too long")]
    Longer,
    /// The reading itself failed.
    #[error("the file could not be read")]
    Failed,
    #[error("no memory for the file")]
    Memory,
}

/// A place that files are read from. It may report what it holds, and then the answer to each read
/// is known.
pub trait Desk {
    /// What it holds, where it reports that. No call changes this.
    ghost files: { Self → Option Files };

    /// How many reads have failed so far. The count stops at 2^64 - 1.
    ghost fault_count: { Self → ℕ };

    /// The bytes of the file of this name, where there are no more of them than `limit`.
    fn read(&mut self, name: &Bytes, limit: u32) -> Result<Bytes, DeskFault>
        ensures bound { IfOk result (λ bytes. length bytes ≤ limit) }
        ensures reported { ForSome (files self.old) (λ held. Reads (held name.now) limit result) }
        ensures same { files self.new ≡ files self.old }
        ensures cause { ReadCause (fault_count self.old) (fault_count self.new) result };

    /// The count of failed reads.
    fn faults(&self) -> u64
        ensures { result ≡ fault_count self.now };
}
