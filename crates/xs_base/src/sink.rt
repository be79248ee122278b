//! Where text goes to.
ghost use Rattle.std.specs.Prelude.{◌≡◌, ◌<◌, ◌≤◌, IfOk, List, OnErr, OnOk, Option, length, take, ℕ};
ghost use Rattle.xs_base.specs.Sinks.{AppendsPrefix, WriteCause, appended};

use thiserror::Error;

/// Why a write gave nothing out.
#[derive(Clone, Copy, Debug, PartialEq, Eq, Error)]
pub enum SinkFault {
    #[error("the text could not be written")]
    Failed,
}

/// A place that bytes are written to. It may report which bytes were written.
pub trait Sink {
    /// The bytes that were written, where it reports them.
    ghost written: { Self → Option (List ℕ) };

    /// How many writes have failed so far. The count stops at 2^64 - 1.
    ghost fault_count: { Self → ℕ };

    /// Writes bytes from the front of the piece, one at least, and gives how many.
    fn write(&mut self, piece: &[u8]) -> Result<usize, SinkFault>
        requires { 0 < length piece.now }
        ensures some { IfOk result (λ n. 0 < n) }
        ensures within { IfOk result (λ n. n ≤ length piece.now) }
        ensures accepted { IfOk result (λ n. written self.new
            ≡ appended (written self.old) (take n piece.now)) }
        ensures failed { OnErr result (written self.new ≡ written self.old) }
        ensures cause { WriteCause (fault_count self.old) (fault_count self.new) result };

    /// The count of failed writes.
    fn faults(&self) -> u64
        ensures { result ≡ fault_count self.now };
}

/// Writes all the bytes, in as many writes as the sink needs. Where a write fails a prefix of them
/// is out. This allocates nothing.
pub fn put_all<S: Sink>(sink: &mut S, bytes: &[u8]) -> Result<(), SinkFault>
    ensures ok { OnOk result (S.written sink.new ≡ appended (S.written sink.old) bytes.now) }
    ensures err { OnErr result (AppendsPrefix (S.written sink.old) (S.written sink.new) bytes.now) }
    ensures cause { WriteCause (S.fault_count sink.old) (S.fault_count sink.new) result }
{
    let mut at = 0;
    while at < bytes.len() {
        at += sink.write(&bytes[at..])?;
    }
    Ok(())
}
