//! Where bytes are written.

ghost use Rattle.std.specs.Prelude.{◌≡◌, ◌+◌, ◌<◌, ◌≤◌, length, IfOk, OnErr, OnOk};
ghost use Rattle.std.specs.Io.KnownBytes.{WriteAppends};
ghost use Rattle.tenths.specs.Sink.{Held};

use thiserror::Error;

/// A write that failed.
#[derive(Clone, Copy, Debug, PartialEq, Eq, Error)]
#[error("a write failed")]
pub struct SinkFault;

/// Where bytes are written. Its meaning is the bytes taken so far, where the sink tells them, and
/// the number of writes that failed so far.
pub trait Sink {
    /// The bytes taken so far, where the sink tells them, and how many writes failed so far.
    ghost held: { Self → Held };

    /// Takes some bytes from the front, at least one where there is one, and says how many. A write
    /// that takes none of them fails; a failed write takes nothing.
    fn write(&mut self, bytes: &[u8]) -> Result<usize, SinkFault>
        ensures within { IfOk result (λ n. n ≤ length bytes.now) }
        ensures some { IfOk result (λ n. 0 < length bytes.now → 0 < n) }
        ensures bytes { WriteAppends (held self.old).taken (held self.new).taken result bytes.now }
        ensures fine { OnOk result ((held self.new).failures ≡ (held self.old).failures) }
        ensures failed { OnErr result ((held self.new).failures ≡ (held self.old).failures + 1) };
}
