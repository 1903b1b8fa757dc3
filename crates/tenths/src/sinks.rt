//! A sink in memory, and one over a writer of the standard library.

ghost use Rattle.std.specs.Prelude.{◌≡◌, ◌+◌, [], Some};

use crate::failure_count::FailureCount;
use crate::sink::{Sink, SinkFault};
use std::alloc::Global;
use std::io::Write;
use std::marker::Model;

/// A sink that keeps the bytes that it takes. Contracts see them, and the number of failures.
#[derive(Drop)]
pub struct MemorySink {
    bytes: Vec<u8>,
    failed: FailureCount,
}

impl Model for MemorySink {
    ghost use Rattle.std.specs.Prelude.{ℕ, List};

    ghost Value = { List ℕ × ℕ };

    ghost view = { λ s. (s.bytes.items, s.failed.count) };
}

impl MemorySink {
    /// A sink that has taken nothing.
    pub fn new(alloc: Global) -> MemorySink
        ensures { result ≡ ([], 0) }
    {
        MemorySink {
            bytes: Vec::new(alloc),
            failed: FailureCount::none(),
        }
    }

    /// The bytes taken so far.
    pub fn as_slice(&self) -> &[u8]
        ensures { result.now ≡ self.now.0 }
    {
        self.bytes.as_slice()
    }
}

impl Sink for MemorySink {
    ghost held = { λ s. record { taken = Some s.0; failures = s.1 } };

    /// Refused where memory is.
    fn write(&mut self, bytes: &[u8]) -> Result<usize, SinkFault> {
        if self.bytes.extend_from_slice(bytes).is_err() {
            self.failed = self.failed.and_one();
            return Err(SinkFault);
        }
        Ok(bytes.len())
    }
}

/// A sink over a writer of the standard library. Contracts see the writer, and the number of failures.
#[derive(Drop)]
pub struct StdSink<W: Write> {
    inner: W,
    failed: FailureCount,
}

impl<W: Write> Model for StdSink<W> {
    ghost use Rattle.std.specs.Prelude.{ℕ};

    ghost Value = { W × ℕ };

    ghost view = { λ s. (s.inner, s.failed.count) };
}

impl<W: Write> StdSink<W> {
    /// A sink over this writer, without failures so far.
    pub fn new(inner: W) -> StdSink<W>
        ensures { result ≡ (inner, 0) }
    {
        StdSink {
            inner,
            failed: FailureCount::none(),
        }
    }
}

impl<W: Write> Sink for StdSink<W> {
    ghost held = { λ s. record { taken = W.contents s.0; failures = s.1 } };

    fn write(&mut self, bytes: &[u8]) -> Result<usize, SinkFault> {
        match self.inner.write(bytes) {
            Ok(count) if 0 < count || bytes.is_empty() => Ok(count),
            _ => {
                self.failed = self.failed.and_one();
                Err(SinkFault)
            }
        }
    }
}
