//! Sinks that fail, and sinks that take little at a time.

ghost use Rattle.std.specs.Prelude.{◌+◌, Some};

use certificate::read;
use std::alloc::Global;
use std::rt::Runtime;
use std::sync::Wait;
use std::thread::Threads;
use std::{fs, io};
use tenths::{FailureCount, MemorySink, Sink, SinkFault};
use vrptw::{NoGate, Settings, SolveFault, solve};

/// A sink that takes a number of writes, and then fails. It may take one byte at a time.
#[derive(Drop)]
struct Tight {
    inner: MemorySink,
    left: usize,
    drips: bool,
    failed: FailureCount,
}

impl Tight {
    fn new(alloc: Global, left: usize, drips: bool) -> Tight {
        Tight {
            inner: MemorySink::new(alloc),
            left,
            drips,
            failed: FailureCount::none(),
        }
    }
}

impl Sink for Tight {
    ghost held = { λ s. record { taken = Some s.inner.0; failures = s.inner.1 + s.failed.count } };

    fn write(&mut self, bytes: &[u8]) -> Result<usize, SinkFault> {
        if self.left == 0 {
            self.failed = self.failed.and_one();
            return Err(SinkFault);
        }
        self.left -= 1;
        if self.drips && bytes.len() > 1 {
            return self.inner.write(&bytes[..1]);
        }
        self.inner.write(bytes)
    }
}

/// The solution of two customers on a line, with a vehicle for each.
const SOLUTION: &[u8] = b"Route #1: 2\nRoute #2: 1\nCost 30.0\n";

/// How their certificate begins, whatever the workers do.
const HEAD: &[u8] = b"VRPTW-CERT 2\nINSTANCE T\nCUSTOMERS 2\nNEIGHBOURS 8\n";

/// With this many writes both texts are whole.
const MANY_WRITES: usize = 200;

/// With this many neither is.
const FEW_WRITES: usize = 3;

/// Whether sinks of this many writes hold both texts in the end, or else what may stand where the first failed, or
/// else the second; none where they hold neither.
fn ends_whole<R: Runtime + AllocGlobal + Threads + Wait + Sync>(
    rt: &R,
    text: &[u8],
    is_first: bool,
    (first, second): (usize, usize),
    drips: bool,
) -> Option<bool> {
    let (alloc, settings) = (rt.alloc(), Settings::default());
    let mut first = Tight::new(alloc, first, drips);
    let mut second = Tight::new(alloc, second, drips);
    let answer = solve(rt, alloc, text, &settings, &NoGate, &mut first, &mut second);
    let (solution, certificate) = (first.inner.as_slice(), second.inner.as_slice());
    let is_certificate = read(alloc, certificate).is_ok();
    let (is_right, is_whole) = match answer {
        Ok(_) => {
            let begin = solution == SOLUTION && certificate.starts_with(HEAD);
            (begin && is_certificate, true)
        }
        Err(SolveFault::Device) if is_first => {
            let begins = SOLUTION.starts_with(solution) && solution.len() < SOLUTION.len();
            (begins && certificate.is_empty(), false)
        }
        Err(SolveFault::Device) => {
            let begins = HEAD.starts_with(certificate) || certificate.starts_with(HEAD);
            (solution == SOLUTION && begins && !is_certificate, false)
        }
        Err(_) => (false, false),
    };
    is_right.then_some(is_whole)
}

/// Whether a sink that fails at any write leaves what may stand there, and one that takes many writes
/// doesn't fail.
fn fails_well<R: Runtime + AllocGlobal + Threads + Wait + Sync>(
    rt: &R,
    text: &[u8],
    is_first: bool,
) -> bool {
    for left in 0..MANY_WRITES {
        let writes = if is_first {
            (left, usize::MAX)
        } else {
            (usize::MAX, left)
        };
        match ends_whole(rt, text, is_first, writes, false) {
            Some(false) => {}
            Some(true) => return left > FEW_WRITES,
            None => return false,
        }
    }
    false
}

/// Tells whether the first sink or the second, as a word says, or dripping ones, which take one byte at a time,
/// do as they should, where the instance of a file is solved.
pub(crate) fn tell_sinks<R: Runtime + AllocGlobal + Threads + Wait + Sync>(
    rt: &R,
    told: &mut String,
    which: &str,
    path: &str,
) -> io::Result<()> {
    let text = fs::read(rt, path)?;
    let text = text.as_slice();
    let is_right = match which {
        "dripping" => ends_whole(rt, text, true, (usize::MAX, usize::MAX), true) == Some(true),
        _ => fails_well(rt, text, which == "first"),
    };
    Ok(writeln!(told, "{}", if is_right { "holds" } else { "doesn't hold" })?)
}
