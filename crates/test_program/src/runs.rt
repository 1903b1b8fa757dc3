//! Runs of the program.

use crate::texts::tell_text;
use std::io;
use std::rt::Runtime;
use std::sync::Wait;
use std::thread::Threads;
use tenths::{Lines, MemorySink};
use vrptw::{run_words, words_fault};

/// What a run prints, and the status that it ends with.
#[derive(Drop)]
pub(crate) struct Printed {
    pub(crate) out: MemorySink,
    pub(crate) errors: MemorySink,
    pub(crate) status: u8,
}

/// Runs the program with these words.
pub(crate) fn run<R: Runtime + AllocGlobal + Threads + Wait + Sync>(
    rt: &R,
    words: &[&str],
) -> Printed
where
    R::File: Send,
{
    let mut out = MemorySink::new(rt.alloc());
    let mut errors = MemorySink::new(rt.alloc());
    let status = run_words(rt, rt.alloc(), words, &mut out, &mut errors);
    Printed {
        out,
        errors,
        status,
    }
}

/// Tells the status of a run and both streams, or of these only whether they stayed empty.
pub(crate) fn tell_printed(told: &mut String, printed: &Printed, is_whole: bool) -> io::Result<()> {
    writeln!(told, "status {}", printed.status)?;
    for (name, sink) in [("out", &printed.out), ("errors", &printed.errors)] {
        let text = sink.as_slice();
        let is_shown = is_whole || text.is_empty();
        tell_text(told, name, if is_shown { text } else { b"written" })?;
    }
    Ok(())
}

/// Tells the status where the words can't be had for a fault of this kind, and how what is said begins.
pub(crate) fn tell_unheard<R: AllocGlobal>(
    rt: &R,
    told: &mut String,
    word: &str,
) -> io::Result<()> {
    let kind = match word {
        "InvalidData" => io::ErrorKind::InvalidData,
        "OutOfMemory" => io::ErrorKind::OutOfMemory,
        _ => io::ErrorKind::Other,
    };
    let mut errors = MemorySink::new(rt.alloc());
    let status = words_fault(rt.alloc(), &io::Error::from(kind), &mut errors);
    writeln!(told, "status {status}")?;
    let mut lines = Lines::new(errors.as_slice());
    tell_text(told, "errors begin", lines.next().unwrap_or(b""))
}
