//! The program `vrptw`.
#![tactic(auto)]

use std::alloc::Global;
use std::process::ExitCode;
use std::rt::{Env, Files};
use std::sync::Wait;
use std::thread::Threads;
use std::{env, fs, io};
use tenths::{Sink, StdSink};
use vrptw::{run_words, words_fault};

/// Runs the program with the words after its name.
fn run<R: Env + Eprint + Files + AllocGlobal + Threads + Wait + Sync, X: Sink, Y: Sink>(
    rt: &R,
    alloc: Global,
    out: &mut X,
    errors: &mut Y,
) -> io::Result<u8>
where
    R::File: Send,
{
    let given: Vec<String> = env::args(rt)?.skip(1).collect(alloc)?;
    let mut words = Vec::new(alloc);
    for word in &given {
        words.push(word.as_str())?;
    }
    Ok(run_words(rt, alloc, words.as_slice(), out, errors))
}

/// Opens a file that is only read. Where a standard stream is closed, it takes its place: a file that is
/// made later would else take it, and the line of the run be written behind its text.
fn hold_stream<R: Files>(rt: &R) -> io::Result<R::File> {
    fs::open(rt, "/dev/null")
}

fn main(rt: HostRuntime) -> ExitCode {
    let _held = (hold_stream(&rt), hold_stream(&rt), hold_stream(&rt));
    let mut out = StdSink::new(rt.stdout());
    let mut errors = StdSink::new(rt.stderr());
    let status = match run(&rt, rt.alloc(), &mut out, &mut errors) {
        Ok(status) => status,
        Err(error) => words_fault(rt.alloc(), &error, &mut errors),
    };
    ExitCode::from(status)
}
