//! The rows of the gate: makes the calls of scripts, and compares what comes of each with what stands below it.
//! Words: `program` with the file of a script of solver and program, `library` with that of one of the library, or
//! first the one and then the other. Files are written where it runs. The status is 1 where the words or the files
//! are not such, or memory was refused.
#![tactic(auto)]

use std::rt::Runtime;
use std::sync::Wait;
use std::thread::Threads;
use std::{env, fs, io};

/// Makes the calls of a script of solver and program.
fn tell_program<R: Runtime + AllocGlobal + Threads + Wait + Sync>(
    rt: &R,
    path: &str,
) -> io::Result<()>
where
    R::File: Send,
{
    test_program::tell_rows(rt, fs::read_to_string(rt, path)?.as_str())
}

/// Makes the calls of a script of the library.
fn tell_library<R: Runtime + AllocGlobal + Threads + Wait + Sync>(
    rt: &R,
    path: &str,
) -> io::Result<()> {
    test_library::tell_rows(rt, fs::read_to_string(rt, path)?.as_str())
}

fn main(rt: HostRuntime) -> io::Result<()> {
    let words: Vec<String> = env::args(&rt)?.skip(1).collect(rt.alloc())?;
    let words: Vec<&str> = words.iter().map(|word| word.as_str()).collect(rt.alloc())?;
    match words.as_slice() {
        ["program", path] => tell_program(&rt, path),
        ["library", path] => tell_library(&rt, path),
        ["program", first, "library", second] => {
            tell_program(&rt, first)?;
            tell_library(&rt, second)
        }
        _ => Err(io::Error::from(io::ErrorKind::InvalidInput)),
    }
}
