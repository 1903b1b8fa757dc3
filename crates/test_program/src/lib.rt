//! Rows of the solver and of the program: the calls of a script, each with its outcome below it on lines that
//! begin with two blanks. A line without words, or one that begins with `#`, is no call. In texts a bar stands
//! for a line feed and a tilde for the byte 1.
//!
//! - `file NAME FLEET CAPACITY LINES` writes an instance, `text NAME TEXT` another text, `returns NAME TEXT` one
//!   in which a tilde stands for a carriage return, all without an outcome, and `show NAME` tells a file's text;
//! - `run WORDS` runs the program, and tells its status and both streams; `streams WORDS` says only whether
//!   a stream is empty;
//! - `solve NAME OPTIONS` solves an instance and checks what was written: the line printed depends on how
//!   far the bound came, so that it is held against the cost and the bound written;
//! - `bound NAME` tells a certificate's bound and leaves, of which `bound NAME MOST` says only that they
//!   are MOST or fewer;
//! - `library NAME OPTION NUMBER` calls the library with one setting, or with the most `leaves` to close;
//! - `job WORDS` tells what the words ask for;
//! - `unheard KIND` tells what is said where the words can't be had;
//! - `sinks WHICH NAME` tries sinks that fail or take little;
//! - `held NAME WORKER` solves an instance while one of four workers is held at each of seven points of its turns,
//!   until the others have ended theirs, and tells the costs that the checker accepts;
//! - `meeting NAME` solves an instance while two workers wait for each other.
#![tactic(auto)]

mod answers;
mod bounds;
mod gates;
mod jobs;
mod library;
mod runs;
mod sinks;
mod texts;

use crate::answers::tell_solving;
use crate::bounds::tell_bound;
use crate::gates::{tell_held, tell_lending, tell_meeting};
use crate::jobs::tell_job;
use crate::library::tell_library;
use crate::runs::{run, tell_printed, tell_unheard};
use crate::sinks::tell_sinks;
use crate::texts::{LOW, tell_file, write_file, write_text_meant};
use std::io;
use std::rt::Runtime;
use std::sync::Wait;
use std::thread::Threads;
use test_starts::Rows;

/// Does what a call asks for, if it is understood.
fn obey<R: Runtime + AllocGlobal + Threads + Wait + Sync>(
    rt: &R,
    told: &mut String,
    line: &str,
    words: &[&str],
) -> io::Result<()>
where
    R::File: Send,
{
    match words {
        ["file", path, fleet, capacity, ..] => write_file(rt, line, [path, fleet, capacity]),
        ["text", path, ..] => write_text_meant(rt, line, path, LOW),
        ["returns", path, ..] => write_text_meant(rt, line, path, b'\r'),
        ["show", path] => tell_file(rt, told, path),
        ["bound", path] => tell_bound(rt, told, path, 0),
        ["bound", path, most] => tell_bound(rt, told, path, most.parse().unwrap_or(0)),
        ["job", rest @ ..] => Ok(tell_job(rt.alloc(), told, rest)?),
        ["unheard", kind] => tell_unheard(rt, told, kind),
        ["run", rest @ ..] => tell_printed(told, &run(rt, rest), true),
        ["streams", rest @ ..] => tell_printed(told, &run(rt, rest), false),
        ["solve", path, options @ ..] => tell_solving(rt, told, path, options),
        ["library", path, option, number] => tell_library(rt, told, [path, option, number]),
        ["sinks", which, path] => tell_sinks(rt, told, which, path),
        ["held", path, worker @ ("0" | "1" | "2" | "3")] => tell_held(
            rt,
            told,
            path,
            worker.parse().unwrap_or(0),
        ),
        ["meeting", path] => tell_meeting(rt, told, path),
        ["lending", path] => tell_lending(rt, told, path),
        _ => Ok(writeln!(told, "not understood")?),
    }
}

/// Makes the calls of a script, and prints the rows that don't hold and how many do. Files are written into the
/// folder that the program runs in. No contract: it only prints.
pub fn tell_rows<R: Runtime + AllocGlobal + Threads + Wait + Sync>(
    rt: &R,
    script: &str,
) -> io::Result<()>
where
    R::File: Send,
{
    let mut rows = Rows::new(rt.alloc());
    for line in script.lines() {
        if rows.take(rt, line)? {
            let words: Vec<&str> = line.split_whitespace().collect(rt.alloc())?;
            obey(rt, &mut rows.told, line, words.as_slice())?;
        }
    }
    rows.end(rt, "test_program")
}
