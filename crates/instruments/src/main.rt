//! Calls and texts for the judges of `outside/`, and measures for `bench/`. Words: `turns` with an instance's file
//! and the number of turns, or `times` where their times are to be printed, too; `closing` with an instance's file
//! and the number of neighbours; `echo` with `certificate` or `solution` and a file; `call` with the names of
//! calls. More such words may follow, but behind `call` all are names. The status is 1 where the words or the
//! files are not such, or memory was refused.
#![tactic(auto)]

mod calls;
mod echoes;
mod given;
mod measures;
mod starts;

use crate::calls::tell_calls;
use crate::echoes::tell_echo;
use crate::measures::tell_measure;
use crate::starts::{Host, WRONG};
use std::sync::Wait;
use std::thread::Threads;
use std::{env, io};

/// Prints what a mode and the two words behind it ask for.
fn tell<R: Host + Threads>(rt: &R, mode: &str, first: &str, second: &str) -> io::Result<()> {
    match mode {
        "echo" => tell_echo(rt, first, second),
        _ => tell_measure(rt, mode, first, second),
    }
}

/// Prints what all the words ask for.
fn tell_all<R: Host + Threads + Wait>(rt: &R, words: &[&str]) -> io::Result<()> {
    let mut rest = words;
    for _ in words {
        match rest {
            [] => return Ok(()),
            ["call", names @ ..] => return tell_calls(rt, names),
            [mode, first, second, behind @ ..] => {
                tell(rt, mode, first, second)?;
                rest = behind;
            }
            _ => return Err(io::Error::from(WRONG)),
        }
    }
    Ok(())
}

/// Prints what the program's words ask for.
fn tell_words<R: Host + Threads + Wait>(rt: &R, words: &[String]) -> io::Result<()> {
    let words: Vec<&str> = words.iter().map(|word| word.as_str()).collect(rt.alloc())?;
    if words.is_empty() {
        return Err(io::Error::from(WRONG));
    }
    tell_all(rt, words.as_slice())
}

fn main(rt: HostRuntime) -> io::Result<()> {
    let words: Vec<String> = env::args(&rt)?.skip(1).collect(rt.alloc())?;
    tell_words(&rt, words.as_slice())
}
