//! A certificate or a solution, read and written again.

use crate::starts::{Host, WRONG, made};
use std::fmt::Display;
use std::{fs, io, str};
use tenths::MemorySink;

/// Prints why a text can't be read.
fn refuse<R: Host, E: Display>(rt: &R, fault: &E) -> io::Result<()> {
    println!(rt; "{fault}")?;
    Err(io::Error::from(WRONG))
}

/// Writes a solution again, or else prints why its text can't be read.
fn echo_solution<R: Host>(rt: &R, text: &[u8], again: &mut MemorySink) -> io::Result<()> {
    match sol_writer::read(rt.alloc(), text) {
        Ok(sol) => made(sol_writer::write(&sol.routes, sol.cost, again).ok()),
        Err(fault) => refuse(rt, &fault),
    }
}

/// Writes a certificate again, or else prints why its text can't be read.
fn echo_certificate<R: Host>(rt: &R, text: &[u8], again: &mut MemorySink) -> io::Result<()> {
    match certificate::read(rt.alloc(), text) {
        Ok(cert) => made(certificate::write(&cert, again).ok()),
        Err(fault) => refuse(rt, &fault),
    }
}

/// Prints a text again, or else its fault.
fn tell_text<R: Host>(rt: &R, kind: &str, text: &[u8]) -> io::Result<()> {
    let mut again = MemorySink::new(rt.alloc());
    match kind {
        "solution" => echo_solution(rt, text, &mut again)?,
        _ => echo_certificate(rt, text, &mut again)?,
    }
    let whole = str::from_utf8(again.as_slice()).unwrap_or("");
    print!(rt; "{whole}")
}

/// Prints the text of a file again, or else its fault.
pub(crate) fn tell_echo<R: Host>(rt: &R, kind: &str, path: &str) -> io::Result<()> {
    let text = fs::read(rt, path)?;
    tell_text(rt, kind, text.as_slice())
}
