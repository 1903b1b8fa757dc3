//! What all modes need.

use std::fmt::Display;
use std::io;
use std::rt::Runtime;

/// Files, printing, a clock and memory, also for several threads.
pub(crate) trait Host: Runtime + AllocGlobal + Sync {}

impl<R: Runtime + AllocGlobal + Sync> Host for R {}

/// That words or files are not such as a mode takes, or that memory was refused.
pub(crate) const WRONG: io::ErrorKind = io::ErrorKind::InvalidInput;

/// What was made, unless memory was refused.
pub(crate) fn made<T>(found: Option<T>) -> io::Result<T> {
    match found {
        Some(value) => Ok(value),
        None => Err(io::Error::from(WRONG)),
    }
}

/// Prints a line.
pub(crate) fn tell_line<R: Host, T: Display>(rt: &R, line: &T) -> io::Result<()> {
    println!(rt; "{line}")
}

/// Prints that all stands which a call needs.
pub(crate) fn tell_ready<R: Host>(rt: &R) -> io::Result<()> {
    println!(rt; "ready")
}
