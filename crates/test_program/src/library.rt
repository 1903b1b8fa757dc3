//! Calls of the solver's library.

use crate::bounds::tell_head;
use crate::texts::tell_text;
use std::rt::Runtime;
use std::sync::Wait;
use std::thread::Threads;
use std::{fs, io};
use tenths::MemorySink;
use vrptw::{NoGate, Settings, close, solve};

/// Calls the library for the instance of a file with the number of one option: `leaves` closes the instance,
/// and another one is a setting of the solver. Tells how the certificate begins, or why there is none, and
/// then both texts.
pub(crate) fn tell_library<R: Runtime + AllocGlobal + Threads + Wait + Sync>(
    rt: &R,
    told: &mut String,
    [path, option, number]: [&str; 3],
) -> io::Result<()> {
    let (number, mut settings) = (number.parse().unwrap_or(0), Settings::default());
    match option {
        "neighbours" => settings.neighbours = number,
        "labels" => settings.labels = number,
        "sets" => settings.sets = number,
        "rows" => settings.rows = number,
        _ => {}
    }
    let (alloc, text) = (rt.alloc(), fs::read(rt, path)?);
    let (mut first, mut second) = (MemorySink::new(alloc), MemorySink::new(alloc));
    let text = text.as_slice();
    let answer = match option {
        "leaves" => close(alloc, text, &settings, number, &mut first, &mut second),
        _ => solve(rt, alloc, text, &settings, &NoGate, &mut first, &mut second),
    };
    let Err(fault) = answer else {
        return tell_head(told, second.as_slice());
    };
    writeln!(told, "refused {fault}")?;
    tell_text(told, "solution", first.as_slice())?;
    tell_text(told, "certificate", second.as_slice())
}
