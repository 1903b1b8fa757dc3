//! The texts of a script, and of files.

use std::rt::Runtime;
use std::{fs, io};
use test_starts::{behind, bytes_meant, instance_text};

/// The byte that a tilde stands for, mostly.
pub(crate) const LOW: u8 = 1;

/// Tells a text after its name, as a script's words would have it, so that it stands on one line.
pub(crate) fn tell_text(told: &mut String, name: &str, text: &[u8]) -> io::Result<()> {
    write!(
        told,
        "{name} {}",
        if text.is_empty() { "empty" } else { "" }
    )?;
    for byte in text {
        told.push(match *byte {
            b'\n' => '|',
            LOW => '~',
            other => char::from(other),
        })?;
    }
    told.push('\n')?;
    Ok(())
}

/// Tells what a file holds.
pub(crate) fn tell_file<R: Runtime>(rt: &R, told: &mut String, path: &str) -> io::Result<()> {
    match fs::read(rt, path) {
        Ok(text) => tell_text(told, "text", text.as_slice()),
        Err(_) => Ok(writeln!(told, "no file")?),
    }
}

/// Writes an instance with the lines of a call.
pub(crate) fn write_file<R: Runtime + AllocGlobal>(
    rt: &R,
    line: &str,
    [path, fleet, capacity]: [&str; 3],
) -> io::Result<()> {
    let lines = bytes_meant(rt.alloc(), behind(line, 4), LOW)?;
    let lines = str::from_utf8(lines.as_slice()).unwrap_or("");
    let text = instance_text(rt.alloc(), fleet, capacity, lines, "")?;
    fs::write(rt, path, text.as_str())
}

/// Writes the text of a call, in which a tilde stands for this byte.
pub(crate) fn write_text_meant<R: Runtime + AllocGlobal>(
    rt: &R,
    line: &str,
    path: &str,
    tilde: u8,
) -> io::Result<()> {
    let text = bytes_meant(rt.alloc(), behind(line, 2), tilde)?;
    fs::write(rt, path, text.as_slice())
}
