//! The bounds of certificates.

use crate::texts::tell_text;
use certificate::{CertNode, read};
use std::rt::Runtime;
use std::{fs, io};

/// What stands before a certificate's bound and behind it, in its text; nothing where there is no bound.
fn parts_of(text: &[u8]) -> (&str, &str) {
    let text = str::from_utf8(text).unwrap_or("");
    text.split_once("BOUND ").unwrap_or((text, ""))
}

/// The bound of a certificate, as its text has it.
pub(crate) fn bound_of(text: &[u8]) -> &str {
    parts_of(text).1.lines().next().unwrap_or("")
}

/// Tells how a text begins that may be a certificate.
pub(crate) fn tell_head(told: &mut String, text: &[u8]) -> io::Result<()> {
    tell_text(told, "certificate", parts_of(text).0.as_bytes())
}

/// Tells the bound of a file and its leaves, or, where a number is given, whether the leaves are no more.
pub(crate) fn tell_bound<R: Runtime + AllocGlobal>(
    rt: &R,
    told: &mut String,
    path: &str,
    most: usize,
) -> io::Result<()> {
    let text = fs::read(rt, path)?;
    let Ok(cert) = read(rt.alloc(), text.as_slice()) else {
        return Ok(writeln!(told, "no certificate")?);
    };
    tell_text(told, "bound", bound_of(text.as_slice()).as_bytes())?;
    let parts = cert.into_parts();
    let nodes = parts.nodes.iter();
    let leaves = nodes
        .filter(|node| !matches!(node, CertNode::Split { .. }))
        .count();
    if leaves <= most {
        return Ok(writeln!(told, "leaves at most {most}")?);
    }
    Ok(writeln!(told, "leaves {leaves}")?)
}
