//! Instances that are solved and checked.

use crate::bounds::{bound_of, tell_head};
use crate::runs::{Printed, run, tell_printed};
use crate::texts::tell_text;
use std::alloc::Global;
use std::rt::Runtime;
use std::sync::Wait;
use std::thread::Threads;
use std::{fs, io, str};

/// Tells whether a run printed the line of a first word, a cost and a bound, and no more, and ended with its
/// status, or else what it did.
fn tell_whether(
    alloc: Global,
    told: &mut String,
    name: &str,
    printed: &Printed,
    [word, cost, bound]: [&str; 3],
) -> io::Result<()> {
    let (line, status) = match word {
        "NO" => (format!(in alloc; "NO PLAN\n")?, 0),
        "OPEN" | "BOUND" => (format!(in alloc; "{word} {bound}\n")?, 1),
        _ if cost == bound => (format!(in alloc; "BEST {cost}\n")?, 0),
        _ => (format!(in alloc; "GAP {cost} {bound}\n")?, 1),
    };
    let is_line = printed.out.as_slice() == line.as_bytes();
    if is_line && printed.errors.as_slice().is_empty() && printed.status == status {
        return Ok(writeln!(told, "{name} holds")?);
    }
    writeln!(told, "{name} doesn't hold")?;
    tell_printed(told, printed, true)
}

/// Tells what was told of an instance, and whether what was printed and written for it holds, where the
/// certificate has this bound.
fn tell_holding<R: Runtime + AllocGlobal + Threads + Wait + Sync>(
    rt: &R,
    told: &mut String,
    path: &str,
    printed: &Printed,
    bound: &str,
) -> io::Result<()>
where
    R::File: Send,
{
    let line = str::from_utf8(printed.out.as_slice()).unwrap_or("");
    let mut words = line.split_whitespace();
    let (word, cost) = (words.next().unwrap_or(""), words.next().unwrap_or(""));
    let (count, checked) = match word {
        "NO" => (3, word),
        "OPEN" => (3, "BOUND"),
        _ => (5, word),
    };
    match word {
        "NO" => writeln!(told, "no plan")?,
        "OPEN" => writeln!(told, "open")?,
        _ => tell_text(told, "cost", cost.as_bytes())?,
    }
    tell_whether(rt.alloc(), told, "solved", printed, [word, cost, bound])?;
    let words = ["check", path, "certificate", "--solution", "solution"];
    let printed = run(rt, &words[..count]);
    tell_whether(
        rt.alloc(),
        told,
        "checked",
        &printed,
        [checked, cost, bound],
    )
}

/// Solves the instance of a file, with the options behind it, and tells both texts and what comes of it.
pub(crate) fn tell_solving<R: Runtime + AllocGlobal + Threads + Wait + Sync>(
    rt: &R,
    told: &mut String,
    path: &str,
    options: &[&str],
) -> io::Result<()>
where
    R::File: Send,
{
    let mut words = Vec::from_slice(rt.alloc(), &["solve", path, "solution", "certificate"])?;
    words.extend_from_slice(options)?;
    let printed = run(rt, words.as_slice());
    tell_text(told, "solution", fs::read(rt, "solution")?.as_slice())?;
    let certificate = fs::read(rt, "certificate")?;
    tell_head(told, certificate.as_slice())?;
    tell_holding(rt, told, path, &printed, bound_of(certificate.as_slice()))
}
