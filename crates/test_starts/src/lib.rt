//! What tests start from: instance texts in the usual layout, each line of its own, ended by a line feed;
//! plans, prices and books, and scripts with their rows.
#![tactic(auto)]

mod script;
mod starts;

pub use crate::script::Rows;
pub use crate::starts::{book_of, children_at, paid_at, plan_at, priced_at};
use std::alloc::{AllocError, Global};
use std::fmt::Display;

/// The depot at (0,0), open from 0 to 1000.
pub const DEPOT: &str = "0 0 0 0 0 1000 0\n";

/// Two customers on a line from the depot.
pub const IN_LINE: &str = "1 3 4 1 0 1000 0\n2 6 8 1 0 1000 0\n";

/// The text of an instance named `T`. No contract: the rows show the text, by what becomes of it.
pub fn instance_text<N: Display + Copy>(
    alloc: Global,
    fleet: N,
    capacity: N,
    depot: &str,
    customers: &str,
) -> Result<String, AllocError> {
    format!(in alloc;
        "T\nVEHICLE\nNUMBER CAPACITY\n{fleet} {capacity}\nCUSTOMER\nCUST NO. XCOORD. YCOORD. DEMAND READY TIME DUE DATE SERVICE TIME\n{depot}{customers}"
    )
}

/// What stands behind this many words of a line. No contract: the rows show it, by what becomes of it.
pub fn behind(line: &str, count: u8) -> &str {
    let mut rest = line;
    for _ in 0..count {
        rest = rest.split_once(' ').map_or("", |parts| parts.1);
    }
    rest
}

/// The bytes that a script's text stands for: a bar is a line feed, and a tilde this byte.
/// No contract: the rows show the bytes, by what becomes of them.
pub fn bytes_meant(alloc: Global, shown: &str, tilde: u8) -> Result<Vec<u8>, AllocError> {
    let mut bytes = Vec::new(alloc);
    for byte in shown.as_bytes() {
        bytes.push(match *byte {
            b'|' => b'\n',
            b'~' => tilde,
            other => other,
        })?;
    }
    Ok(bytes)
}
