//! Scripts: the call of each row, and below it what has to come of it, on lines behind two blanks.

use std::alloc::Global;
use std::io;
use std::rt::Runtime;

/// What stands before each line of an outcome.
const BLANKS: &str = "  ";

/// The rows of a script as they are read: the last one, and how many of those before hold, how many differ, and how
/// many of these have no outcome below them.
#[derive(Drop)]
pub struct Rows {
    /// Where what comes of the last call is to be written, each line ended by a line feed. Nothing comes of a call
    /// that only makes ready what others need.
    pub told: String,
    call: String,
    expected: String,
    holding: usize,
    differing: usize,
    bare: usize,
}

impl Rows {
    /// Nothing was read yet. No contract: what is printed shows it.
    pub fn new(alloc: Global) -> Rows {
        Rows {
            told: String::new(alloc),
            call: String::new(alloc),
            expected: String::new(alloc),
            holding: 0,
            differing: 0,
            bare: 0,
        }
    }

    /// Counts the last row, and prints both texts where they differ.
    fn count<R: Runtime>(&mut self, rt: &R) -> io::Result<()> {
        if self.expected == self.told {
            let is_row = !self.told.is_empty();
            self.holding = self.holding.saturating_add(usize::from(is_row));
            return Ok(());
        }
        let is_bare = self.expected.is_empty();
        self.differing = self.differing.saturating_add(1);
        self.bare = self.bare.saturating_add(usize::from(is_bare));
        let (call, expected, told) = (&self.call, &self.expected, &self.told);
        println!(rt; "{call}\nexpected\n{expected}got\n{told}")
    }

    /// Begins a row at a line.
    fn begin(&mut self, line: &str) -> io::Result<()> {
        self.call.clear();
        self.expected.clear();
        self.told.clear();
        self.call.push_str(line)?;
        Ok(())
    }

    /// Takes a line: a part of the outcome below a call, or a line that begins the next row. Answers whether it is a
    /// call, which an empty line or one that begins with `#` isn't. No contract: what is printed shows it.
    pub fn take<R: Runtime>(&mut self, rt: &R, line: &str) -> io::Result<bool> {
        if let Some(text) = line.strip_prefix(BLANKS) {
            writeln!(self.expected, "{text}")?;
            return Ok(false);
        }
        self.count(rt)?;
        self.begin(line)?;
        Ok(!line.is_empty() && !line.starts_with('#'))
    }

    /// Ends the last row, and prints how many rows hold, and how many don't, if any. No contract: it only prints.
    pub fn end<R: Runtime>(&mut self, rt: &R, name: &str) -> io::Result<()> {
        self.count(rt)?;
        let (holding, differing, bare) = (self.holding, self.differing, self.bare);
        if differing == 0 {
            return println!(rt; "{name}: {holding} rows hold");
        }
        println!(rt;
            "{name}: {holding} rows hold, {differing} differ, {bare} of them without an outcome"
        )
    }
}
