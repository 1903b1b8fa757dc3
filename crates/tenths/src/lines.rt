//! The lines of a text.

ghost use Rattle.std.specs.Prelude.{◌≡◌, ◌+◌, ◌<◌, ◌^◌, length};
ghost use Rattle.tenths.specs.Parts.{parts};
ghost use Rattle.tenths.specs.Lines.{IsLine, is_end};

use crate::parts::{part_len, tail};
use std::marker::Model;

/// The lines of a text that are left. Contracts see the number of the next one and the parts.
#[derive(Drop)]
pub struct Lines<'a> {
    number: u64,
    rest: &'a [u8],
}

impl<'a> Model for Lines<'a> {
    ghost use Rattle.std.specs.Prelude.{◌+◌, ◌<◌, ◌^◌, length};
    ghost use Rattle.tenths.specs.Parts.{parts};
    ghost use Rattle.tenths.specs.Lines.{Left};

    ghost Value = { Left };

    ghost view = { λ l. (l.number, parts 10 l.rest.now) };

    ghost invariant = { λ l. l.number + length l.rest.now < 2 ^ 64 };
}

impl<'a> Lines<'a> {
    /// The lines of a text.
    pub fn new(text: &'a [u8]) -> Lines<'a>
        ensures { result ≡ (1, parts 10 text.now) }
    {
        Lines {
            number: 1,
            rest: text,
        }
    }

    /// The number of the next line.
    pub fn number(&self) -> u64
        ensures { result ≡ self.now.0 }
    {
        self.number
    }

    /// The next line, where a line feed ends it.
    pub fn next(&mut self) -> Option<&'a [u8]>
        ensures { IsLine self.old result self.new }
    {
        let len = part_len(self.rest, b'\n');
        let (line, after) = self.rest.split_at(len);
        let rest = tail(after)?;
        self.number += 1;
        self.rest = rest;
        Some(line)
    }

    /// Whether no byte is left.
    pub fn is_done(&self) -> bool
        ensures { result ≡ is_end self.now.1 }
    {
        self.rest.is_empty()
    }
}
