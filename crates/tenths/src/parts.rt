//! The parts of a text between separators.

ghost use Rattle.std.specs.Prelude.{◌≡◌, length, take_while, []};
ghost use Rattle.tenths.specs.Parts.{parts, is_other, IsNext, IsTail};

use std::marker::Model;

/// The parts of a text that are left. Contracts see the list of them.
#[derive(Drop)]
pub struct Parts<'a> {
    separator: u8,
    rest: Option<&'a [u8]>,
}

impl<'a> Model for Parts<'a> {
    ghost use Rattle.std.specs.Prelude.{List, ℕ};
    ghost use Rattle.tenths.specs.Parts.{left_parts};

    ghost Value = { List (List ℕ) };

    ghost view = { λ p. left_parts p.separator p.rest };
}

/// How many bytes stand before the first separator.
pub fn part_len(text: &[u8], separator: u8) -> usize
    ensures { result ≡ length (take_while (is_other separator) text.now) }
{
    text.iter().take_while(|b| **b != separator).count()
}

/// What stands behind the first byte, if there is one.
pub fn tail(text: &[u8]) -> Option<&[u8]>
    ensures { IsTail text.now result }
{
    match text {
        [] => None,
        [_, rest @ ..] => Some(rest),
    }
}

impl<'a> Parts<'a> {
    /// The parts of a text.
    pub fn new(text: &'a [u8], separator: u8) -> Parts<'a>
        ensures { result ≡ parts separator text.now }
    {
        Parts {
            separator,
            rest: Some(text),
        }
    }

    /// The next part.
    pub fn next(&mut self) -> Option<&'a [u8]>
        ensures { IsNext self.old result self.new }
    {
        let rest = self.rest?;
        let len = part_len(rest, self.separator);
        let (part, after) = rest.split_at(len);
        self.rest = tail(after);
        Some(part)
    }
}
