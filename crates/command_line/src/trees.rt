//! The tree that the words name to go on from, and the part of its open leaves.

ghost use Rattle.std.specs.Prelude.{◌<◌, ◌^◌, IfErr, MatchOption, MatchResult, option_map};
ghost use Rattle.clap.specs.Words.{rows_of, found_of};
ghost use Rattle.command_line.specs.Jobs.{HasTree, IsNumeralOf, IsPartFault, IsTreeFault, NamesPart, NamesPartIf};

use crate::arguments::{is_given, text_of};
use clap::ArgMatches;
use clap::error::ErrorKind;
use run_settings::Part;
use thiserror::Error;

/// Why the arguments of `solve` give no tree and part.
#[derive(Clone, Copy, Debug, Error)]
pub(crate) enum TreeFault<'a> {
    /// The words give neighbours beside a tree.
    #[error("the argument '--neighbours <neighbours>' cannot be used with '--tree <tree>'")]
    Neighbours,
    /// The words ask to close the instance beside a tree.
    #[error("the argument '--close' cannot be used with '--tree <tree>'")]
    Close,
    /// The words name a part, and no tree.
    #[error("the following required arguments were not provided:\n  --tree <tree>")]
    NoTree,
    /// This text names no part.
    #[error("invalid value '{0}' for '--part <part>': met '{0}', wanted K/N with 1 <= K <= N <= 10000")]
    Part(&'a str),
}

impl TreeFault<'_> {
    /// Which of clap's errors it is.
    pub(crate) fn kind(self) -> ErrorKind {
        match self {
            TreeFault::Neighbours => ErrorKind::ArgumentConflict,
            TreeFault::Close => ErrorKind::ArgumentConflict,
            TreeFault::NoTree => ErrorKind::MissingRequiredArgument,
            TreeFault::Part(_) => ErrorKind::InvalidValue,
        }
    }
}

/// The number that a text of digits alone writes.
fn numeral(text: &str) -> Option<u32>
    ensures { MatchOption result ((n : _) → n < 2 ^ 32 → IsNumeralOf text.now n → ⊥)
        (IsNumeralOf text.now) }
{
    if text.starts_with('+') {
        return None;
    }
    text.parse::<u32>().ok()
}

/// The part that a text names.
fn part_named(text: &str) -> Option<Part>
    ensures { MatchOption result ((part : _) → NamesPart text.now part → ⊥) (NamesPart text.now) }
{
    let (place, count) = text.split_once("/")?;
    let part = Part {
        place: numeral(place)?,
        count: numeral(count)?,
    };
    if !part.is_within() {
        return None;
    }
    Some(part)
}

/// The part that a text names, and all open leaves where there is none.
fn part_of<'a>(text: Option<&'a str>) -> Result<Part, TreeFault<'a>>
    ensures only { let names = NamesPartIf (option_map (λ s. s.now) text.entry) in
        MatchResult result names (λ _. (part : _) → names part → ⊥) }
    ensures fault { IfErr result (IsPartFault (option_map (λ s. s.now) text.entry)) }
{
    let Some(text) = text else {
        return Ok(Part::WHOLE);
    };
    match part_named(text) {
        Some(part) => Ok(part),
        None => Err(TreeFault::Part(text)),
    }
}

/// The path of the tree to go on from, if there is one, and the part of its open leaves.
pub(crate) fn tree_of<'a>(
    found: &ArgMatches<'a>,
    close: bool,
) -> Result<(Option<&'a str>, Part), TreeFault<'a>>
    ensures only { let rows = rows_of (found_of found.now) in
        MatchResult result (λ r. HasTree rows (option_map (λ s. s.now) r.0) r.1 close)
        (λ _. (tree : _) (part : _) → HasTree rows tree part close → ⊥) }
    ensures fault { IfErr result (IsTreeFault (rows_of (found_of found.now)) close) }
{
    let tree = text_of(found, "tree");
    let part = text_of(found, "part");
    if tree.is_none() && part.is_some() {
        return Err(TreeFault::NoTree);
    }
    if tree.is_some() && is_given(found, "neighbours") {
        return Err(TreeFault::Neighbours);
    }
    if tree.is_some() && close {
        return Err(TreeFault::Close);
    }
    Ok((tree, part_of(part)?))
}
