//! What a parse has for an argument.

ghost use Rattle.std.specs.Prelude.{◌≡◌, ◌↔◌, IsTrue, MatchOption, option_map};
ghost use Rattle.clap.specs.Words.{rows_of, found_of, first_of};
ghost use Rattle.command_line.specs.Commands.{HasCuts, HasFlag, IsGiven, IsNumberIf, source_of};

use clap::ArgMatches;
use clap::parser::ValueSource;

/// The text that a parse has for an argument.
pub(crate) fn text_of<'a>(found: &ArgMatches<'a>, id: &str) -> Option<&'a str>
    ensures { option_map (λ s. s.now) result ≡ first_of id.now (rows_of (found_of found.now)) }
{
    found.get_str(id)
}

/// The number that a parse has for an argument.
pub(crate) fn number_of(found: &ArgMatches<'_>, id: &str) -> Option<u32>
    ensures { IsNumberIf id.now (rows_of (found_of found.now)) result }
{
    found.get_one::<u32>(id)
}

/// Whether a parse has a flag.
pub(crate) fn flag_of(found: &ArgMatches<'_>, id: &str) -> bool
    ensures { HasFlag id.now (rows_of (found_of found.now)) result }
{
    match text_of(found, id) {
        Some(text) => text == "true",
        None => false,
    }
}

/// Where the value that a parse has for an argument comes from.
fn source_of(found: &ArgMatches<'_>, id: &str) -> Option<ValueSource>
    ensures { result ≡ source_of id.now (rows_of (found_of found.now)) }
{
    found.value_source(id)
}

/// Whether the words give an argument: its value is not its default alone.
pub(crate) fn is_given(found: &ArgMatches<'_>, id: &str) -> bool
    ensures { IsTrue result ↔ IsGiven id.now (rows_of (found_of found.now)) }
{
    matches!(source_of(found, id), Some(ValueSource::CommandLine))
}

/// How many sets or rows may have prices: so many where the words have `--cuts` and don't give the argument itself, and
/// else the argument's number.
pub(crate) fn cuts_of(found: &ArgMatches<'_>, id: &str, many: u32) -> Option<u32>
    ensures { let has = HasCuts id.now many (rows_of (found_of found.now)) in
        MatchOption result ((n : _) → has n → ⊥) has }
{
    if flag_of(found, "cuts") && !is_given(found, id) {
        return Some(many);
    }
    number_of(found, id)
}
