//! The commands of the program, and the job that the words give.
ghost use Rattle.std.specs.Prelude.{◌≡◌, [], false, map, codes};
ghost use Rattle.std.specs.Prelude.{IfOk, IfErr, MatchOption};
ghost use Rattle.clap.specs.Words.{app_of, rule_of, rows_of, found_of};
ghost use Rattle.clap.specs.Words.{subcommand_rows_of};
ghost use Rattle.command_line.specs.Commands.{AddsRules, HasShape, between, check_shape, closing_rules, cut_rules, flag_rule, number_option_rule, path_option_rule, path_rule, pricing_rules, program, search_rules, solve_shape, starting_rules, telling_rules, thread_rules, tree_rules};
ghost use Rattle.command_line.specs.Jobs.{Gives, HasClosing, HasSettings, IsRefused, IsSameJob, Says, SaysAny};

use crate::arguments::{cuts_of, flag_of, number_of, text_of};
use crate::jobs::{CUT_ROWS, CUT_SETS, Job, MOST_STATES, UsageFault};
use crate::trees::tree_of;
use clap::builder::ValueParser;
use clap::error::ErrorKind;
use clap::{Arg, ArgAction, ArgMatches, Command, Error};
use run_settings::{MOST_BOUNDERS, MOST_GAP, MOST_LABELS, MOST_SEARCHERS, MOST_TURNS, Settings};
use solomon_reader::{MOST_LEAVES, MOST_NEIGHBOURS, MOST_ROWS, MOST_SETS};
use std::alloc::{AllocError, Global};

const PROGRAM: &str = "vrptw";

/// What `--version` prints behind the program's name.
const VERSION: &str =
    "1.23.0 (writes certificates of version 2 or with sets or rows, reads 1, 2 and those with sets or rows)";

/// A path that has to be given.
fn path<'a>(alloc: Global, id: &'a str, help: &'a str) -> Arg<'a>
    ensures rule { rule_of result ≡ path_rule id.entry.now }
    ensures own { result.global ≡ false }
{
    Arg::new(alloc, id).required(true).help(help)
}

/// An option with a path or another text, named after two dashes.
fn path_option<'a>(alloc: Global, id: &'a str, help: &'a str) -> Arg<'a>
    ensures rule { rule_of result ≡ path_option_rule id.entry.now }
    ensures own { result.global ≡ false }
{
    Arg::new(alloc, id).long(id).help(help)
}

/// An option with a number of a range, whose ends are given, named after two dashes.
fn number_option<'a>(
    alloc: Global,
    id: &'a str,
    range: (u32, u32),
    default: &'a str,
    help: &'a str,
) -> Arg<'a>
    ensures rule { rule_of result ≡ number_option_rule id.entry.now (between range.0 range.1)
        default.entry.now }
    ensures own { result.global ≡ false }
{
    Arg::new(alloc, id)
        .long(id)
        .value_parser(ValueParser::signed(i64::from(range.0), i64::from(range.1)))
        .default_value(default)
        .help(help)
}

/// A flag, named after two dashes.
fn flag<'a>(alloc: Global, id: &'a str, help: &'a str) -> Arg<'a>
    ensures rule { rule_of result ≡ flag_rule id.entry.now }
    ensures own { result.global ≡ false }
{
    Arg::new(alloc, id)
        .long(id)
        .action(ArgAction::SetTrue)
        .help(help)
}

/// Adds the options that say how many threads work.
fn with_thread_options<'a>(alloc: Global, command: Command<'a>) -> Result<Command<'a>, AllocError>
    ensures { IfOk result (AddsRules thread_rules command.entry) }
{
    command
        .arg(number_option(
            alloc,
            "searchers",
            (1, MOST_SEARCHERS),
            "2",
            "How many threads look for a plan, 1 to 32",
        ))?
        .arg(number_option(
            alloc,
            "bounders",
            (1, MOST_BOUNDERS),
            "2",
            "How many threads raise the bound, 1 to 32",
        ))
}

/// Adds the options that say how plans are looked for.
fn with_search_options<'a>(alloc: Global, command: Command<'a>) -> Result<Command<'a>, AllocError>
    ensures { IfOk result (AddsRules search_rules command.entry) }
{
    command
        .arg(number_option(
            alloc,
            "turns",
            (1, MOST_TURNS),
            "200",
            "How many turns each worker makes, 1 to 1000000",
        ))?
        .arg(number_option(
            alloc,
            "seed",
            (0, u32::MAX),
            "1",
            "Where the random numbers start, 0 to 4294967295",
        ))
}

/// Adds the options that say how the bound is priced.
fn with_pricing_options<'a>(alloc: Global, command: Command<'a>) -> Result<Command<'a>, AllocError>
    ensures { IfOk result (AddsRules pricing_rules command.entry) }
{
    command
        .arg(number_option(
            alloc,
            "neighbours",
            (0, MOST_NEIGHBOURS),
            "8",
            "How many nearest customers the relaxed routes of a customer remember, 0 to 15",
        ))?
        .arg(number_option(
            alloc,
            "labels",
            (1, MOST_LABELS),
            "1000000",
            "How many labels may be active at once in a pricing, 1 to 100000000",
        ))
}

/// Adds the options that say how many sets and rows may have prices, and the flag that stands for both.
fn with_cut_options<'a>(alloc: Global, command: Command<'a>) -> Result<Command<'a>, AllocError>
    ensures { IfOk result (AddsRules cut_rules command.entry) }
{
    command
        .arg(number_option(
            alloc,
            "sets",
            (0, MOST_SETS),
            "0",
            "How many sets of customers may have prices in the tree, 0 to 1000; from 1 on the certificate is one with sets",
        ))?
        .arg(number_option(
            alloc,
            "rows",
            (0, MOST_ROWS),
            "0",
            "How many rows of three customers may have prices in the tree, 0 to 1000; from 1 on the certificate is one with rows",
        ))?
        .arg(flag(
            alloc,
            "cuts",
            "Stands for --sets 200 --rows 300; a number that is given beside it counts in its place",
        ))
}

/// Adds the flag and the option of the closing.
fn with_closing_options<'a>(alloc: Global, command: Command<'a>) -> Result<Command<'a>, AllocError>
    ensures { IfOk result (AddsRules closing_rules command.entry) }
{
    command
        .arg(flag(
            alloc,
            "close",
            "Closes an instance of at most 24 customers by one thread; of the other options only --neighbours, --sets, --rows, --cuts, --leaves and --start count",
        ))?
        .arg(number_option(
            alloc,
            "leaves",
            (1, MOST_LEAVES),
            "100000",
            "The most leaves of the tree that closes an instance, 1 to 100000",
        ))
}

/// Adds the options that say where the work starts, and how near cost and bound are enough.
fn with_starting_options<'a>(alloc: Global, command: Command<'a>) -> Result<Command<'a>, AllocError>
    ensures { IfOk result (AddsRules starting_rules command.entry) }
{
    command
        .arg(path_option(
            alloc,
            "start",
            "The file of a plan to start from, as this command writes one",
        ))?
        .arg(number_option(
            alloc,
            "gap",
            (0, MOST_GAP),
            "0",
            "Ends the work once cost and bound are no further apart than this many tenths of a percent of the cost, 0 to 1000",
        ))
}

/// Adds the options that name a tree to go on from, and a part of its open leaves.
fn with_tree_options<'a>(alloc: Global, command: Command<'a>) -> Result<Command<'a>, AllocError>
    ensures { IfOk result (AddsRules tree_rules command.entry) }
{
    command
        .arg(path_option(
            alloc,
            "tree",
            "The file of a certificate whose tree the work goes on from, as this command writes one; it says how many neighbours there are",
        ))?
        .arg(path_option(
            alloc,
            "part",
            "Works only at those open leaves of the tree whose place among them is K modulo N, as K/N, 1 <= K <= N <= 10000",
        ))
}

/// Adds the flags that say whether to tell how far the turns are, and the option that names a file of plans.
fn with_telling_options<'a>(alloc: Global, command: Command<'a>) -> Result<Command<'a>, AllocError>
    ensures { IfOk result (AddsRules telling_rules command.entry) }
{
    command
        .arg(flag(
            alloc,
            "progress",
            "Tells on standard error how far the turns are, and cost, bound, gap and leaves",
        ))?
        .arg(flag(
            alloc,
            "live",
            "Tells the same on one line, which is written anew each time",
        ))?
        .arg(path_option(
            alloc,
            "plans",
            "The file to write each plan to, at once, that is cheaper than all before, emptied before the solving",
        ))
}

fn solve_command<'a>(alloc: Global) -> Result<Command<'a>, AllocError>
    ensures { IfOk result (HasShape (record { top = solve_shape; subs = [] })) }
{
    let command = Command::new(alloc, "solve")
        .about("Finds a plan and a certificate of a lower bound on every plan's cost")
        .arg(path(alloc, "INSTANCE", "The file to read the instance from"))?
        .arg(path(
            alloc,
            "SOLUTION",
            "The file to write the plan to, emptied before the solving",
        ))?
        .arg(path(
            alloc,
            "CERTIFICATE",
            "The file to write the certificate to, emptied before the solving; no two paths may be the same",
        ))?;
    let command = with_thread_options(alloc, command)?;
    let command = with_search_options(alloc, command)?;
    let command = with_pricing_options(alloc, command)?;
    let command = with_cut_options(alloc, command)?;
    let command = with_closing_options(alloc, command)?;
    let command = with_starting_options(alloc, command)?;
    let command = with_tree_options(alloc, command)?;
    with_telling_options(alloc, command)
}

fn check_command<'a>(alloc: Global) -> Result<Command<'a>, AllocError>
    ensures { IfOk result (HasShape (record { top = check_shape; subs = [] })) }
{
    Command::new(alloc, "check")
        .about("Checks a certificate of a lower bound, and a plan if one is given")
        .arg(path(alloc, "INSTANCE", "The file to read the instance from"))?
        .arg(path(
            alloc,
            "CERTIFICATE",
            "The file to read the certificate from",
        ))?
        .arg(path_option(alloc, "solution", "The file to read the plan from"))?
        .arg(number_option(
            alloc,
            "states",
            (1, MOST_STATES),
            "5000000",
            "The most pairs of time and cost that the check of one leaf keeps, 1 to 50000000",
        ))
}

fn vrptw_command<'a>(alloc: Global) -> Result<Command<'a>, AllocError>
    ensures { IfOk result (λ c. app_of c ≡ program) }
{
    Command::new(alloc, PROGRAM)
        .bin_name(PROGRAM)?
        .version(VERSION)
        .about("Plans routes for vehicles with time windows, and proves how good they are")
        .no_binary_name(true)
        .subcommand_required(true)
        .subcommand(solve_command(alloc)?)?
        .subcommand(check_command(alloc)?)
}

/// Whether to close the instance, and with how many leaves at most.
fn closing_of(found: &ArgMatches<'_>) -> Option<(bool, u32)>
    ensures { let rows = rows_of (found_of found.now) in
        MatchOption result ((close : _) (leaves : _) → HasClosing rows close leaves → ⊥)
        (λ r. HasClosing rows r.0 r.1) }
{
    let leaves = number_of(found, "leaves")?;
    // clap has refused other numbers; the proof knows it from here.
    if leaves < 1 || leaves > MOST_LEAVES {
        return None;
    }
    Some((flag_of(found, "close"), leaves))
}

/// The settings that the arguments of `solve` give.
fn settings_of(found: &ArgMatches<'_>) -> Option<Settings>
    ensures { let has = HasSettings (rows_of (found_of found.now)) in
        MatchOption result ((other : _) → has other → ⊥) has }
{
    let searchers = number_of(found, "searchers")?;
    let bounders = number_of(found, "bounders")?;
    let turns = number_of(found, "turns")?;
    let seed = number_of(found, "seed")?;
    let neighbours = number_of(found, "neighbours")?;
    let labels = number_of(found, "labels")?;
    let gap = number_of(found, "gap")?;
    let sets = cuts_of(found, "sets", CUT_SETS)?;
    let rows = cuts_of(found, "rows", CUT_ROWS)?;
    let settings = Settings {
        searchers,
        bounders,
        turns,
        seed,
        neighbours,
        labels,
        gap,
        sets,
        rows,
    };
    // clap has refused other numbers; the proof knows it from here.
    if !settings.is_within() {
        return None;
    }
    Some(settings)
}

/// The job that the arguments of `solve` give.
fn solve_job<'a>(found: &ArgMatches<'a>) -> Option<Job<'a>>
    ensures { let says = Says (codes "solve") (rows_of (found_of found.now)) in
        MatchOption result ((other : _) → says other → ⊥) says }
{
    let (close, leaves) = closing_of(found)?;
    let Ok((tree, part)) = tree_of(found, close) else {
        return None;
    };
    Some(Job::Solve {
        instance: text_of(found, "INSTANCE")?,
        solution: text_of(found, "SOLUTION")?,
        certificate: text_of(found, "CERTIFICATE")?,
        start: text_of(found, "start"),
        tree,
        part,
        settings: settings_of(found)?,
        close,
        leaves,
        progress: flag_of(found, "progress"),
        live: flag_of(found, "live"),
        plans: text_of(found, "plans"),
    })
}

/// The job that the arguments of `check` give.
fn check_job<'a>(found: &ArgMatches<'a>) -> Option<Job<'a>>
    ensures { let says = Says (codes "check") (rows_of (found_of found.now)) in
        MatchOption result ((other : _) → says other → ⊥) says }
{
    let states = number_of(found, "states")?;
    // clap has refused other numbers; the proof knows it from here.
    if states < 1 || states > MOST_STATES {
        return None;
    }
    Some(Job::Check {
        instance: text_of(found, "INSTANCE")?,
        certificate: text_of(found, "CERTIFICATE")?,
        solution: text_of(found, "solution"),
        states,
    })
}

/// The job that the matches of a parse give.
fn job_found<'a>(matches: &ArgMatches<'a>) -> Option<Job<'a>>
    ensures { let says = SaysAny (subcommand_rows_of matches.now) in
        MatchOption result ((other : _) → says other → ⊥) says }
{
    let (name, found) = matches.subcommand()?;
    if name == "solve" {
        return solve_job(found);
    }
    if name == "check" {
        return check_job(found);
    }
    None
}

/// What is said where a parse gives no job: what is wrong with the tree or its part, and else that it names no
/// command of the program.
fn told(alloc: Global, matches: &ArgMatches<'_>) -> Result<Error, AllocError> {
    if let Some((_, found)) = matches.subcommand() {
        if let Err(fault) = tree_of(found, flag_of(found, "close")) {
            let mut command = solve_command(alloc)?.bin_name("vrptw solve")?;
            let text = fault.to_string(alloc)?;
            return command.error(fault.kind(), text.as_str());
        }
    }
    Command::new(alloc, PROGRAM).error(ErrorKind::InvalidSubcommand, "no such command")
}

/// The refusal of words that clap took and that give no job.
fn refusal(alloc: Global, matches: &ArgMatches<'_>) -> UsageFault {
    match told(alloc, matches) {
        Ok(error) => UsageFault::Usage(error),
        Err(_) => UsageFault::Memory,
    }
}

/// What is said of words that aren't UTF-8, as clap says it. No contract: the text is clap's own, and
/// worked rows show it.
pub fn wrong_words(alloc: Global) -> Result<String, AllocError> {
    let mut command = vrptw_command(alloc)?;
    let error = command.error(
        ErrorKind::ValueValidation,
        "invalid UTF-8 was detected in one or more arguments",
    )?;
    error.to_string(alloc)
}

/// The job that the words after the program's name ask for.
///
/// `Usage` says that the words give no job: they are wrong, or ask for help. `Memory` says that
/// there was no memory to find out.
pub fn job<'a>(alloc: Global, words: &'a [&'a str]) -> Result<Job<'a>, UsageFault>
    ensures ok { IfOk result (Gives (map (λ s. s.now) words.now)) }
    ensures err { IfErr result (IsRefused (map (λ s. s.now) words.now)) }

    // The words give one job and no other.
    ensures single { IfOk result (λ found. (other : _)
        → Gives (map (λ s. s.now) words.now) other → IsSameJob found other) }
{
    let matches = vrptw_command(alloc)?.try_get_matches_from(words)?;
    match job_found(&matches) {
        Some(job) => Ok(job),
        None => Err(refusal(alloc, &matches)),
    }
}
