//! What a run and a closing leave.

use crate::words::OrNone;
use incumbent_book::Outcome;
use search_workers::{Found, NoGate, Settings, close_alone, run};
use solomon_reader::{Instance, MOST_LEAVES};
use std::alloc::Global;
use std::rt::Runtime;
use std::sync::Wait;
use std::thread::Threads;

/// Each customer has this many neighbours.
const NEIGHBOURS: u32 = 8;

/// Tells what a run leaves: for which instance and how many neighbours, cost and bound, and whether a history.
fn tell_outcome(told: &mut String, outcome: &Outcome<'_>) -> Option<()> {
    let name = str::from_utf8(outcome.instance().name()).ok()?;
    let cost = outcome.plan().map(|plan| plan.cost().get());
    let (bound, neighbours) = (outcome.bound().get(), outcome.neighbours());
    let history = if outcome.history().is_empty() {
        "no"
    } else {
        "a"
    };
    write!(told, "{name} neighbours {neighbours} cost {}", OrNone(cost)).ok()?;
    writeln!(told, " bound {bound} {history} history").ok()
}

/// Lets a worker of each kind make some turns, and tells what they leave.
pub(crate) fn tell_run<R: AllocGlobal + Threads + Wait + Sync>(
    rt: &R,
    told: &mut String,
    instance: &Instance,
) -> Option<()> {
    let mut settings = Settings::default();
    (settings.searchers, settings.bounders, settings.turns) = (1, 1, 20);
    settings.neighbours = NEIGHBOURS;
    let outcome = run(rt, rt.alloc(), instance, &settings, &NoGate).ok()?;
    tell_outcome(told, &outcome)
}

/// Tells cost and bound of a closed instance.
fn tell_found(told: &mut String, found: &Found<'_>) -> Option<()> {
    let cost = found.plan.as_ref().map(|plan| plan.cost().get());
    writeln!(told, "cost {} bound {}", OrNone(cost), found.bound.get()).ok()
}

/// Closes an instance, and tells cost and bound, or the fault.
pub(crate) fn tell_alone(alloc: Global, told: &mut String, instance: &Instance) -> Option<()> {
    match close_alone(alloc, instance, NEIGHBOURS, MOST_LEAVES) {
        Ok(found) => tell_found(told, &found),
        Err(fault) => writeln!(told, "{fault}").ok(),
    }
}
