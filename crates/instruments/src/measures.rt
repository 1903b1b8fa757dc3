//! Descents from the plan that insertion builds, in one thread and in several, turns, and closings: what they
//! come to, and how long descents and turns take.

use crate::starts::{Host, WRONG, made, tell_line};
use branching::TreeNode;
use closing::{Found, close_alone};
use insertion::{Built, Weights, build};
use rand_core::SeedableRng;
use rand_xoshiro::Xoshiro256PlusPlus;
use schedule::Feasible;
use search::Searcher;
use solomon_reader::{Instance, MOST_LEAVES, MOST_NEIGHBOURS, read};
use std::alloc::Global;
use std::thread::Threads;
use std::time::Instant;
use std::{fs, io};

/// How many descents are timed; the fastest counts.
const RUNS: u32 = 5;

pub(crate) type PlanSearcher<'i> = Searcher<'i, Xoshiro256PlusPlus>;

/// A searcher that holds a plan, with the random words of seed 1.
pub(crate) fn searcher_of<'i>(alloc: Global, plan: Feasible<'i>) -> PlanSearcher<'i> {
    Searcher::new(alloc, plan, Xoshiro256PlusPlus::seed_from_u64(1))
}

/// Prints the cost of a searcher's plan, and the microseconds if times are to be printed.
fn tell_cost<R: Host>(
    rt: &R,
    name: &str,
    searcher: &PlanSearcher<'_>,
    microseconds: u128,
    times: bool,
) -> io::Result<()> {
    let cost = searcher.plan().cost().get();
    if times {
        return println!(rt; "{name} {cost} us {microseconds}");
    }
    println!(rt; "{name} {cost}")
}

/// Descends from a plan, in one thread or in several: the microseconds that it takes.
fn timed_descent<'i, R: Host + Threads>(
    rt: &R,
    searcher: &mut PlanSearcher<'i>,
    plan: &Feasible<'i>,
    name: &str,
) -> io::Result<u128> {
    searcher.go_on_from(made(plan.try_clone().ok())?);
    let begin = Instant::now(rt)?;
    let descended = match name {
        "parallel" => searcher.descend_parallel(rt),
        _ => searcher.descend(),
    };
    made(descended.ok())?;
    Ok(begin.elapsed(rt)?.as_micros())
}

/// Descends some times from a plan, in one thread or in several, and prints what that comes to.
fn tell_descent<'i, R: Host + Threads>(
    rt: &R,
    searcher: &mut PlanSearcher<'i>,
    plan: &Feasible<'i>,
    name: &str,
    times: bool,
) -> io::Result<()> {
    let mut least = u128::MAX;
    for _ in 0..RUNS {
        least = least.min(timed_descent(rt, searcher, plan, name)?);
    }
    tell_cost(rt, name, searcher, least, times)
}

/// Makes turns, and prints what they come to.
fn tell_turned<R: Host>(
    rt: &R,
    searcher: &mut PlanSearcher<'_>,
    turns: u32,
    times: bool,
) -> io::Result<()> {
    let begin = Instant::now(rt)?;
    for _ in 0..turns {
        made(searcher.turn().ok())?;
    }
    let microseconds = begin.elapsed(rt)?.as_micros();
    tell_cost(rt, "turns", searcher, microseconds, times)
}

/// Prints each route of a plan.
fn tell_routes<R: Host>(rt: &R, routes: &[Vec<u16>]) -> io::Result<()> {
    for route in routes {
        println!(rt; "route {route:?}")?;
    }
    Ok(())
}

/// Prints what descents from a plan, in one thread and in several, and then turns come to, and the routes then.
fn tell_searched<'i, R: Host + Threads>(
    rt: &R,
    searcher: &mut PlanSearcher<'i>,
    plan: &Feasible<'i>,
    turns: u32,
    times: bool,
) -> io::Result<()> {
    tell_descent(rt, searcher, plan, "descent", times)?;
    tell_descent(rt, searcher, plan, "parallel", times)?;
    tell_turned(rt, searcher, turns, times)?;
    tell_routes(rt, searcher.plan().routes())
}

/// Prints what a search from a plan comes to.
fn tell_search<R: Host + Threads>(
    rt: &R,
    plan: &Feasible<'_>,
    turns: u32,
    times: bool,
) -> io::Result<()> {
    let held = made(plan.try_clone().ok())?;
    let mut searcher = searcher_of(rt.alloc(), held);
    tell_searched(rt, &mut searcher, plan, turns, times)
}

/// Prints what a search from the plan that insertion builds comes to.
fn tell_turns<R: Host + Threads>(
    rt: &R,
    instance: &Instance,
    turns: u32,
    times: bool,
) -> io::Result<()> {
    match &build(rt.alloc(), instance, &Weights::plain()) {
        Ok(Built::Whole(plan)) => tell_search(rt, plan, turns, times),
        _ => println!(rt; "no plan"),
    }
}

/// How many leaves a tree has.
fn leaf_count(nodes: &[TreeNode]) -> usize {
    let leaves = nodes.iter();
    leaves
        .filter(|node| matches!(node, TreeNode::Leaf(_)))
        .count()
}

/// Prints the bound of a closed instance in tenths and the leaves of its tree.
fn tell_closed<R: Host>(rt: &R, closed: &Found<'_>) -> io::Result<()> {
    let (bound, leaves) = (closed.bound.get(), leaf_count(closed.nodes.as_slice()));
    println!(rt; "bound {bound} leaves {leaves}")
}

/// Closes an instance, and prints what that comes to.
fn tell_closing<R: Host>(rt: &R, instance: &Instance, neighbours: u32) -> io::Result<()> {
    if neighbours > MOST_NEIGHBOURS {
        return Err(io::Error::from(WRONG));
    }
    match &close_alone(rt.alloc(), instance, neighbours, MOST_LEAVES) {
        Ok(closed) => tell_closed(rt, closed),
        Err(fault) => tell_line(rt, fault),
    }
}

/// Prints a measure of an instance, with the number behind it.
fn tell_number<R: Host + Threads>(
    rt: &R,
    mode: &str,
    instance: &Instance,
    number: &str,
) -> io::Result<()> {
    let number = made(number.parse::<u32>().ok())?;
    match mode {
        "turns" => tell_turns(rt, instance, number, false),
        "times" => tell_turns(rt, instance, number, true),
        "closing" => tell_closing(rt, instance, number),
        _ => Err(io::Error::from(WRONG)),
    }
}

/// Prints a measure of the instance of a file, with the number behind it.
pub(crate) fn tell_measure<R: Host + Threads>(
    rt: &R,
    mode: &str,
    path: &str,
    number: &str,
) -> io::Result<()> {
    let text = fs::read(rt, path)?;
    let instance = made(read(rt.alloc(), text.as_slice()).ok())?;
    tell_number(rt, mode, &instance, number)
}
