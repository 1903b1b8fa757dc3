//! Plans, their trees, and what a searcher makes of them.

use crate::script::Script;
use crate::words::{Routes, list_of};
use rand_core::SeedableRng;
use rand_xoshiro::Xoshiro256PlusPlus;
use schedule::Feasible;
use search::Searcher;
use segments::{PlanTrees, RouteTree};
use solomon_reader::Instance;
use std::alloc::Global;
use std::thread::Threads;

/// Routes, each a word.
pub(crate) fn routes_of(alloc: Global, words: &[&str]) -> Option<Vec<Vec<u16>>> {
    let mut routes = Vec::new(alloc);
    for word in words {
        routes.push(list_of(alloc, word)?).ok()?;
    }
    Some(routes)
}

/// The plan of routes, if they are one.
pub(crate) fn plan_of<'i>(instance: &'i Instance, routes: &Vec<Vec<u16>>) -> Option<Feasible<'i>> {
    Feasible::check(instance, routes.clone().ok()?).ok()
}

/// Tells the routes of a plan.
pub(crate) fn tell_routes(told: &mut String, plan: &Feasible<'_>) -> Option<()> {
    writeln!(told, "routes{}", Routes(plan.routes())).ok()
}

/// Tells the cost of the plan of routes, or their fault.
pub(crate) fn tell_plan(
    told: &mut String,
    instance: &Instance,
    routes: Vec<Vec<u16>>,
) -> Option<()> {
    match Feasible::check(instance, routes) {
        Ok(plan) => writeln!(told, "cost {}", plan.cost().get()).ok(),
        Err((_routes, fault)) => writeln!(told, "{fault}").ok(),
    }
}

/// Tells how many stops the first tree of a plan has, and its height, and how many stops stand in its place once an
/// empty tree was put there.
pub(crate) fn tell_trees(alloc: Global, told: &mut String, plan: &Feasible<'_>) -> Option<()> {
    let mut trees = PlanTrees::new(alloc, plan).ok()?;
    if trees.count() == 0 {
        return None;
    }
    let tree = trees.route(0);
    write!(told, "stops {} height {}", tree.len(), tree.height()).ok()?;
    *trees.route_mut(0) = RouteTree::new(alloc, plan.instance(), Vec::new(alloc)).ok()?;
    if trees.count() == 0 {
        return None;
    }
    writeln!(told, " left {}", trees.route(0).len()).ok()
}

/// Descends in threads, and again from another plan in one thread, and tells the costs.
fn descend_twice<'i, R: AllocGlobal + Threads + Sync>(
    rt: &R,
    told: &mut String,
    searcher: &mut Searcher<'i, Xoshiro256PlusPlus>,
    again: Feasible<'i>,
) -> Option<()> {
    searcher.descend_parallel(rt).ok()?;
    let in_threads = searcher.plan().cost().get();
    searcher.go_on_from(again);
    searcher.descend().ok()?;
    let cost = searcher.plan().cost().get();
    writeln!(told, "cost {cost} in_threads {in_threads}").ok()
}

/// Descends, tells the costs, and answers the routes at the end of the descent in one thread.
pub(crate) fn descend<R: AllocGlobal + Threads + Sync>(
    rt: &R,
    told: &mut String,
    plan: Feasible<'_>,
) -> Option<Vec<Vec<u16>>> {
    let again = plan.try_clone().ok()?;
    let mut searcher = Searcher::new(rt.alloc(), plan, Xoshiro256PlusPlus::seed_from_u64(1));
    descend_twice(rt, told, &mut searcher, again)?;
    Vec::from_clones(rt.alloc(), searcher.plan().routes()).ok()
}

/// Tells the routes behind this many moves of a shake by random words, or else behind a turn by them.
pub(crate) fn tell_drawn(
    alloc: Global,
    told: &mut String,
    plan: Feasible<'_>,
    count: Option<u32>,
    draws: &str,
) -> Option<()> {
    let draws = list_of(alloc, draws)?;
    let words = draws.as_slice();
    let mut searcher = Searcher::new(alloc, plan, Script { words });
    match count {
        Some(count) => searcher.shake(count).ok()?,
        None => searcher.turn().ok()?,
    }
    tell_routes(told, searcher.plan())
}
