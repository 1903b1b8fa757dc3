//! Values of moves, and the best of each kind.

use crate::words::{List, OrNone, list_of};
use moves::{Chain, KINDS, Move, MoveFault, Place, apply, best, best_parallel, trees_of, value};
use schedule::Feasible;
use std::alloc::Global;
use std::thread::Threads;

/// A chain, by its route, its position in it and its length, or of no length where there is none.
fn chain_of(alloc: Global, word: &str) -> Option<Chain> {
    let numbers = list_of::<u16>(alloc, word)?;
    let (route, position, length) = match *numbers.as_slice() {
        [route, position] => (route, position, 0),
        [route, position, length] => (route, position, length),
        _ => return None,
    };
    Some(Chain {
        route,
        position,
        length,
    })
}

/// The move of a kind from one place or chain to another.
fn move_of(kind: &str, first: Chain, second: Chain) -> Option<Move> {
    let place_of = |chain: Chain| Place {
        route: chain.route,
        position: chain.position,
    };
    let (from, to) = (place_of(first), place_of(second));
    Some(match kind {
        "relocate" => Move::Relocate { from, to },
        "exchange" => Move::Exchange {
            first: from,
            second: to,
        },
        "or_opt" => Move::OrOpt { chain: first, to },
        "two_opt_star" => Move::TwoOptStar {
            first: from,
            second: to,
        },
        "cross" => Move::Cross { first, second },
        _ => return None,
    })
}

/// The value of a move in a plan, if there is memory for its trees.
fn value_in(alloc: Global, plan: &Feasible<'_>, candidate: &Move) -> Option<Option<i64>> {
    let trees = trees_of(alloc, plan).ok()?;
    Some(value(&trees, candidate))
}

/// By how much a move changes the cost of a plan, if it can be made and there is memory.
fn change_by(alloc: Global, plan: Feasible<'_>, candidate: &Move) -> Option<Option<i64>> {
    let cost = plan.cost().get() as i64;
    match apply(alloc, plan, candidate) {
        Ok(after) => Some(Some(after.cost().get() as i64 - cost)),
        Err((_same, MoveFault::NotFeasible)) => Some(None),
        Err((_same, MoveFault::Memory)) => None,
    }
}

/// Tells the value of a move, and by how much it changes the cost where it is made.
pub(crate) fn tell_move(
    alloc: Global,
    told: &mut String,
    plan: Feasible<'_>,
    [kind, from, to]: [&str; 3],
) -> Option<()> {
    let candidate = move_of(kind, chain_of(alloc, from)?, chain_of(alloc, to)?)?;
    let value = value_in(alloc, &plan, &candidate)?;
    let change = change_by(alloc, plan, &candidate)?;
    writeln!(told, "value {} change {}", OrNone(value), OrNone(change)).ok()
}

/// Tells the value of the best move of each kind, if one thread and several threads find the same.
pub(crate) fn tell_bests<R: AllocGlobal + Threads + Sync>(
    rt: &R,
    told: &mut String,
    plan: &Feasible<'_>,
) -> Option<()> {
    let trees = trees_of(rt.alloc(), plan).ok()?;
    let mut values = Vec::new(rt.alloc());
    for kind in KINDS {
        let found = best(&trees, kind);
        if found != best_parallel(rt, rt.alloc(), &trees, kind).ok()? {
            return None;
        }
        values.push(found?.1).ok()?;
    }
    writeln!(told, "values{}", List(values.as_slice())).ok()
}
