//! The best move of a kind, sought in several threads.

ghost use Rattle.std.specs.Prelude.{◌≡◌, ◌+◌, [], length, IfOk, IfErr};
ghost use Rattle.std.specs.List.{AllZip, range_with_len};
ghost use Rattle.segments.specs.PlanTrees.{problem_of};
ghost use Rattle.moves.specs.Trees.{visits_of, AreOfPlan};
ghost use Rattle.moves.specs.Order.{IsBest};
ghost use Rattle.moves.specs.Search.{IsBestInRange, IsBestUnder};
ghost use Rattle.moves.specs.declared.fault.MoveFault.TheVariants.{Memory};

use crate::candidate::{Kind, Move};
use crate::choosing::{Found, best_from_route, limit_behind, under};
use crate::fault::MoveFault;
use crate::sizes::route_count;
use rayon::prelude::*;
use segments::PlanTrees;
use std::alloc::{AllocError, Global};
use std::thread::Threads;

/// The best of the moves of each first route under a limit, in order, from several threads.
fn best_of_routes<R: Threads + Sync>(
    rt: &R,
    alloc: Global,
    trees: &PlanTrees<'_>,
    kind: Kind,
    limit: Option<i64>,
) -> Result<Vec<Found>, AllocError>
    requires { AreOfPlan trees.now }
    ensures { IfOk result (λ v. AllZip
        (λ a best. IsBestInRange (problem_of trees.now) (visits_of trees.now) kind [] a
        (a + 1) limit best) (range_with_len 0 (length (visits_of trees.now))) v.items) }
{
    // the moves of one route are work enough for a thread
    (0..route_count(trees))
        .into_par_iter()
        .with_min_len(1)
        .map(
            |route: u16| -> Found
                requires { AreOfPlan trees.now }
                ensures { IsBestInRange (problem_of trees.entry.now)
                    (visits_of trees.entry.now) kind [] route (route + 1) limit result }
            { best_from_route(trees, kind, route, limit) },
        )
        .collect(rt, alloc)
}

/// What `best_under` answers, sought in several threads. `Memory` where memory was refused.
pub fn best_under_parallel<R: Threads + Sync>(
    rt: &R,
    alloc: Global,
    trees: &PlanTrees<'_>,
    kind: Kind,
    limit: Option<i64>,
) -> Result<Option<(Move, i64)>, MoveFault>
    requires { AreOfPlan trees.now }
    ensures best { IfOk result (IsBestUnder (problem_of trees.now) (visits_of trees.now) kind
        limit) }
    ensures memory { IfErr result (λ e. e ≡ Memory) }
{
    let pieces = best_of_routes(rt, alloc, trees, kind, limit)?;
    let mut best = None;
    for piece in &pieces {
        best = under(limit_behind(best, limit), *piece).or(best);
    }
    Ok(best)
}

/// The least value of the moves of a kind, in tenths, with the first move that has it, sought in
/// several threads; `None` where no move of the kind has a value. `Memory` where memory was refused.
pub fn best_parallel<R: Threads + Sync>(
    rt: &R,
    alloc: Global,
    trees: &PlanTrees<'_>,
    kind: Kind,
) -> Result<Option<(Move, i64)>, MoveFault>
    requires { AreOfPlan trees.now }
    ensures best { IfOk result (IsBest (problem_of trees.now) (visits_of trees.now) kind) }
    ensures memory { IfErr result (λ e. e ≡ Memory) }
{
    best_under_parallel(rt, alloc, trees, kind, None)
}
