//! Descents: moves that make a plan cheaper, until there is none.

ghost use Rattle.std.specs.Prelude.{◌≡◌, IfOk, IfSome, IfNone, OnOk};
ghost use Rattle.solomon_reader.specs.Moves.{IsLocalOptimum};
ghost use Rattle.segments.specs.PlanTrees.{problem_of};
ghost use Rattle.moves.specs.Trees.{visits_of, AreOfPlan};
ghost use Rattle.search.specs.Searching.{IsFirstGain, IsLowered, DescendsTo};

use crate::fault::SearchFault;
use moves::{KINDS, Move, MoveFault, best_under, best_under_parallel, moved, trees_of};
use schedule::Feasible;
use segments::PlanTrees;
use std::alloc::Global;
use std::thread::Threads;

/// From this many customers on a look through the moves is work enough to be shared by threads.
const SHARED_FROM: u16 = 200;

/// The best move of the first kind that makes the plan cheaper, or `None` where no single move does.
fn first_gain(trees: &PlanTrees<'_>) -> Option<Move>
    requires { AreOfPlan trees.now }
    ensures gain { IfSome result (λ m. IsFirstGain (problem_of trees.now) (visits_of trees.now) m) }
    ensures none { IfNone result (IsLocalOptimum (problem_of trees.now) (visits_of trees.now)) }
{
    for kind in KINDS {
        if let Some((candidate, _)) = best_under(trees, kind, Some(0)) {
            return Some(candidate);
        }
    }
    None
}

/// What `first_gain` answers, sought in several threads.
fn first_gain_parallel<W: Threads + Sync>(
    rt: &W,
    alloc: Global,
    trees: &PlanTrees<'_>,
) -> Result<Option<Move>, SearchFault>
    requires { AreOfPlan trees.now }
    ensures gain { IfOk result (λ o. IfSome o (λ m. IsFirstGain (problem_of trees.now)
        (visits_of trees.now) m)) }
    ensures none { IfOk result (λ o. IfNone o (IsLocalOptimum (problem_of trees.now)
        (visits_of trees.now))) }
{
    for kind in KINDS {
        let Ok(best) = best_under_parallel(rt, alloc, trees, kind, Some(0)) else {
            return Err(SearchFault::Memory);
        };
        if let Some((candidate, _)) = best {
            return Ok(Some(candidate));
        }
    }
    Ok(None)
}

/// The plan after a move that makes it cheaper, given its trees.
fn after_gain<'i>(
    alloc: Global,
    plan: &Feasible<'i>,
    trees: &PlanTrees<'i>,
    candidate: &Move,
) -> Result<Feasible<'i>, SearchFault>
    requires trees { AreOfPlan trees.now }
    requires problem { problem_of trees.now ≡ plan.now.problem }
    requires routes { visits_of trees.now ≡ plan.now.routes }
    requires gain { IsFirstGain plan.now.problem plan.now.routes candidate.now }
    ensures { IfOk result (IsLowered plan.now) }
{
    match moved(alloc, plan, trees, candidate) {
        Ok(after) => Ok(after),
        Err(MoveFault::Memory) => Err(SearchFault::Memory),
        Err(MoveFault::NotFeasible) => unreachable!(),
    }
}

/// The plan after the best move of the first kind that makes it cheaper, or `None` where no single move does.
fn lower<'i>(alloc: Global, plan: &Feasible<'i>) -> Result<Option<Feasible<'i>>, SearchFault>
    ensures lower { IfOk result (λ o. IfSome o (IsLowered plan.now)) }
    ensures none { IfOk result (λ o. IfNone o (IsLocalOptimum plan.now.problem plan.now.routes)) }
{
    let Ok(trees) = trees_of(alloc, plan) else {
        return Err(SearchFault::Memory);
    };
    match first_gain(&trees) {
        Some(candidate) => Ok(Some(after_gain(alloc, plan, &trees, &candidate)?)),
        None => Ok(None),
    }
}

/// What `lower` answers, sought in several threads.
fn lower_parallel<'i, W: Threads + Sync>(
    rt: &W,
    alloc: Global,
    plan: &Feasible<'i>,
) -> Result<Option<Feasible<'i>>, SearchFault>
    ensures lower { IfOk result (λ o. IfSome o (IsLowered plan.now)) }
    ensures none { IfOk result (λ o. IfNone o (IsLocalOptimum plan.now.problem plan.now.routes)) }
{
    let Ok(trees) = trees_of(alloc, plan) else {
        return Err(SearchFault::Memory);
    };
    match first_gain_parallel(rt, alloc, &trees)? {
        Some(candidate) => Ok(Some(after_gain(alloc, plan, &trees, &candidate)?)),
        None => Ok(None),
    }
}

/// Makes the best moves of the first kinds that make the plan cheaper, one after the other, until no
/// kind does. Where memory was refused, the plan that it has come to stays.
pub fn descend(alloc: Global, plan: &mut Feasible<'_>) -> Result<(), SearchFault>
    ensures steps { DescendsTo plan.old plan.new }
    ensures optimum { OnOk result (IsLocalOptimum plan.new.problem plan.new.routes) }
{
    while let Some(next) = lower(alloc, plan)? {
        *plan = next;
    }
    Ok(())
}

/// What `descend` does, by several threads where there are customers enough.
pub fn descend_parallel<W: Threads + Sync>(
    rt: &W,
    alloc: Global,
    plan: &mut Feasible<'_>,
) -> Result<(), SearchFault>
    ensures steps { DescendsTo plan.old plan.new }
    ensures optimum { OnOk result (IsLocalOptimum plan.new.problem plan.new.routes) }
{
    if plan.instance().customer_count() < SHARED_FROM {
        return descend(alloc, plan);
    }
    while let Some(next) = lower_parallel(rt, alloc, plan)? {
        *plan = next;
    }
    Ok(())
}
