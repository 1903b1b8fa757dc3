//! The trees of a plan.

ghost use Rattle.std.specs.Prelude.{◌≡◌, IfOk};
ghost use Rattle.segments.specs.PlanTrees.{problem_of};
ghost use Rattle.moves.specs.Trees.{visits_of, AreOfPlan};

use schedule::Feasible;
use segments::{PlanTrees, TreeFault};
use std::alloc::Global;

/// The trees of a plan, as the calls of this crate take them, or `Memory`.
pub fn trees_of<'i>(alloc: Global, plan: &Feasible<'i>) -> Result<PlanTrees<'i>, TreeFault>
    ensures problem { IfOk result (λ t. problem_of t ≡ plan.now.problem) }
    ensures routes { IfOk result (λ t. visits_of t ≡ plan.now.routes) }
    ensures plan { IfOk result (λ t. AreOfPlan t) }
{
    let trees = PlanTrees::new(alloc, plan)?;
    Ok(trees)
}
