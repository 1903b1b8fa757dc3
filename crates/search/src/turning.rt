//! Turns: a portion of ruin and recreate, and a descent from the cheapest plan that it met.

ghost use Rattle.std.specs.Prelude.{◌≡◌, true, IfOk, IfSome};
ghost use Rattle.solomon_reader.specs.Moves.{IsLocalOptimum};
ghost use Rattle.schedule.specs.Solution.{IsSolution};
ghost use Rattle.search.specs.Turning.{IsDescent, IsOptimumBelow};

use crate::descent::{descend, descend_parallel};
use crate::fault::SearchFault;
use crate::held::HeldPlan;
use rand_core::Rng;
use ruin::{Progress, RuinSearch, STEPS_OF_CUSTOMER};
use schedule::Feasible;
use solomon_reader::Instance;
use std::alloc::{AllocError, Global};
use std::thread::Threads;

/// How far a run of turns is: how many were made before the next one, of how many. The next call makes that one whole, or
/// one of its parts.
#[derive(Clone, Copy)]
pub struct Pace {
    /// The turns made.
    pub made: u32,
    /// All turns.
    pub turns: u32,
    /// The parts made of the next turn.
    part: u32,
    /// All its parts.
    parts: u32,
}

impl Pace {
    /// A run of so many turns, some of which were made. A call makes a whole turn. No contract: a pace decides only how
    /// warm a search is and when a call ends.
    pub const fn of_run(made: u32, turns: u32) -> Pace {
        Pace {
            made,
            turns,
            part: 0,
            parts: 1,
        }
    }

    /// A run of one turn.
    pub(crate) const fn alone() -> Pace {
        Pace::of_run(0, 1)
    }

    /// The same where a call makes a part of the next turn, of so many, some of which were made. No contract, as for
    /// `of_run`.
    pub const fn in_parts(self, part: u32, parts: u32) -> Pace {
        Pace {
            part,
            parts,
            ..self
        }
    }

    /// How many calls so many turns take.
    fn calls(self, turns: u32) -> u64 {
        u64::from(turns).saturating_mul(u64::from(self.parts.max(1)))
    }

    /// The progress after so many calls, each of so many steps.
    fn after(self, calls: u64, steps: u64) -> Progress {
        Progress {
            done: calls.saturating_mul(steps),
            whole: self.calls(self.turns).saturating_mul(steps),
        }
    }
}

/// The plan that a descent from another comes to, as `Searcher::descend` makes it. `Memory` where memory was
/// refused.
pub fn descended<'i>(alloc: Global, plan: &Feasible<'i>) -> Result<Feasible<'i>, SearchFault>
    ensures descent { IfOk result (IsDescent plan.now) }
    ensures solution { IfOk result IsSolution }
{
    let mut plan = plan.try_clone()?;
    descend(alloc, &mut plan)?;
    Ok(plan)
}

/// What `descended` answers, as `Searcher::descend_parallel` makes it: a plan that is known as a local optimum.
pub fn descended_parallel<'i, W: Threads + Sync>(
    rt: &W,
    alloc: Global,
    mut plan: Feasible<'i>,
) -> Result<HeldPlan<'i>, SearchFault>
    ensures descent { IfOk result (λ h. IsDescent plan.entry h.plan) }
    ensures optimum { IfOk result (λ h. h.is_optimum ≡ true) }
{
    descend_parallel(rt, alloc, &mut plan)?;
    Ok(HeldPlan {
        plan,
        is_optimum: true,
    })
}

/// The plan that a descent from the cheapest routes of a search comes to, if these are a plan.
pub(crate) fn whole_plan<'i>(
    alloc: Global,
    instance: &'i Instance,
    search: &RuinSearch<'_>,
) -> Result<Option<Feasible<'i>>, SearchFault>
    ensures problem { IfOk result (λ o. IfSome o (λ f. f.problem ≡ instance.now)) }
    ensures optimum { IfOk result (λ o. IfSome o (λ f. IsLocalOptimum f.problem f.routes)) }
{
    let Some(routes) = search.least_routes(alloc)? else {
        return Ok(None);
    };
    match Feasible::check(instance, routes) {
        Ok(plan) => Ok(Some(descended(alloc, &plan)?)),
        Err(_) => Ok(None),
    }
}

/// Lets a search do the work of a turn, or of its part. No contract: its routes are checked.
pub(crate) fn work<R: Rng>(
    search: &mut RuinSearch<'_>,
    instance: &Instance,
    random: &mut R,
    pace: Pace,
) {
    let turn = STEPS_OF_CUSTOMER.saturating_mul(u64::from(instance.customer_count()));
    let steps = turn / u64::from(pace.parts.max(1));
    let calls = pace.calls(pace.made).saturating_add(u64::from(pace.part));
    let from = pace.after(calls, steps);
    let to = pace.after(calls.saturating_add(1), steps);
    search.search(random, steps, from, to);
}

/// A search that begins with the routes of a plan.
fn begun<'i>(alloc: Global, plan: &Feasible<'i>) -> Result<RuinSearch<'i>, AllocError> {
    let mut search = RuinSearch::new(alloc, plan.instance())?;
    search.begin_with(plan.routes());
    Ok(search)
}

/// The cheaper of a plan and of the one that a search comes to; of equal ones the first.
fn cheaper<'i>(
    alloc: Global,
    search: &RuinSearch<'_>,
    near: Feasible<'i>,
) -> Result<Feasible<'i>, SearchFault>
    requires { IsLocalOptimum near.problem near.routes }
    ensures { IfOk result (IsOptimumBelow near.entry) }
{
    let cost = near.cost().get();
    if search.least_cost().is_none_or(|least| least >= cost) {
        return Ok(near);
    }
    match whole_plan(alloc, near.instance(), search)? {
        Some(found) if found.cost().get() < cost => Ok(found),
        _ => Ok(near),
    }
}

/// The plan that a turn comes to from a plan that no single move makes cheaper: that plan, or a cheaper one
/// that the search meets, which begins with it where none has begun. Where memory is refused, the search is
/// lost.
pub(crate) fn search_from<'i, R: Rng>(
    alloc: Global,
    near: Feasible<'i>,
    ruins: &mut Option<RuinSearch<'i>>,
    random: &mut R,
    pace: Pace,
) -> Result<Feasible<'i>, SearchFault>
    requires { IsLocalOptimum near.problem near.routes }
    ensures { IfOk result (IsOptimumBelow near.entry) }
{
    let mut search = match ruins.take() {
        Some(search) => search,
        None => begun(alloc, &near)?,
    };
    work(&mut search, near.instance(), random, pace);
    let found = cheaper(alloc, &search, near)?;
    *ruins = Some(search);
    Ok(found)
}
