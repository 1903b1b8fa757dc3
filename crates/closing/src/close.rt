//! The closing of an instance.

ghost use Rattle.std.specs.Prelude.{◌≡◌, ◌≤◌, IfOk, IfErr, IfSome};
ghost use Rattle.solomon_reader.specs.declared.limits.TheConstants.{MOST_LEAVES, MOST_NEIGHBOURS};
ghost use Rattle.closing.specs.Closing.{IsClosed, IsLeftOpen, IsNoDearer};

use crate::fault::{CloseAloneFault, MOST_CLOSED};
use crate::first::first_plan;
use crate::found::Found;
use crate::growing::grow;
use crate::growth::Growth;
use crate::laws::depth_holds;
use fronts::Nearness;
use labelling::LabelFault;
use leaf_work::{FirstLimits, PricingState, RoutePool, first_leaf};
use schedule::Feasible;
use solomon_reader::Instance;
use std::alloc::Global;

/// Closes an instance of at most `MOST_CLOSED` customers: answers a plan that no plan is cheaper than, or
/// that there is none, with a tree of that bound. It begins with a plan as a run does, takes plans from
/// the routes that the prices lead to, and splits, depth first, the leaves whose value stays below
/// the least cost known, until none is left or the tree has as many leaves as `leaf_limit`, 1 to
/// `MOST_LEAVES`, allows. Each customer has this many neighbours in relaxed routes, at most 15. It works
/// on the caller's thread and waits for nobody.
///
/// `TooLarge` where there are more customers, `LeafLimit` where the tree has that many leaves and its bound is below
/// the cost of a plan, with that cost, if one was found, the bound and the tree, and `Memory`.
pub fn close_alone<'i>(
    alloc: Global,
    instance: &'i Instance,
    neighbours: u32,
    leaf_limit: u32,
) -> Result<Found<'i>, CloseAloneFault>
    requires few { neighbours ≤ MOST_NEIGHBOURS }
    requires some { 1 ≤ leaf_limit }
    requires most { leaf_limit ≤ MOST_LEAVES }
    ensures closed { IfOk result (IsClosed instance.now neighbours leaf_limit) }
    ensures left_open { IfErr result (IsLeftOpen instance.now neighbours leaf_limit) }
{
    close_from(alloc, instance, neighbours, leaf_limit, None)
}

/// What `close_alone` answers where the closing begins with a given plan, if it is cheaper than the one that
/// an insertion builds. `LeafLimit` tells no cost above the given plan's.
pub fn close_from<'i>(
    alloc: Global,
    instance: &'i Instance,
    neighbours: u32,
    leaf_limit: u32,
    start: Option<Feasible<'i>>,
) -> Result<Found<'i>, CloseAloneFault>
    requires few { neighbours ≤ MOST_NEIGHBOURS }
    requires some { 1 ≤ leaf_limit }
    requires most { leaf_limit ≤ MOST_LEAVES }
    requires start { IfSome start (λ f. f.problem ≡ instance.now) }
    ensures closed { IfOk result (IsClosed instance.now neighbours leaf_limit) }
    ensures left_open { IfErr result (IsLeftOpen instance.now neighbours leaf_limit) }
    ensures no_dearer { IfErr result (IsNoDearer instance.now start.entry) }
{
    if instance.customer_count() > MOST_CLOSED {
        return Err(CloseAloneFault::TooLarge);
    }
    let plan = first_plan(alloc, instance, start)?;
    let nearness = Nearness::new(alloc, instance, neighbours)?;
    let limits = FirstLimits {
        root_labels: None,
        labels: None,
        sets: 0,
    };
    let root = match first_leaf(
        alloc,
        &nearness,
        instance,
        neighbours,
        plan.as_ref(),
        limits,
    ) {
        Ok(root) => root,
        Err(LabelFault::Memory) => return Err(CloseAloneFault::Memory),
        Err(LabelFault::LabelLimit) => unreachable!(),
    };
    let mut growth = Growth::new(alloc, instance, leaf_limit, plan);
    let mut pool = RoutePool::of_routes(alloc, instance, growth.routes())?;
    let mut state = PricingState::new(alloc, &nearness);
    grow(root, None, &mut growth, &mut pool, &mut state)?;
    depth_holds();
    let closed = growth.finish(neighbours)?;
    Ok(closed)
}
