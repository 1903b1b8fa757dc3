//! The tree below a leaf.

ghost use Rattle.std.specs.Prelude.{◌≡◌, ◌+◌, ◌≤◌, false, [], IfOk, IfNone, IfSome, MatchOption, OnOk};
ghost use Rattle.solomon_reader.specs.Bound.{ceiling_of};
ghost use Rattle.closing.specs.Growing.{Grows, IsGrowth, IsSameTree, Splits, target_of};

use crate::bare::{bare_leaf, bare_raised};
use crate::growth::Growth;
use labelling::LabelFault;
use leaf_work::{
    ChildStart, Children, Effort, Goal, PricingState, Raised, RoutePool, SplitOrDecided,
    counted_routes, goal_of, met_plan, raise, split_or_decide,
};
use prices::Priced;
use schedule::Feasible;
use std::alloc::AllocError;

/// The most pricings at the root.
const ROOT_PRICINGS: u32 = 100;

/// How far the prices of a leaf are raised: to the least cost known, or above the ceiling.
fn goal_at(leaf: &Priced<'_>, growth: &Growth<'_>) -> Goal {
    let cost = growth.best.as_ref().map(|plan| plan.cost());
    let routes = growth.best.as_ref().map(|plan| plan.routes());
    let effort = Effort {
        root_pricings: ROOT_PRICINGS,
        sets: 0,
        rows: 0,
        labels: None,
        work: u64::MAX,
    };
    let counted = counted_routes(growth.instance, routes);
    goal_of(leaf, cost, counted, growth.target(), effort)
}

/// Takes the routes that make up the prices raised last where they are a plan that is cheaper than the
/// best.
fn offer_routes(growth: &mut Growth<'_>, pool: &RoutePool) -> Result<(), AllocError>
    requires growth { IsGrowth growth.old }
    requires going { growth.old.is_stopped ≡ false }
    ensures growth { IsGrowth growth.new }
    ensures same { IsSameTree growth.old growth.new }
    ensures least { target_of growth.new ≤ target_of growth.old }
{
    if let Some(plan) = met_plan(growth.instance, pool)? {
        growth.offer(plan);
    }
    Ok(())
}

/// Takes the plan of a leaf whose region leaves no arc open where it is cheaper than the best, and lists the leaf, whose
/// value is the plan's cost, or above the ceiling without a plan.
fn list_decided<'i>(
    decided: &Priced<'i>,
    plan: Option<Feasible<'i>>,
    growth: &mut Growth<'i>,
) -> Result<(), AllocError>
    requires growth { IsGrowth growth.old }
    requires going { growth.old.is_stopped ≡ false }
    requires own { decided.now.problem ≡ growth.old.instance.now }
    requires no_sets { decided.now.sets ≡ [] }
    requires no_rows { decided.now.rows ≡ [] }
    requires feasible { IfSome plan (λ f. f.problem ≡ growth.old.instance.now) }
    requires value { MatchOption plan (ceiling_of growth.old.instance.now + 1 ≤ decided.now.value)
        (λ f. decided.now.value ≡ f.cost) }
    ensures growth { OnOk result (IsGrowth growth.new) }
    ensures grows { OnOk result (Grows decided.now.neighbours decided.now.region growth.old
        growth.new) }
    ensures leaves { OnOk result (growth.new.leaves ≡ growth.old.leaves) }
    ensures least { target_of growth.new ≤ target_of growth.old }
{
    if let Some(plan) = plan {
        growth.offer(plan);
    }
    growth.lay_aside(decided)
}

/// Takes the routes met where they are a cheaper plan, and lists a leaf whose value reaches the target.
/// Splits another by the arc that the routes met leave most open, as long as there may be more leaves,
/// and answers the children; or lists the leaf.
fn work_at<'i>(
    raised: &Raised<'i>,
    growth: &mut Growth<'i>,
    pool: &mut RoutePool,
    state: &mut PricingState<'_>,
) -> Result<Option<Children<'i>>, AllocError>
    requires growth { IsGrowth growth.old }
    requires going { growth.old.is_stopped ≡ false }
    requires own { raised.now.priced.problem ≡ growth.old.instance.now }
    requires no_sets { raised.now.priced.sets ≡ [] }
    requires no_rows { raised.now.priced.rows ≡ [] }
    ensures growth { OnOk result (IsGrowth growth.new) }
    ensures listed { IfOk result (λ found. IfNone found
        (Grows raised.now.priced.neighbours raised.now.priced.region growth.old growth.new)) }
    ensures leaves { IfOk result (λ found. IfNone found (growth.new.leaves ≡ growth.old.leaves)) }
    ensures split { IfOk result (λ found. IfSome found
        (Splits raised.now.priced growth.old growth.new)) }
    ensures least { target_of growth.new ≤ target_of growth.old }
{
    offer_routes(growth, pool)?;
    let leaf = &raised.priced;
    if leaf.value() >= i128::from(growth.target()) {
        growth.lay_aside(leaf)?;
        return Ok(None);
    }
    let children = match split_or_decide(raised, pool, state, None) {
        Ok(SplitOrDecided::Split(children)) => children,
        Ok(SplitOrDecided::Decided(decided, plan)) => {
            list_decided(&decided, plan, growth)?;
            return Ok(None);
        }
        Err(LabelFault::Memory) => return Err(AllocError),
        Err(LabelFault::LabelLimit) => unreachable!(),
    };
    if growth.leaves >= growth.limit {
        growth.stop_at(leaf)?;
        return Ok(None);
    }
    growth.split();
    Ok(Some(children))
}

/// Raises the value of a leaf, and works at it with the prices of customers alone.
fn raise_and_work<'i>(
    leaf: Priced<'i>,
    start: Option<ChildStart>,
    growth: &mut Growth<'i>,
    pool: &mut RoutePool,
    state: &mut PricingState<'_>,
) -> Result<Option<Children<'i>>, AllocError>
    requires growth { IsGrowth growth.old }
    requires going { growth.old.is_stopped ≡ false }
    requires own { leaf.problem ≡ growth.old.instance.now }
    ensures growth { OnOk result (IsGrowth growth.new) }
    ensures listed { IfOk result (λ found. IfNone found
        (Grows leaf.entry.neighbours leaf.entry.region growth.old growth.new)) }
    ensures leaves { IfOk result (λ found. IfNone found (growth.new.leaves ≡ growth.old.leaves)) }
    ensures split { IfOk result (λ found. IfSome found (Splits leaf.entry growth.old growth.new)) }
    ensures least { target_of growth.new ≤ target_of growth.old }
{
    let goal = goal_at(&leaf, growth);
    let raised = raise(pool, state, leaf, start, &goal);
    let bare = bare_raised(growth.alloc, raised)?;
    work_at(&bare, growth, pool, state)
}

/// Lists the tree below a leaf, whose ascent starts where it was tried as a child, if it was. It grows first
/// where the leaf's arc is forbidden: with the best plan at hand, that costs the fewest leaves.
pub(crate) fn grow<'i>(
    leaf: Priced<'i>,
    start: Option<ChildStart>,
    growth: &mut Growth<'i>,
    pool: &mut RoutePool,
    state: &mut PricingState<'_>,
) -> Result<(), AllocError>
    requires growth { IsGrowth growth.old }
    requires own { leaf.problem ≡ growth.old.instance.now }
    ensures growth { OnOk result (IsGrowth growth.new) }
    ensures grows { OnOk result (Grows leaf.entry.neighbours leaf.entry.region growth.old
        growth.new) }
    ensures more { OnOk result (growth.old.leaves ≤ growth.new.leaves) }
    ensures least { target_of growth.new ≤ target_of growth.old }
{
    if growth.is_stopped {
        let leaf = bare_leaf(growth.alloc, leaf)?;
        return growth.lay_aside(&leaf);
    }
    let Some(children) = raise_and_work(leaf, start, growth, pool, state)? else {
        return Ok(());
    };
    grow(children.unused, children.unused_start, growth, pool, state)?;
    grow(children.used, children.used_start, growth, pool, state)?;
    growth.list_split(children.arc)?;
    Ok(())
}
