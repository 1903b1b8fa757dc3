//! Rounds of quick searches, each with an exact pricing at its end.

ghost use Rattle.std.specs.Prelude.{◌≡◌, ◌≢◌, IfOk, IfSome};
ghost use Rattle.prices.specs.Narrowing.{IsPricedAt};
ghost use Rattle.leaf_work.specs.Children.{IsTaskAt};

use crate::pricing::price;
use crate::tasks::trial_task;
use fronts::{Payment, Task};
use labelling::{LabelFault, PricingTask};
use pooled_routes::Trial;
use price_way::{Ascent, Goal, LeafCuts, PricingState, QuickWay, RoutePool, WHOLE, WIDEST};
use prices::Priced;
use quick_routes::{QuickRoutes, Width, quick_routes};
use std::alloc::AllocError;

/// The most steps of a round.
const MOST_STEPS: u32 = 10_000;

/// After this many steps that gain less than a thousandth the searches get wider.
const STEPS_BETWEEN: u32 = 10;

/// The most searches for the scale of prices.
const SCALINGS: u32 = 3;

/// A scale that falls by less than this many millionths is found.
const LEAST_FALL: i64 = 1_000;

/// The pricing that ends a round may take this many times the labels of another one.
const LABELS_OF_ROUND: usize = 4;

/// The routes that a quick search of this width finds, or of that which is the next one's; it leaves rows out.
fn routes_at(
    state: &mut PricingState<'_>,
    priced: &PricingTask<'_>,
    width: Option<Width>,
) -> Result<QuickRoutes, AllocError>
    requires { priced.now.instance.now ≡ state.old.nearness.now.instance.now }
{
    priced.instance.law_of_limits();
    let payment = Payment {
        prices: priced.prices.as_slice(),
        sets: priced.sets.as_slice(),
        rows: &[],
    };
    let task = Task::new(state.alloc, state.nearness, &priced.region, payment)?;
    if state.quick.is_none() {
        state.quick = Some(QuickWay::new(&task)?);
    }
    let Some(way) = &mut state.quick else {
        unreachable!()
    };
    let found = quick_routes(&task, &way.likely, width.unwrap_or(way.width()))?;
    if width.is_none() {
        way.work = found.work;
    }
    Ok(found)
}

/// Searches for routes at these prices, and adds those to the pool whose reduced cost is below this number; answers
/// the least reduced cost that was found, the greatest number where none was.
fn search(
    pool: &mut RoutePool,
    state: &mut PricingState<'_>,
    task: &PricingTask<'_>,
    most: i64,
    width: Option<Width>,
) -> Result<i64, AllocError> {
    let instance = task.instance;
    if !state.nearness.is_for(instance, task.neighbours) {
        return Ok(i64::MAX);
    }
    let found = routes_at(state, task, width)?;
    state.count_work(found.work);
    for route in &found.routes {
        if route.reduced_cost < most {
            pool.add(instance, route.stops.as_slice())?;
        }
    }
    Ok(
        found
            .routes
            .first()
            .map_or(i64::MAX, |route| route.reduced_cost),
    )
}

/// The prices of a task's customers, and behind them those of the pool's sets.
fn rows_of(pool: &RoutePool, task: &PricingTask<'_>) -> Result<Vec<i64>, AllocError> {
    let priced = LeafCuts {
        sets: task.sets.as_slice(),
        rows: task.rows.as_slice(),
    };
    pool.cuts.rows_of(task.prices.as_slice(), priced)
}

/// Whether quick searches may pay at a leaf: at the root, where an exact pricing is no small work.
pub(crate) fn may_pay(state: &PricingState<'_>, leaf: &Priced<'_>) -> bool {
    let customers = u64::from(leaf.instance().customer_count());
    let least = customers.saturating_mul(customers).saturating_mul(8);
    leaf.region().is_root() && state.kept.work >= least
}

/// Whether the next step of an ascent is a round of quick searches: at the root, where an exact pricing is
/// dear. One search tells how much work it is.
pub(crate) fn is_quick_next(
    pool: &mut RoutePool,
    state: &mut PricingState<'_>,
    leaf: &Priced<'_>,
    goal: &Goal,
) -> Result<bool, AllocError> {
    let customers = u64::from(leaf.instance().customer_count());
    let exact = state.kept.work;
    if !may_pay(state, leaf) {
        return Ok(false);
    }
    if state.quick.is_none() {
        search(pool, state, leaf.task(), 0, None)?;
    }
    let are_few = exact.saturating_mul(customers / 5) > goal.work;
    Ok(match &mut state.quick {
        Some(way) => way.is_next(exact, are_few),
        None => false,
    })
}

/// What a quick search tells of the prices of a trial.
#[derive(Drop)]
pub(crate) struct Searched {
    /// The prices of customers, and behind them those of the pool's sets.
    pub(crate) rows: Vec<i64>,
    /// The least reduced cost that is known.
    pub(crate) least: i64,
    /// Whether the search found a route that the prices don't keep to.
    is_found: bool,
}

/// Searches for routes at the prices of a trial.
pub(crate) fn search_at(
    pool: &mut RoutePool,
    state: &mut PricingState<'_>,
    leaf: &Priced<'_>,
    trial: &Trial,
) -> Result<Searched, AllocError> {
    let task = trial_task(pool, state, leaf, trial)?;
    let rows = rows_of(pool, &task)?;
    let known = pool.least(rows.as_slice())?;
    let most = trial.vehicle_price.value().min(known);
    let found = search(pool, state, &task, most, None)?;
    Ok(Searched {
        rows,
        least: found.min(known),
        is_found: found < most,
    })
}

/// A serious or a null step by a quick search alone; whether it found a route that the prices don't keep to.
fn quick_step(
    pool: &mut RoutePool,
    state: &mut PricingState<'_>,
    ascent: &mut Ascent,
    leaf: &Priced<'_>,
) -> Result<bool, AllocError> {
    let trial = ascent.trial(pool, state)?;
    let searched = search_at(pool, state, leaf, &trial)?;
    ascent.take_in_quick(pool, &trial, searched.rows, searched.least);
    Ok(searched.is_found)
}

/// Lets searches look more widely, unless they can't; whether they do. The centre is judged by a wider one,
/// and the rise begins anew.
fn widen(
    pool: &mut RoutePool,
    state: &mut PricingState<'_>,
    ascent: &mut Ascent,
    leaf: &Priced<'_>,
) -> Result<bool, AllocError> {
    let is_wider = match &mut state.quick {
        Some(way) => way.widen(),
        None => false,
    };
    if is_wider {
        let task = task_of_centre(pool, state, ascent, leaf, WHOLE)?;
        let known = pool.least(rows_of(pool, &task)?.as_slice())?;
        let found = search(pool, state, &task, 0, None)?;
        let rise = pool.rise().saturating_mul(3);
        ascent.go_on_from(pool, found.min(known), rise);
    }
    Ok(is_wider)
}

/// Steps by quick searches alone, for this much work, or until the widest of them lead no further.
fn quick_steps(
    pool: &mut RoutePool,
    state: &mut PricingState<'_>,
    ascent: &mut Ascent,
    leaf: &Priced<'_>,
    work: u64,
) -> Result<(), AllocError> {
    let end = state.work().saturating_add(work);
    let mut mark = ascent.centre.merit;
    let mut made: u32 = 0;
    for _ in 0..MOST_STEPS {
        if state.work() >= end || ascent.is_at_target() {
            return Ok(());
        }
        let is_found = quick_step(pool, state, ascent, leaf)?;
        made = made.saturating_add(1);
        let growth = ascent.centre.merit.saturating_sub(mark);
        let is_slow = made >= STEPS_BETWEEN && growth < mark / 1_000;
        if is_slow || !is_found && made > 3 {
            if !widen(pool, state, ascent, leaf)? {
                return Ok(());
            }
            made = STEPS_BETWEEN;
        }
        if made >= STEPS_BETWEEN {
            mark = ascent.centre.merit;
            made = 0;
        }
    }
    Ok(())
}

/// The centre's prices at a leaf, multiplied by this many millionths.
pub(crate) fn task_of_centre<'i>(
    pool: &RoutePool,
    state: &mut PricingState<'_>,
    ascent: &Ascent,
    leaf: &Priced<'i>,
    scale: i64,
) -> Result<PricingTask<'i>, AllocError>
    ensures { IfOk result (IsTaskAt leaf.now) }
{
    let most = i128::from(i64::MAX);
    let mut prices = Vec::new(state.alloc);
    for price in &ascent.centre.prices {
        let product = i128::from(*price).saturating_mul(i128::from(scale.min(WHOLE)));
        prices.push((product / i128::from(WHOLE)).clamp(-most, most) as i64)?;
    }
    let trial = ascent.at(state.alloc, prices.as_slice())?;
    trial_task(pool, state, leaf, &trial)
}

/// By how many millionths the centre's prices are to be multiplied so that no route pays more than it costs,
/// as far as the widest searches know.
fn scale_of(
    pool: &mut RoutePool,
    state: &mut PricingState<'_>,
    ascent: &Ascent,
    leaf: &Priced<'_>,
) -> Result<i64, AllocError> {
    let mut scale = pool.scale_at(ascent.centre.prices.as_slice())?;
    for _ in 0..SCALINGS {
        let task = task_of_centre(pool, state, ascent, leaf, scale)?;
        search(pool, state, &task, 0, Some(WIDEST))?;
        let next = pool.scale_at(ascent.centre.prices.as_slice())?;
        let is_found = next.saturating_add(LEAST_FALL) >= scale;
        scale = next;
        if is_found {
            return Ok(scale);
        }
    }
    Ok(scale)
}

/// Learns from the pricing that ended a round, and goes on from the centre that wasn't scaled.
fn end_round(
    pool: &mut RoutePool,
    state: &mut PricingState<'_>,
    ascent: &mut Ascent,
    leaf: &Priced<'_>,
    next: &Option<Priced<'_>>,
    rise: i64,
) -> Result<(), AllocError> {
    let mut lack = 0;
    let mut is_raised = false;
    if let Some(next) = next {
        pool.add(next.instance(), next.least().route.as_slice())?;
        let rows = rows_of(pool, next.task())?;
        lack = WHOLE.saturating_sub(pool.scale_at(rows.as_slice())?);
        is_raised = next.value() > leaf.value();
    }
    if let Some(way) = &mut state.quick {
        way.learn(is_raised);
        if next.is_some() {
            way.learn_lack(lack);
        }
    }
    let known = pool.least(ascent.centre.prices.as_slice())?;
    ascent.go_on_from(pool, known, rise);
    Ok(())
}

/// Steps by quick searches alone; then an exact pricing of the prices to which they came, scaled so that the
/// routes met pay at most what they cost. Nothing where labels ran out.
pub(crate) fn quick_round<'i>(
    pool: &mut RoutePool,
    state: &mut PricingState<'_>,
    ascent: &mut Ascent,
    leaf: &Priced<'i>,
    goal: &Goal,
) -> Result<Option<Priced<'i>>, AllocError>
    ensures { IfOk result (λ found. IfSome found (IsPricedAt leaf.now.region leaf.now)) }
{
    let (has_begun, margin) = match &state.quick {
        Some(way) => (way.has_begun, way.margin),
        None => return Ok(None),
    };
    let work = if has_begun {
        state.kept.work
    } else {
        goal.work / 10 * 3
    };
    quick_steps(pool, state, ascent, leaf, work)?;
    let scale = scale_of(pool, state, ascent, leaf)?;
    let scale = scale.min(WHOLE).saturating_sub(margin);
    let task = task_of_centre(pool, state, ascent, leaf, scale)?;
    let labels = match goal.labels {
        Some(labels) => Some(labels.saturating_mul(LABELS_OF_ROUND)),
        None => None,
    };
    let next = match price(pool, state, task, labels) {
        Ok(next) => Some(next),
        Err(LabelFault::LabelLimit) => None,
        Err(LabelFault::Memory) => return Err(AllocError),
    };
    end_round(pool, state, ascent, leaf, &next, goal.rise)?;
    Ok(next)
}
