//! What is to be priced at a leaf.

ghost use Rattle.std.specs.Prelude.{◌≡◌, IfOk};
ghost use Rattle.leaf_work.specs.Children.{IsTaskAt};

use crate::row_prices::rows_within;
use labelling::PricingTask;
use pooled_routes::Trial;
use price_way::{ChildStart, PricingState, RoutePool};
use priced_sets::{PricedSet, PricedSets};
use prices::Priced;
use solomon_reader::{Instance, MOST_PRICE};
use std::alloc::AllocError;

/// Of these sets those that may have their prices.
fn sets_at<'i>(
    state: &mut PricingState<'_>,
    instance: &'i Instance,
    wanted: &[PricedSet],
) -> Result<PricedSets<'i>, AllocError>
    ensures { IfOk result (λ s. s.problem ≡ instance.now) }
{
    let alloc = state.alloc;
    if wanted.is_empty() {
        return Ok(PricedSets::none(alloc, instance));
    }
    let search = state.set_search()?;
    PricedSets::of(alloc, instance, search.needed(), wanted)
}

/// The prices of a trial at a leaf, and those of the pool's cuts, which stand in their order, as far as these may have
/// them. Customers' prices are cut so that each is in its range together with those of the cuts.
fn task_at<'i>(
    pool: &RoutePool,
    state: &mut PricingState<'_>,
    leaf: &Priced<'i>,
    trial: &Trial,
    prices: &[u64],
) -> Result<PricingTask<'i>, AllocError>
    ensures { IfOk result (IsTaskAt leaf.now) }
{
    let instance = leaf.instance();
    let wanted = pool.cuts.priced_sets(prices)?;
    let sets = sets_at(state, instance, wanted.as_slice())?;
    let wanted = pool.cuts.priced_rows(prices)?;
    let most = MOST_PRICE - sets.sum();
    let (rows, most) = rows_within(state.alloc, instance, wanted.as_slice(), most)?;
    let prices = trial.prices_within(state.alloc, instance, most)?;
    leaf.task().with_rows(prices, sets, rows)
}

/// The prices of a trial at a leaf, those of the pool's cuts among them.
pub(crate) fn trial_task<'i>(
    pool: &RoutePool,
    state: &mut PricingState<'_>,
    leaf: &Priced<'i>,
    trial: &Trial,
) -> Result<PricingTask<'i>, AllocError>
    ensures { IfOk result (IsTaskAt leaf.now) }
{
    let prices = trial.cut_prices(state.alloc)?;
    task_at(pool, state, leaf, trial, prices.as_slice())
}

/// The prices of the trial with which a child starts, at the child.
pub(crate) fn start_task<'i>(
    pool: &RoutePool,
    state: &mut PricingState<'_>,
    child: &Priced<'i>,
    start: &ChildStart,
    trial: &Trial,
) -> Result<PricingTask<'i>, AllocError>
    ensures { IfOk result (IsTaskAt child.now) }
{
    let prices = trial.cut_prices(state.alloc)?;
    let prices = pool
        .cuts
        .by_number(start.cuts.as_slice(), prices.as_slice())?;
    task_at(pool, state, child, trial, prices.as_slice())
}
