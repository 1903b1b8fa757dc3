//! The children of a leaf, with their prices.

ghost use Rattle.std.specs.Prelude.{◌≡◌, ◌≢◌, None, IfOk, IfErr, IfNone, IfSome};
ghost use Rattle.branching.specs.Choosing.{IsDecided};
ghost use Rattle.labelling.specs.declared.fault.LabelFault.TheVariants.{LabelLimit};
ghost use Rattle.prices.specs.Narrowing.{IsNarrower, IsPricedAt};
ghost use Rattle.leaf_work.specs.Children.{AreChildren};

use crate::pricing::{price, task_without_cuts};
use crate::trying::{TriedArc, best_arc};
use branching::{Arc, Region};
use labelling::LabelFault;
use pooled_routes::Child;
use price_way::{Ascent, ChildStart, PricingState, RoutePool};
use prices::{Priced, child_regions, high_prices};
use std::alloc::{AllocError, Global};

/// The children of a leaf by an arc, with their prices.
#[derive(Drop)]
pub struct Children<'i> {
    /// The arc that the leaf is split by.
    pub arc: Arc,
    /// The child in which the arc is required.
    pub used: Priced<'i>,
    /// The child in which it is forbidden.
    pub unused: Priced<'i>,
    /// Where the ascent at the first child starts, if it is known.
    pub used_start: Option<ChildStart>,
    /// Where the ascent at the second one starts.
    pub unused_start: Option<ChildStart>,
}

/// The leaf's prices at a child's region, priced anew only where the route of the least reduced cost
/// isn't allowed there.
fn price_same<'i>(
    pool: &mut RoutePool,
    state: &mut PricingState<'_>,
    leaf: &Priced<'i>,
    region: &Region,
    labels: Option<usize>,
) -> Result<Priced<'i>, LabelFault>
    requires { IsNarrower region.now leaf.now.region }
    ensures priced { IfOk result (IsPricedAt region.now leaf.now) }
    ensures unlimited { IfErr result (λ e. e ≡ LabelLimit → labels ≢ None) }
{
    match leaf.narrowed(region)? {
        Some(child) => Ok(child),
        None => price(pool, state, leaf.task().at(region)?, labels),
    }
}

/// High prices at a leaf.
fn price_high<'i>(
    pool: &mut RoutePool,
    state: &mut PricingState<'_>,
    leaf: &Priced<'i>,
    labels: Option<usize>,
) -> Result<Priced<'i>, LabelFault>
    ensures priced { IfOk result (IsPricedAt leaf.now.region leaf.now) }
    ensures unlimited { IfErr result (λ e. e ≡ LabelLimit → labels ≢ None) }
{
    let prices = high_prices(state.alloc, leaf.instance())?;
    let task = task_without_cuts(state.alloc, leaf, prices)?;
    price(pool, state, task, labels)
}

/// The leaf's prices at a child's region; or where the child has no relaxed route, prices whose value is
/// above every plan's cost.
fn price_child<'i>(
    pool: &mut RoutePool,
    state: &mut PricingState<'_>,
    leaf: &Priced<'i>,
    region: &Region,
    labels: Option<usize>,
) -> Result<Priced<'i>, LabelFault>
    requires { IsNarrower region.now leaf.now.region }
    ensures priced { IfOk result (IsPricedAt region.now leaf.now) }
    ensures unlimited { IfErr result (λ e. e ≡ LabelLimit → labels ≢ None) }
{
    let child = price_same(pool, state, leaf, region, labels)?;
    if child.least().value.is_some() {
        return Ok(child);
    }
    price_high(pool, state, &child, labels)
}

/// The stops for `choose` of a leaf's region: along the arc of the greatest score, or where none was
/// tried, along those that the routes of the pool use.
fn stops_along(
    alloc: Global,
    leaf: &Priced<'_>,
    pool: &RoutePool,
    tried: &Option<TriedArc>,
) -> Result<Vec<u16>, AllocError> {
    let instance = leaf.instance();
    match tried {
        Some(tried) => {
            let between = instance.customer_count() + 1;
            let stops = [between, tried.arc.from, tried.arc.to, between];
            Vec::from_slice(alloc, &stops)
        }
        None => pool.arcs_to_split(instance),
    }
}

/// Where the ascents of the children by an arc start, after one at their leaf: the one in which it is required, and
/// the other.
fn starts_of(
    pool: &RoutePool,
    ascent: Option<&Ascent>,
    arc: Arc,
    tried: Option<TriedArc>,
) -> Result<(Option<ChildStart>, Option<ChildStart>), AllocError> {
    let Some(ascent) = ascent else {
        return Ok((None, None));
    };
    let (used, unused) = match tried {
        Some(tried) => tried.into_prices(arc),
        None => (None, None),
    };
    let used = pool.start_of(ascent, arc, Child::Used, used)?;
    let unused = pool.start_of(ascent, arc, Child::Unused, unused)?;
    Ok((Some(used), Some(unused)))
}

/// The children of a leaf, with its prices, or with high ones where a child has no relaxed route: by the arc that
/// promises most in a trial over the routes of the pool, from where the ascent at the leaf has ended, or where none is
/// worth one by that which they leave most open; nothing where every arc that the leaf's region allows is required. That
/// no value falls is for the book to see. At most this many labels may be active at once in a pricing, if there is a
/// limit; `LabelLimit` where they don't suffice, and `Memory`.
pub(crate) fn children_of<'i>(
    leaf: &Priced<'i>,
    ascent: Option<&Ascent>,
    pool: &mut RoutePool,
    state: &mut PricingState<'_>,
    labels: Option<usize>,
) -> Result<Option<Children<'i>>, LabelFault>
    ensures decided { IfOk result (λ found. IfNone found (IsDecided leaf.now.region)) }
    ensures children { IfOk result (λ found. IfSome found (AreChildren leaf.now)) }
    ensures unlimited { IfErr result (λ e. e ≡ LabelLimit → labels ≢ None) }
{
    let tried = match ascent {
        Some(ascent) => best_arc(leaf, ascent, pool, state)?,
        None => None,
    };
    let stops = stops_along(state.alloc, leaf, pool, &tried)?;
    let Some(arc) = leaf.region().choose(stops.as_slice()) else {
        return Ok(None);
    };
    let (used_start, unused_start) = starts_of(pool, ascent, arc, tried)?;
    let (used, unused) = child_regions(leaf.region(), arc)?;
    let used = price_child(pool, state, leaf, &used, labels);
    let unused = price_child(pool, state, leaf, &unused, labels);
    match (used, unused) {
        (Ok(used), Ok(unused)) => Ok(Some(Children {
            arc,
            used,
            unused,
            used_start,
            unused_start,
        })),
        (Err(fault), _) | (_, Err(fault)) => Err(fault),
    }
}
