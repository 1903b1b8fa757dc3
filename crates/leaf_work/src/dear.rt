//! What else is done where pricings are dear: there are few of them, so that each is to tell more.
//!
//! No contract speaks of when: it is a rule of search, and any prices are sound.

ghost use Rattle.std.specs.Prelude.{◌≡◌, IfSome};
ghost use Rattle.prices.specs.Narrowing.{IsPricedAt};

use crate::pricing::price;
use crate::quick_round::{may_pay, search_at, task_of_centre};
use pooled_routes::Trial;
use price_way::{Ascent, Goal, PricingState, RoutePool};
use prices::Priced;
use std::alloc::AllocError;

/// How many pricings more a leaf below the root may have.
const MORE_DEAR_PRICINGS: u32 = 4;

/// The root is left where less than one of so many parts of the gap is promised.
const FLAT_PARTS: i128 = 100;

/// Another leaf is left after so many pricings where less than one of so many parts is.
const FEW_PRICINGS: u32 = 4;

const FLAT_PARTS_OF_LEAF: i128 = 50;

/// The value is polished where it lacks one of so many parts of the gap of the merit.
const POLISH_PARTS: i128 = 100;

/// So many trials in a row at most are passed over as null steps.
const MOST_QUICK_NULLS: u32 = 10;

/// The most pricings of an ascent at a leaf, where the value to stop at isn't near.
pub(crate) fn pricings_at(state: &PricingState<'_>, leaf: &Priced<'_>, goal: &Goal) -> u32 {
    if !leaf.region().is_root() && state.are_pricings_dear() {
        goal.pricings.saturating_add(MORE_DEAR_PRICINGS)
    } else {
        goal.pricings
    }
}

/// Whether the root is better split now: where pricings are dear, and little is promised.
pub(crate) fn is_root_flat(state: &PricingState<'_>, ascent: &Ascent) -> bool {
    state.are_pricings_dear() && ascent.promises_little(FLAT_PARTS)
}

/// Whether a leaf is better split after so many pricings, the last of which grew the merit by so many grains: where
/// pricings are dear, and little is promised.
pub(crate) fn is_flat(
    state: &PricingState<'_>,
    ascent: &Ascent,
    leaf: &Priced<'_>,
    made: u32,
    growth: i128,
) -> bool {
    if leaf.region().is_root() {
        return is_root_flat(state, ascent);
    }
    made >= FEW_PRICINGS
        && state.are_pricings_dear()
        && ascent.promises_little(FLAT_PARTS_OF_LEAF)
        && !ascent.is_near(growth)
}

/// The centre's prices, scaled so that the routes met pay at most what they cost (Farley 1990), with their value; where
/// pricings are dear, and the value lacks a part of the merit, since it counts the whole fleet.
pub(crate) fn polish<'i>(
    pool: &mut RoutePool,
    state: &mut PricingState<'_>,
    ascent: &Ascent,
    best: &Priced<'i>,
    goal: &Goal,
) -> Option<Priced<'i>>
    ensures { IfSome result (IsPricedAt best.now.region best.now) }
{
    let is_done = best.value() >= goal.value || state.work() >= goal.work;
    if is_done || !state.are_pricings_dear() || !ascent.is_ahead_of(best.value(), POLISH_PARTS) {
        return None;
    }
    let scale = pool.scale_at(ascent.centre.prices.as_slice()).ok()?;
    let task = task_of_centre(pool, state, ascent, best, scale).ok()?;
    price(pool, state, task, goal.labels).ok()
}

/// Whether a quick search is far less work than an exact pricing.
fn are_searches_quick(state: &PricingState<'_>) -> bool {
    match &state.quick {
        Some(way) => way.is_far_less_than(state.kept.work),
        None => false,
    }
}

/// The next trial to be priced exactly: where pricings are dear, a trial at the root that a quick search shows to be a
/// null step is passed over.
pub(crate) fn trial_beyond_nulls(
    pool: &mut RoutePool,
    state: &mut PricingState<'_>,
    ascent: &mut Ascent,
    leaf: &Priced<'_>,
) -> Result<Trial, AllocError> {
    let mut trial = ascent.trial(pool, state)?;
    if !state.are_pricings_dear() || !may_pay(state, leaf) {
        return Ok(trial);
    }
    for _null in 0..MOST_QUICK_NULLS {
        if !are_searches_quick(state) {
            return Ok(trial);
        }
        let searched = search_at(pool, state, leaf, &trial)?;
        if !ascent.is_null(&trial, searched.rows.as_slice(), searched.least) {
            return Ok(trial);
        }
        ascent.take_multipliers(&trial);
        trial = ascent.trial(pool, state)?;
    }
    Ok(trial)
}
