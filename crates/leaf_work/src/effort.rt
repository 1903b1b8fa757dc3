//! How far the prices of a leaf are raised.

use price_way::{Goal, IDLE_PRICINGS, rise_at};
use prices::Priced;
use tenths::Tenths;

/// The most pricings at a leaf below the root, beside the one that its ascent starts from: it is split soon.
const LEAF_PRICINGS: u32 = 8;

/// The same where no plan is known: a value that can rise without end is to come to the ceiling.
const PRICINGS_WITHOUT_PLAN: u32 = 100;

/// How much work leaves are worth.
#[derive(Clone, Copy)]
pub struct Effort {
    /// The most pricings at the root, beside the one that its ascent starts from.
    pub root_pricings: u32,
    /// The most sets that a worker finds in all.
    pub sets: usize,
    /// The most rows that a worker finds in all.
    pub rows: usize,
    /// The most labels that may be active at once in a pricing, if there is a limit.
    pub labels: Option<usize>,
    /// Prices rise no further where the work of all leaves so far comes to this much.
    pub work: u64,
}

/// How far the prices of a leaf are raised: up to a value in tenths, from its first rise, where a plan of this cost is
/// the cheapest known, or none is, and this many routes count. No contract: any prices are sound.
pub fn goal_of(
    leaf: &Priced<'_>,
    cost: Option<Tenths>,
    routes: u16,
    target: u64,
    effort: Effort,
) -> Goal {
    let pricings = if leaf.region().is_root() {
        effort.root_pricings
    } else if cost.is_none() {
        PRICINGS_WITHOUT_PLAN
    } else {
        LEAF_PRICINGS
    };
    Goal {
        rise: rise_at(leaf, cost),
        pricings,
        idle_pricings: IDLE_PRICINGS,
        value: i128::from(target),
        routes,
        sets: effort.sets,
        rows: effort.rows,
        labels: effort.labels,
        work: effort.work,
    }
}
