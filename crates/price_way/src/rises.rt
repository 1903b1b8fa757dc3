//! How far prices rise at first.
//!
//! No contract speaks of it: it is a rule of search, and any prices are sound.

use pooled_routes::{GRAINS_OF_TENTH, arc_cost};
use prices::Priced;
use solomon_reader::Instance;
use tenths::Tenths;

/// The first rise below the root is this many times that of the root.
const CHILD_RISE: i64 = 6;

/// What the way there and back costs the customers in the mean, in grains.
fn mean_way(instance: &Instance) -> i64 {
    let count = instance.customer_count();
    let mut ways: i64 = 0;
    for customer in 1..count + 1 {
        ways = ways.saturating_add(arc_cost(instance, 0, customer));
    }
    ways.saturating_mul(2) / i64::from(count)
}

/// A first rise of each price, in grains: a tenth of a customer's share of the cost of a plan, or
/// without one a fiftieth of what the way there and back costs in the mean. No contract: any rise serves.
pub fn first_rise(instance: &Instance, cost: Option<Tenths>) -> i64 {
    match cost {
        Some(cost) => {
            let grains = cost.get() as i64 * GRAINS_OF_TENTH;
            grains / i64::from(instance.customer_count()) / 10
        }
        None => mean_way(instance) / 50,
    }
}

/// A first rise of each price at a leaf, in grains: that of the root, or below it, where prices start
/// from those of the parent, six times that. No contract: any rise serves.
pub fn rise_at(leaf: &Priced<'_>, cost: Option<Tenths>) -> i64 {
    let first = first_rise(leaf.instance(), cost);
    if leaf.region().is_root() {
        first
    } else {
        first.saturating_mul(CHILD_RISE)
    }
}

/// A customer's share of a cost in tenths, in grains, at most that of the way there and back.
pub(crate) fn customer_share(instance: &Instance, cost: i128) -> i64 {
    let most = mean_way(instance);
    let grains = cost.clamp(0, i128::from(i64::MAX)) as i64;
    let share = grains.saturating_mul(GRAINS_OF_TENTH) / i64::from(instance.customer_count());
    share.min(most)
}

/// The rise of each price in a trial, in grains: six tenths of a customer's share of a cost in tenths.
pub(crate) fn trial_rise(instance: &Instance, cost: i128) -> i64 {
    let share = customer_share(instance, cost);
    (share.saturating_mul(CHILD_RISE) / 10).max(1)
}
