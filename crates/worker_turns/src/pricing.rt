//! How far the prices of a leaf are raised, and how much work a turn is worth.

ghost use Rattle.std.specs.Prelude.{◌≤◌};

use crate::nodes::Nodes;
use leaf_work::{Effort, Goal, goal_of};
use prices::Priced;
use run_settings::Settings;
use tenths::Tenths;

/// The most pricings of a turn at the root.
const ROOT_PRICINGS: u32 = 20;

/// How many units of work a turn is worth for each customer, and for how many customers at least. A unit takes about
/// as long on every instance, so that turns do, too.
const CUSTOMER_WORK: u64 = 19_000;

const LEAST_CUSTOMERS: u64 = 120;

/// Of what all turns are worth a single pricing may take this part, and at any number of turns what so
/// many are worth.
const PRICING_PART: u64 = 28;

const LEAST_PRICING_TURNS: u64 = 4;

/// Pricings are dear beside the work of so many turns, or of all turns where those are more.
const DEAR_TURNS: u32 = 200;

/// How much work a turn is worth: steps, bounds on what may follow and the projections of prices
/// count alike, so that turns take about as long at narrow windows as at wide ones.
pub(crate) fn turn_work(customers: u16) -> u64 {
    CUSTOMER_WORK.saturating_mul(u64::from(customers).max(LEAST_CUSTOMERS))
}

/// Beside how much work pricings are dear.
pub(crate) fn expected_work(settings: &Settings, customers: u16) -> u64 {
    turn_work(customers).saturating_mul(u64::from(settings.turns.max(DEAR_TURNS)))
}

/// What a bound worker goes by.
#[derive(Clone, Copy)]
pub(crate) struct Rules {
    /// How many labels may be active at once in one of its pricings.
    pub(crate) labels: usize,
    /// How many sets it may find in all.
    pub(crate) sets: usize,
    /// How many rows it may find in all.
    pub(crate) rows: usize,
    /// Its place among the bound workers.
    pub(crate) place: u32,
    /// How much work all its turns are worth.
    pub(crate) work: u64,
}

/// How many labels may be active at once in a bound worker's pricing on this many customers: what the settings
/// allow, and no more than its turns can pay for, so that no pricing runs away.
pub fn pricing_labels(settings: &Settings, customers: u16) -> usize
    ensures { result ≤ settings.now.labels }
{
    let worth = turn_work(customers);
    let part = worth.saturating_mul(u64::from(settings.turns)) / PRICING_PART;
    let work = part.max(worth.saturating_mul(LEAST_PRICING_TURNS));
    // A label takes about one unit for each customer: steps, other labels, and others that it dominates.
    let labels = work / u64::from(customers.max(1));
    labels.min(u64::from(settings.labels)) as usize
}

/// Whether a worker has done more than the turns that it made so far are worth.
pub(crate) fn has_done_enough(nodes: &Nodes<'_>, made: u32) -> bool {
    nodes.state.work() > turn_work(nodes.customers).saturating_mul(u64::from(made))
}

/// Leaves within this part of the gap above the bound count as the lowest ones.
const LOWEST_PART: u64 = 64;

/// Up to which value in tenths the leaves of a worker's own come before those of others. The bound is that of the
/// lowest leaf, so that raising those far above it is of little use; and a leaf that is stolen starts from less.
pub(crate) fn own_limit(bound: Tenths, target: u64) -> i128 {
    let gap = target.saturating_sub(bound.get());
    i128::from(bound.get().saturating_add(gap / LOWEST_PART))
}

/// With this many first rises of the root the bound workers begin in turn.
const FIRST_RISES: u32 = 4;

/// How far the prices of a leaf are to be raised: from where the worker ended at it in the turn before,
/// or from its first rise. All bound workers begin at the root, each with a greater rise than the one before,
/// so that they meet other routes and don't do the same work twice.
pub(crate) fn goal_at(
    leaf: &Priced<'_>,
    nodes: &Nodes<'_>,
    cost: Option<Tenths>,
    is_again: bool,
    target: u64,
    rules: Rules,
) -> Goal {
    let effort = Effort {
        root_pricings: ROOT_PRICINGS,
        sets: rules.sets,
        rows: rules.rows,
        labels: Some(rules.labels),
        work: rules.work,
    };
    let mut goal = goal_of(leaf, cost, nodes.routes, target, effort);
    if is_again {
        goal.rise = nodes.pool.rise();
    } else if leaf.region().is_root() {
        let times = 1 + i64::from(rules.place % FIRST_RISES);
        goal.rise = goal.rise.saturating_mul(times);
    }
    goal
}
