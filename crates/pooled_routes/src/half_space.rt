//! What a route says of prices.
//!
//! No contract speaks of it: it is a rule of search, and any prices are sound.

use crate::fours::Four;
use crate::pseudocosts::Child;
use branching::Arc;

/// What a route says of prices: those of its stops and a vehicle sum to at most its cost.
#[derive(Clone, Copy)]
pub struct HalfSpace<'r> {
    /// The customers, in order.
    pub stops: &'r [u16],
    /// The same, four by four, and behind them the depot.
    pub fours: &'r [Four],
    /// In grains.
    pub cost: i64,
    /// The sum of the squares of how often each customer is visited and the route counts at each cut.
    pub weight: i64,
    /// How far the prices were moved by this route, in grains.
    pub multiplier: i64,
    /// Whether sweeps go over it.
    pub is_active: bool,
    /// Where the route stands in its pool.
    pub place: usize,
}

/// The work of a projection onto a route without cuts, in units of as long as a bound takes at a customer.
const WORK_OF_ROUTE: u64 = 4;

impl HalfSpace<'_> {
    /// How much work it is to project prices onto the route: more where it counts at cuts.
    pub fn work(&self) -> u64 {
        let more = self
            .fours
            .len()
            .saturating_sub(self.stops.len().div_ceil(4));
        WORK_OF_ROUTE.saturating_add(more as u64)
    }

    /// Whether a child by an arc forbids the route: it goes along the arc where that is forbidden, or
    /// leaves or enters a customer of the arc by another one where that is required.
    pub fn is_forbidden_by(&self, arc: Arc, child: Child) -> bool {
        let mut from = 0;
        for stop in self.stops {
            if is_forbidden(from, *stop, arc, child) {
                return true;
            }
            from = *stop;
        }
        is_forbidden(from, 0, arc, child)
    }
}

/// Whether a child by an arc forbids going from one row to another.
fn is_forbidden(from: u16, to: u16, arc: Arc, child: Child) -> bool {
    let leaves = from == arc.from;
    let enters = to == arc.to;
    match child {
        Child::Used => from != 0 && leaves && !enters || to != 0 && enters && !leaves,
        Child::Unused => leaves && enters,
    }
}
