//! A route as a bound on prices.
//!
//! No contract speaks of it: it is a rule of search, and any prices are sound.

use crate::arc_flow::ArcFlow;
use crate::fours::{Four, fours_of};
use crate::half_space::HalfSpace;
use crate::pooled_cut::PooledCut;
use crate::vehicle_price::scaled;
use branching::Arc;
use fronts::CustomerSet;
use solomon_reader::Instance;
use std::alloc::{AllocError, Global};

/// The grains of a tenth.
pub const GRAINS_OF_TENTH: i64 = 1_000;

/// How much of the rise the multiplier of a route is, which the pool met as the one of this number.
#[derive(Clone, Copy)]
pub struct RouteShare {
    pub number: u64,
    pub millionths: i64,
}

/// A route and its multiplier, in grains; the rise stands for one route.
#[derive(Clone, Copy)]
pub struct WeightedRoute<'r> {
    pub stops: &'r [u16],
    pub weight: i64,
}

/// The rise in millionths.
const WHOLE: i64 = 1_000_000;

/// A relaxed route, which says of prices: those of its stops and a vehicle sum to at most its cost.
#[derive(Drop)]
pub struct PooledRoute {
    /// The how-manieth route it is that the pool met.
    number: u64,
    /// The customers, in order.
    pub stops: Vec<u16>,
    /// The same and the rows of the cuts that the route counts at, four by four, and behind them the depot.
    pub fours: Vec<Four>,
    /// In grains.
    pub cost: i64,
    /// The sum of the squares of how often each customer is visited, each set is entered and each row charges.
    weight: i64,
    /// How far the prices were moved by this route, in grains.
    pub multiplier: i64,
    /// The number of the pricing when the multiplier was last above 0.
    last_use: u64,
    /// Whether the region entered last allows each of its arcs.
    pub is_allowed: bool,
}

/// The cost of an arc in grains, 0 where the instance has no such rows.
pub fn arc_cost(instance: &Instance, from: u16, to: u16) -> i64 {
    let last = instance.customer_count();
    if from > last || to > last {
        return 0;
    }
    let tenths = instance.distance(from, to).get();
    tenths as i64 * GRAINS_OF_TENTH
}

/// The cost of a route in grains.
pub fn cost_of(instance: &Instance, stops: &[u16]) -> i64 {
    let mut cost: i64 = 0;
    let mut from = 0;
    for stop in stops {
        cost = cost.saturating_add(arc_cost(instance, from, *stop));
        from = *stop;
    }
    cost.saturating_add(arc_cost(instance, from, 0))
}

/// The sum of the squares of how often each customer is visited.
fn weight_of(stops: &[u16]) -> i64 {
    let mut weight: i64 = 0;
    for stop in stops {
        let count = stops.iter().filter(|other| *other == stop).count();
        weight = weight.saturating_add_unsigned(count as u64);
    }
    weight
}

/// The stops, and behind them the row of a cut as often as they count at it: the first cut's follows on the last
/// customer's.
fn rows_of(
    alloc: Global,
    count: u16,
    stops: &[u16],
    cuts: &[PooledCut],
) -> Result<Vec<u16>, AllocError> {
    let mut rows = Vec::from_slice(alloc, stops)?;
    let mut row = count;
    for cut in cuts {
        row = row.saturating_add(1);
        for _time in 0..cut.count(stops) {
            rows.push(row)?;
        }
    }
    Ok(rows)
}

/// Whether each arc of a route is one of these, from each row to those that may follow on it.
fn are_allowed(rows: &[CustomerSet], stops: &[u16]) -> bool {
    let is_one = |from: u16, to: u16| match rows.get(usize::from(from)) {
        Some(row) => row.contains(to),
        None => false,
    };
    let mut from = 0;
    for stop in stops {
        if !is_one(from, *stop) {
            return false;
        }
        from = *stop;
    }
    is_one(from, 0)
}

impl PooledRoute {
    /// A route that was met as the one of this number, at this pricing.
    pub fn new(
        alloc: Global,
        instance: &Instance,
        stops: &[u16],
        cuts: &[PooledCut],
        number: u64,
        pricing: u64,
    ) -> Result<PooledRoute, AllocError> {
        let rows = rows_of(alloc, instance.customer_count(), stops, cuts)?;
        Ok(PooledRoute {
            number,
            stops: Vec::from_slice(alloc, stops)?,
            fours: fours_of(alloc, rows.as_slice())?,
            cost: cost_of(instance, stops),
            weight: weight_of(rows.as_slice()),
            multiplier: 0,
            last_use: pricing,
            is_allowed: true,
        })
    }

    /// Goes by these cuts from now on.
    pub fn take_cuts(
        &mut self,
        alloc: Global,
        count: u16,
        cuts: &[PooledCut],
    ) -> Result<(), AllocError> {
        let rows = rows_of(alloc, count, self.stops.as_slice(), cuts)?;
        self.fours = fours_of(alloc, rows.as_slice())?;
        self.weight = weight_of(rows.as_slice());
        Ok(())
    }

    /// How much of the rise the multiplier is.
    pub fn share(&self, rise: i64) -> RouteShare {
        RouteShare {
            number: self.number,
            millionths: scaled(self.multiplier, rise, WHOLE),
        }
    }

    /// Takes the multiplier that the route has among these shares of the rise, which stand by number, or
    /// none.
    pub fn take_share(&mut self, shares: &[RouteShare], rise: i64) {
        let place = shares.partition_point(|share| share.number < self.number);
        self.multiplier = match shares.get(place) {
            Some(share) if share.number == self.number => scaled(share.millionths, WHOLE, rise),
            _ => 0,
        };
    }

    /// Whether the route is to make room before another one: it has the lower multiplier, or was of
    /// use longer ago.
    pub fn yields_to(&self, other: &PooledRoute) -> bool {
        self.multiplier < other.multiplier
            || self.multiplier == other.multiplier && self.last_use < other.last_use
    }

    /// Lets the route count only where each of its arcs is one of these, from each row to those that may
    /// follow on it.
    pub fn enter(&mut self, rows: &[CustomerSet]) {
        self.is_allowed = are_allowed(rows, self.stops.as_slice());
        if !self.is_allowed {
            self.multiplier = 0;
        }
    }

    /// What the route says of prices, which stands at this place of its pool.
    pub fn half_space(&self, place: usize) -> HalfSpace<'_> {
        HalfSpace {
            stops: self.stops.as_slice(),
            fours: self.fours.as_slice(),
            cost: self.cost,
            weight: self.weight,
            multiplier: self.multiplier,
            is_active: false,
            place,
        }
    }

    /// Measures the multiplier by another rise.
    pub fn scale(&mut self, old: i64, new: i64, pricing: u64) {
        if self.multiplier > 0 {
            self.last_use = pricing;
        }
        self.multiplier = scaled(self.multiplier, old, new);
    }

    /// Adds the route's arcs with what each carries of the multiplier.
    pub fn push_arcs(&self, arcs: &mut Vec<ArcFlow>) -> Result<(), AllocError> {
        let flow = self.multiplier;
        let mut from = 0;
        for stop in &self.stops {
            let arc = Arc { from, to: *stop };
            arcs.push(ArcFlow { arc, flow })?;
            from = *stop;
        }
        let arc = Arc { from, to: 0 };
        arcs.push(ArcFlow { arc, flow })?;
        Ok(())
    }
}
