//! The routes met so far.
//!
//! No contract speaks of it: it is a rule of search, and any prices are sound.

use crate::ascent::Ascent;
use crate::child_start::ChildStart;
use crate::cut_pool::CutPool;
use crate::leaf_cuts::LeafCuts;
use crate::pool_trial::PoolTrial;
use crate::pricing_state::PricingState;
use crate::quick_way::WHOLE;
use crate::rises::trial_rise;
use branching::{Arc, Region};
use fronts::{Nearness, allowed_rows};
use pooled_routes::{
    ArcFlow, Child, HalfSpace, PooledRoute, Projection, RouteShare, Trial, VehiclePrice,
    WeightedRoute, cost_of, merge, scaled,
};
use prices::{Priced, allows_route};
use set_finding::FoundSet;
use solomon_reader::Instance;
use std::alloc::{AllocError, Global};
use std::mem::replace;

/// The most routes of a pool: the first number, or the second for each customer where that is more.
const MOST_ROUTES: usize = 1_000;

const ROUTES_OF_CUSTOMER: usize = 4;

/// The most sweeps of one projection.
const MOST_SWEEPS: u32 = 60;

/// The most routes of a trial for each customer.
const TRIAL_ROUTES: usize = 4;

/// The relaxed routes met so far at an instance's leaves, with what each says of prices. One pool
/// serves all leaves, since a route doesn't depend on the region.
#[derive(Drop)]
pub struct RoutePool {
    alloc: Global,
    routes: Vec<PooledRoute>,
    /// The sets and rows whose prices stand behind those of the customers.
    pub cuts: CutPool,
    /// How many routes were added.
    met: u64,
    /// The rise by which the multipliers are measured, in grains.
    rise: i64,
    /// How many pricings it took in: the age at which a route was of use.
    age: u64,
    /// Whether a route was added since the last projection.
    has_new: bool,
}

impl RoutePool {
    /// A pool without routes. No contract: any prices are sound, whatever stands in a pool.
    pub fn new(alloc: Global) -> RoutePool {
        RoutePool {
            alloc,
            routes: Vec::new(alloc),
            cuts: CutPool::new(alloc),
            met: 0,
            rise: 1,
            age: 0,
            has_new: false,
        }
    }

    /// A pool of these routes of an instance, each its customers in order, unless memory runs out. No
    /// contract: any prices are sound, whatever stands in a pool.
    pub fn of_routes(
        alloc: Global,
        instance: &Instance,
        routes: &[Vec<u16>],
    ) -> Result<RoutePool, AllocError> {
        let mut pool = RoutePool::new(alloc);
        for route in routes {
            pool.add(instance, route.as_slice())?;
        }
        Ok(pool)
    }

    /// Adds a route of an instance, by its customers in order: a relaxed one, or one of a plan. Twice
    /// the same is kept once, and the empty one isn't kept. Where the pool is full, the route that was
    /// of least use makes room. No contract: any prices are sound, whatever stands in a pool.
    pub fn add(&mut self, instance: &Instance, stops: &[u16]) -> Result<(), AllocError> {
        let cost = cost_of(instance, stops);
        let is_it = |route: &PooledRoute| route.cost == cost && route.stops.as_slice() == stops;
        if stops.is_empty() || self.routes.iter().any(is_it) {
            return Ok(());
        }
        let route = PooledRoute::new(
            self.alloc,
            instance,
            stops,
            self.cuts.cuts.as_slice(),
            self.met,
            self.age,
        )?;
        self.met = self.met.saturating_add(1);
        let customers = usize::from(instance.customer_count());
        if self.routes.len() >= MOST_ROUTES.max(customers * ROUTES_OF_CUSTOMER) {
            self.drop_least_used();
        }
        self.routes.push(route)?;
        self.has_new = true;
        Ok(())
    }

    /// Whether a route was added since the last projection: one that its prices don't know.
    pub(crate) fn has_new(&self) -> bool {
        self.has_new
    }

    /// These prices of customers and cuts, as trials have them.
    fn trial_at(&self, prices: &[i64]) -> Result<Trial, AllocError> {
        let none = Vec::new(self.alloc);
        Trial::new(self.alloc, prices, none, 0, VehiclePrice::new(false))
    }

    /// Tells the routes of the cuts.
    fn tell_routes(&mut self, instance: &Instance) -> Result<(), AllocError> {
        let customers = instance.customer_count();
        for route in self.routes.iter_mut() {
            route.take_cuts(self.alloc, customers, self.cuts.cuts.as_slice())?;
        }
        Ok(())
    }

    /// Adds sets that were found.
    pub fn add_sets(&mut self, instance: &Instance, found: &[FoundSet]) -> Result<(), AllocError> {
        self.cuts.add_sets(instance.customer_count(), found)?;
        self.tell_routes(instance)
    }

    /// Adds rows that were found, each three customers in increasing order.
    pub fn add_rows(
        &mut self,
        nearness: &Nearness<'_>,
        found: &[[u16; 3]],
    ) -> Result<(), AllocError> {
        self.cuts.add_rows(nearness, found)?;
        self.tell_routes(nearness.instance)
    }

    /// Takes in the cuts of a leaf, after it dropped those that have had no price for so many ascents.
    pub fn enter_cuts(
        &mut self,
        nearness: &Nearness<'_>,
        leaf: &Priced<'_>,
        most_idle: u32,
    ) -> Result<(), AllocError> {
        if self.cuts.enter(nearness, LeafCuts::of(leaf), most_idle)? {
            self.tell_routes(leaf.instance())?;
        }
        Ok(())
    }

    /// The rise in grains with which the last raising of prices ended; another one at the same leaf may
    /// begin with it. No contract: any rise serves.
    pub fn rise(&self) -> i64 {
        self.rise
    }

    /// The customers of the route of least reduced cost at these prices among those that a region allows;
    /// none where it allows none.
    pub fn cheapest(&self, region: &Region, prices: &[i64]) -> Result<Vec<u16>, AllocError> {
        let rows = self.trial_at(prices)?;
        let mut cheapest: Option<(&[u16], i64)> = None;
        for route in self.routes.iter().filter(|route| route.is_allowed) {
            let stops = route.stops.as_slice();
            let cost = rows.reduced_cost(route.fours.as_slice(), route.cost);
            let is_cheaper = cheapest.is_none_or(|(_, least)| cost < least);
            if is_cheaper && allows_route(region, stops) {
                cheapest = Some((stops, cost));
            }
        }
        match cheapest {
            Some((stops, _)) => Vec::from_slice(self.alloc, stops),
            None => Ok(Vec::new(self.alloc)),
        }
    }

    /// The least reduced cost of the routes that count at these prices, in grains; the greatest number where
    /// none does.
    pub fn least(&self, prices: &[i64]) -> Result<i64, AllocError> {
        let rows = self.trial_at(prices)?;
        let counting = self.routes.iter().filter(|route| route.is_allowed);
        let costs = counting.map(|route| rows.reduced_cost(route.fours.as_slice(), route.cost));
        Ok(costs.min().unwrap_or(i64::MAX))
    }

    /// By how many millionths these prices are to be multiplied so that none of the routes that count pays
    /// more than it costs (Farley 1990); the greatest number where none pays.
    pub fn scale_at(&self, prices: &[i64]) -> Result<i64, AllocError> {
        let rows = self.trial_at(prices)?;
        let mut least = i64::MAX;
        for route in self.routes.iter().filter(|route| route.is_allowed) {
            let reduced = rows.reduced_cost(route.fours.as_slice(), route.cost);
            let paid = route.cost.saturating_sub(reduced);
            if paid > 0 {
                least = least.min(scaled(WHOLE, paid, route.cost));
            }
        }
        Ok(least)
    }

    /// Takes in the routes that a pricing met and kept, which is counted.
    pub fn take_in(
        &mut self,
        instance: &Instance,
        state: &mut PricingState<'_>,
    ) -> Result<(), AllocError> {
        self.age = self.age.saturating_add(1);
        state.count_pricing();
        let met = replace(&mut state.kept.met, Vec::new(self.alloc));
        for route in &met {
            self.add(instance, route.as_slice())?;
        }
        Ok(())
    }

    /// Each arc that the routes of the pool use once, with all that it carries.
    pub fn flows(&self) -> Result<Vec<ArcFlow>, AllocError> {
        let mut arcs = Vec::new(self.alloc);
        for route in self.routes.iter().filter(|route| route.multiplier > 0) {
            route.push_arcs(&mut arcs)?;
        }
        merge(arcs, Vec::new(self.alloc))
    }

    /// The routes that make up the prices, with their multipliers.
    pub fn weighted(&self) -> Result<Vec<WeightedRoute<'_>>, AllocError> {
        let mut weighted = Vec::new(self.alloc);
        for route in self.routes.iter().filter(|route| route.multiplier > 0) {
            weighted.push(WeightedRoute {
                stops: route.stops.as_slice(),
                weight: route.multiplier,
            })?;
        }
        Ok(weighted)
    }

    /// Arcs to split the leaf by whose prices were raised last, best ones first, for `choose` of
    /// its region: first those that the routes of the pool, weighted as they make up the prices, use
    /// nearly one half of a time. They stand one after the other as three numbers: one above the last customer,
    /// so that the arcs to and from it are none of the region's, and the arc's two rows. No contract: `choose`
    /// judges each.
    pub fn arcs_to_split(&self, instance: &Instance) -> Result<Vec<u16>, AllocError> {
        let between = instance.customer_count() + 1;
        let mut arcs = self.flows()?;
        arcs.sort_by_key(|flow| flow.distance_from_half(self.rise))?;
        let mut rows = Vec::new(self.alloc);
        for flow in &arcs {
            rows.push(between)?;
            rows.push(flow.arc.from)?;
            rows.push(flow.arc.to)?;
        }
        rows.push(between)?;
        Ok(rows)
    }

    /// The routes that make up the prices raised last by more than one half of a route each: where no
    /// arc is fractional they may be a plan. No contract: who takes them for one has to check it.
    pub fn main_routes(&self) -> Result<Vec<Vec<u16>>, AllocError> {
        let half = self.rise / 2;
        let mut routes = Vec::new(self.alloc);
        for route in self.routes.iter().filter(|route| route.multiplier > half) {
            routes.push(route.stops.to_vec(self.alloc)?)?;
        }
        Ok(routes)
    }

    /// Drops the route that was of least use.
    fn drop_least_used(&mut self) {
        let mut least = 0;
        for (i, route) in self.routes.iter().enumerate() {
            if route.yields_to(&self.routes[least]) {
                least = i;
            }
        }
        if least < self.routes.len() {
            let _ = self.routes.swap_remove(least);
        }
    }

    /// Lets only the routes count that a leaf allows.
    pub fn enter(&mut self, leaf: &Priced<'_>) -> Result<(), AllocError> {
        let rows = allowed_rows(self.alloc, leaf.instance(), leaf.region())?;
        for route in self.routes.iter_mut() {
            route.enter(rows.as_slice());
        }
        Ok(())
    }

    /// Measures the multipliers by another rise.
    pub fn scale(&mut self, rise: i64) {
        for route in self.routes.iter_mut() {
            route.scale(self.rise, rise, self.age);
        }
        self.rise = rise;
    }

    /// What the routes say of prices that the region entered last allows.
    fn half_spaces(&self) -> Result<Vec<HalfSpace<'_>>, AllocError> {
        let mut spaces = Vec::with_capacity(self.alloc, self.routes.len())?;
        for (place, route) in self.routes.iter().enumerate() {
            if route.is_allowed {
                spaces.push(route.half_space(place))?;
            }
        }
        Ok(spaces)
    }

    /// Projects a trial, and answers the places of the routes with the multipliers that it came to, and how
    /// much work it was.
    fn projected(&self, trial: &mut Trial) -> Result<(Vec<(usize, i64)>, u64), AllocError> {
        let spaces = self.half_spaces()?;
        let mut projection = Projection { spaces, work: 0 };
        projection.project(self.alloc, trial, MOST_SWEEPS)?;
        let spaces = projection.spaces.iter();
        let multipliers = spaces
            .map(|space| (space.place, space.multiplier))
            .collect(self.alloc)?;
        Ok((multipliers, projection.work))
    }

    /// Projects a trial onto what all routes say, nearly, from where the multipliers lead.
    pub fn project(
        &mut self,
        state: &mut PricingState<'_>,
        trial: &mut Trial,
    ) -> Result<(), AllocError> {
        let (multipliers, work) = self.projected(trial)?;
        self.has_new = false;
        state.count_work(work);
        for (place, multiplier) in &multipliers {
            if let Some(route) = self.routes.get_mut(*place) {
                route.multiplier = *multiplier;
            }
        }
        Ok(())
    }

    /// Trials of the children of the leaf whose prices were raised last. They leave the pool as it is.
    pub fn trials<'r>(
        &'r self,
        instance: &Instance,
        ascent: &'r Ascent,
    ) -> Result<PoolTrial<'r>, AllocError> {
        let rise = trial_rise(instance, ascent.target);
        let most = usize::from(instance.customer_count()) * TRIAL_ROUTES;
        let mut spaces = self.half_spaces()?;
        for space in spaces.iter_mut() {
            space.multiplier = scaled(space.multiplier, self.rise, rise);
        }
        PoolTrial::new(self.alloc, ascent, spaces, most, rise)
    }

    /// The shares of the rise that the multipliers are, by the numbers of the routes.
    fn shares(&self) -> Result<Vec<RouteShare>, AllocError> {
        let mut shares = Vec::new(self.alloc);
        for route in self.routes.iter().filter(|route| route.multiplier > 0) {
            shares.push(route.share(self.rise))?;
        }
        shares.sort_by_key(|share| share.number)?;
        Ok(shares)
    }

    /// Where the ascent at a child by an arc starts, after this ascent at its leaf, whose trial came to these prices,
    /// if there was one.
    pub fn start_of(
        &self,
        ascent: &Ascent,
        arc: Arc,
        child: Child,
        trial: Option<Trial>,
    ) -> Result<ChildStart, AllocError> {
        Ok(ChildStart {
            arc,
            child,
            merit: ascent.centre.merit,
            trial,
            cuts: self.cuts.numbers()?,
            shares: self.shares()?,
        })
    }

    /// Takes the multipliers with which a child starts, or none where its start isn't known: those of the leaf before
    /// tell nothing of it.
    pub fn begin(&mut self, start: Option<&ChildStart>) {
        let shares = match start {
            Some(start) => start.shares.as_slice(),
            None => &[],
        };
        for route in self.routes.iter_mut() {
            route.take_share(shares, self.rise);
        }
    }
}
