//! The way of prices from one centre to the next.
//!
//! No contract speaks of it: it is a rule of search, and any prices are sound.

use crate::centre::Centre;
use crate::goal::Goal;
use crate::pricing_state::PricingState;
use crate::rises::customer_share;
use crate::route_pool::RoutePool;
use pooled_routes::{CutPart, GRAINS_OF_TENTH, Merit, Side, Trial, VehiclePrice, scaled};
use prices::Priced;
use std::alloc::{AllocError, Global};

/// The least rise, in grains.
const LEAST_RISE: i64 = 1_000;

/// The greatest rise, in grains.
const MOST_RISE: i64 = 100_000_000_000;

/// Behind a round, where the pool has rows, the rise is at least this many tenths of a customer's share of the target.
const TENTHS_BEHIND_ROUND: i64 = 3;

/// The target is near where this many steps more of the last growth lead to it.
const NEAR_STEPS: i128 = 4;

/// A serious step raises the merit by more than one of so many parts of what was promised.
const SERIOUS_PARTS: i128 = 10;

/// The least gap to the target that counts, in grains.
const LEAST_GAP: i128 = 1_000;

/// A way of prices by serious and null steps (Lemaréchal 1975; Kiwiel 1990): a serious step makes the
/// prices of a trial the centre of the next, and a null step only adds a route to the pool.
#[derive(Drop)]
pub struct Ascent {
    pub centre: Centre,
    merit: Merit,
    vehicle_price: VehiclePrice,
    /// The pool's cuts, with the multipliers of their prices.
    cuts: Vec<CutPart>,
    rise: i64,
    /// A customer's share of the target, in grains.
    share: i64,
    /// The value in tenths at which to stop.
    pub target: i128,
    /// How much merit the last trial promised, in grains.
    promise: i128,
    /// Whether only a quick search judged the last trial.
    is_trial_quick: bool,
    /// Whether only quick searches know the centre's least reduced cost.
    is_centre_quick: bool,
}

/// Tenths in grains.
fn grains(tenths: i128) -> i128 {
    tenths.saturating_mul(i128::from(GRAINS_OF_TENTH))
}

/// A rise within its range.
fn rise_in_range(rise: i64) -> i64 {
    rise.clamp(LEAST_RISE, MOST_RISE)
}

impl Ascent {
    /// The way from these prices to a goal.
    pub fn new(
        pool: &mut RoutePool,
        priced: &Priced<'_>,
        goal: &Goal,
    ) -> Result<Ascent, AllocError> {
        let merit = Merit::new(priced.instance(), goal.routes);
        let cuts = pool.cuts.parts()?;
        let centre = Centre::new(pool, priced, cuts.as_slice(), merit)?;
        let rise = rise_in_range(goal.rise);
        pool.scale(rise);
        pool.add(priced.instance(), priced.least().route.as_slice())?;
        Ok(Ascent {
            centre,
            merit,
            vehicle_price: merit.vehicle_price(),
            cuts,
            rise,
            share: customer_share(priced.instance(), goal.value),
            target: goal.value,
            promise: i128::MAX,
            is_trial_quick: false,
            is_centre_quick: false,
        })
    }

    /// How much the merit lacks in grains until the value, which is rounded up, is the target; below 0 where
    /// the merit, which counts fewer routes, is above it already.
    fn lack(&self) -> i128 {
        let enough = grains(self.target.saturating_sub(1)).saturating_add(1);
        enough.saturating_sub(self.centre.merit)
    }

    /// How much the merit has to rise in grains until the value, which is rounded up, is the target.
    pub fn gap(&self) -> i128 {
        self.lack().max(LEAST_GAP)
    }

    /// Whether the target is near, where the last step's growth of merit was this many grains.
    pub fn is_near(&self, growth: i128) -> bool {
        self.lack() <= growth.saturating_mul(NEAR_STEPS)
    }

    /// How far the merit has risen above another, in grains: at most to the target, and up to it where
    /// the value has reached it.
    pub fn rise_since(&self, merit: i128, value: i128) -> i128 {
        let most = grains(self.target);
        let reached = if value >= self.target {
            most
        } else {
            self.centre.merit.min(most)
        };
        reached.saturating_sub(merit).max(0)
    }

    /// The centre after a rise in grains, from which a projection starts.
    pub fn start(&self, alloc: Global, rise: i64) -> Result<Trial, AllocError> {
        let vehicle_price = self.vehicle_price.scaled(self.rise, rise);
        let vehicle_price = self.merit.start(vehicle_price, self.centre.least, rise);
        let mut cuts = Vec::from_slice(alloc, self.cuts.as_slice())?;
        for cut in cuts.iter_mut() {
            cut.multiplier = scaled(cut.multiplier, self.rise, rise);
        }
        let prices = self.centre.prices.as_slice();
        Trial::new(alloc, prices, cuts, rise, vehicle_price)
    }

    /// These prices of customers and cuts as those of a trial.
    pub fn at(&self, alloc: Global, prices: &[i64]) -> Result<Trial, AllocError> {
        let mut cuts = Vec::from_slice(alloc, self.cuts.as_slice())?;
        for cut in cuts.iter_mut() {
            cut.multiplier = 0;
        }
        Trial::new(alloc, prices, cuts, 0, VehiclePrice::new(false))
    }

    /// How far the merit rises from the centre to where a trial leads, in grains: what its prices promise, with what
    /// the routes that make them up lack. That is known well after few sweeps; the least reduced cost isn't, and
    /// counts for each vehicle.
    pub fn rise_by_routes(&self, trial: &Trial, lacking: i128) -> i128 {
        let (prices, cuts) = (trial.prices.as_slice(), trial.cuts.as_slice());
        let promised = self.merit.promised(prices, cuts, trial.vehicle_price);
        promised
            .saturating_add(lacking)
            .saturating_sub(self.centre.merit)
    }

    /// The centre after the rise, projected onto what the routes of the pool say.
    pub fn trial(
        &self,
        pool: &mut RoutePool,
        state: &mut PricingState<'_>,
    ) -> Result<Trial, AllocError> {
        let mut trial = self.start(state.alloc, self.rise)?;
        pool.project(state, &mut trial)?;
        Ok(trial)
    }

    /// Measures the multipliers by another rise.
    fn scale(&mut self, pool: &mut RoutePool, rise: i64) {
        pool.scale(rise);
        self.vehicle_price = self.vehicle_price.scaled(self.rise, rise);
        for cut in self.cuts.iter_mut() {
            cut.multiplier = scaled(cut.multiplier, self.rise, rise);
        }
        self.rise = rise;
    }

    /// Goes on with a shorter rise: after a null step, or where the prices of a trial had no value.
    pub fn draw_back(&mut self, pool: &mut RoutePool) {
        self.scale(pool, rise_in_range(self.rise.saturating_mul(3) / 5));
    }

    /// How many rows of three customers have a price at the centre.
    pub fn priced_rows(&self) -> usize {
        let customers = self.centre.prices.len().saturating_sub(self.cuts.len());
        let prices = self.centre.prices.iter().skip(customers);
        let mut count: usize = 0;
        for (cut, price) in self.cuts.iter().zip(prices) {
            if cut.side == Side::Below && *price < 0 {
                count = count.saturating_add(1);
            }
        }
        count
    }

    /// Whether the pool has rows: their prices are held by long rises. Those of sets do as well by short ones.
    fn has_rows(&self) -> bool {
        self.cuts.iter().any(|cut| cut.side == Side::Below)
    }

    /// Goes on with a longer rise, up to a customer's share of the target: after a null step that brought no new route.
    /// There the pool knows all that binds prices, and the rise is what holds them.
    fn go_farther(&mut self, pool: &mut RoutePool) {
        let longer = self.rise.saturating_mul(3) / 2;
        let rise = longer.min(self.share).max(self.rise);
        self.scale(pool, rise_in_range(rise));
    }

    /// Goes on from a trial with another centre: a serious step where the merit has grown by more than a tenth
    /// of what the trial promised.
    fn go_on(&mut self, pool: &mut RoutePool, trial: &Trial, next: Centre) -> bool {
        self.take_multipliers(trial);
        let before = self.centre.merit;
        let promised = self.merit.promised(
            next.prices.as_slice(),
            self.cuts.as_slice(),
            self.vehicle_price,
        );
        self.promise = promised.saturating_sub(before);
        let growth = next.merit.saturating_sub(before);
        let is_serious = growth.saturating_mul(SERIOUS_PARTS) > self.promise;
        if is_serious {
            self.centre = next;
            self.scale(pool, rise_in_range(self.rise.saturating_mul(3) / 2));
        } else if pool.has_new() || !self.has_rows() {
            self.draw_back(pool);
        } else {
            self.go_farther(pool);
        }
        is_serious
    }

    /// Whether the prices of a trial, of this least reduced cost at most, can only be a null step.
    pub fn is_null(&self, trial: &Trial, prices: &[i64], least: i64) -> bool {
        let (before, cuts) = (self.centre.merit, trial.cuts.as_slice());
        let promised = self.merit.promised(prices, cuts, trial.vehicle_price);
        let growth = self
            .merit
            .of(prices, cuts, i128::from(least))
            .saturating_sub(before);
        growth.saturating_mul(SERIOUS_PARTS) <= promised.saturating_sub(before)
    }

    /// Goes on from the multipliers of a trial, by the same rise: all of a null step that isn't priced.
    pub fn take_multipliers(&mut self, trial: &Trial) {
        self.vehicle_price = trial.vehicle_price;
        for (cut, moved) in self.cuts.iter_mut().zip(trial.cuts.iter()) {
            cut.multiplier = moved.multiplier;
        }
    }

    /// Takes in what the prices of a trial led to.
    pub fn take_in(
        &mut self,
        pool: &mut RoutePool,
        trial: &Trial,
        priced: &Priced<'_>,
    ) -> Result<(), AllocError> {
        let next = Centre::new(pool, priced, self.cuts.as_slice(), self.merit)?;
        if next.least < i128::from(trial.vehicle_price.value()) {
            pool.add(priced.instance(), priced.least().route.as_slice())?;
        }
        self.is_trial_quick = false;
        self.go_on(pool, trial, next);
        Ok(())
    }

    /// Takes in the least reduced cost that a quick search found at the prices of a trial.
    pub fn take_in_quick(
        &mut self,
        pool: &mut RoutePool,
        trial: &Trial,
        prices: Vec<i64>,
        least: i64,
    ) {
        let next = Centre::at(prices, self.cuts.as_slice(), i128::from(least), self.merit);
        self.is_trial_quick = true;
        if self.go_on(pool, trial, next) {
            self.is_centre_quick = true;
        }
    }

    /// Goes on with another rise from the same centre, whose least reduced cost is known anew, as far as
    /// quick searches know it.
    pub fn go_on_from(&mut self, pool: &mut RoutePool, least: i64, rise: i64) {
        self.centre.least = i128::from(least);
        self.centre.merit = self.merit.of(
            self.centre.prices.as_slice(),
            self.cuts.as_slice(),
            self.centre.least,
        );
        self.is_centre_quick = true;
        self.scale(pool, rise_in_range(rise));
    }

    /// Goes back to these prices as the centre, unless that was priced exactly.
    pub fn go_back_to(&mut self, pool: &RoutePool, priced: &Priced<'_>) -> Result<(), AllocError> {
        if self.is_centre_quick {
            self.centre = Centre::new(pool, priced, self.cuts.as_slice(), self.merit)?;
            self.is_centre_quick = false;
        }
        Ok(())
    }

    /// Takes in the cuts that were added to the pool: their prices begin at 0, and the centre stays. The way to prices
    /// of rows is long, so the rise isn't a short one.
    pub fn take_cuts(&mut self, pool: &mut RoutePool) -> Result<(), AllocError> {
        let parts = pool.cuts.parts()?;
        for place in self.cuts.len()..parts.len() {
            self.centre.prices.push(0)?;
            self.cuts.push(parts[place])?;
        }
        if self.has_rows() {
            let least = self.share.saturating_mul(TENTHS_BEHIND_ROUND) / 10;
            self.scale(pool, rise_in_range(self.rise.max(least)));
        }
        Ok(())
    }

    /// How much merit the last trial promised beyond the centre before it, in grains.
    pub fn promise(&self) -> i128 {
        self.promise
    }

    /// Whether the last trial, priced exactly, promised less than one of so many parts of the gap.
    pub fn promises_little(&self, parts: i128) -> bool {
        let is_little = self.promise.saturating_mul(parts) < self.gap();
        is_little && !self.is_trial_quick && !self.is_centre_quick
    }

    /// Whether a value in tenths lacks at least one of so many parts of the gap of the centre's merit, which was priced
    /// exactly.
    pub fn is_ahead_of(&self, value: i128, parts: i128) -> bool {
        let lack = self.centre.merit.saturating_sub(grains(value));
        !self.is_centre_quick && lack.saturating_mul(parts) >= self.gap()
    }

    /// Whether the merit has come to the target.
    pub fn is_at_target(&self) -> bool {
        self.centre.merit >= grains(self.target)
    }
}
