//! Prices on their way to the next pricing.
//!
//! But for the range of prices no contract speaks of it: it is a rule of search, and any prices are sound.

ghost use Rattle.std.specs.Prelude.{◌≡◌, ◌≤◌, length, nat_abs, IfOk};
ghost use Rattle.std.specs.List.{AllByRecursion};
ghost use Rattle.solomon_reader.specs.Problem.{customer_count};

use crate::cut_part::CutPart;
use crate::fours::{Four, price, raise, reduced};
use crate::half_space::HalfSpace;
use crate::vehicle_price::VehiclePrice;
use solomon_reader::{Instance, MOST_PRICE};
use std::alloc::{AllocError, Global};

/// A cut's price is at most this much, in grains: so those of 1,000 sets and 256 rows are less than two thirds of the
/// greatest price.
const MOST_CUT_PRICE: i64 = MOST_PRICE as i64 / 2_000;

/// Prices in grains, that of row i at i and 0 for the depot, and behind those of the customers that of each cut, also
/// outside their range, and a vehicle's price.
#[derive(Drop)]
pub struct Trial {
    pub prices: Vec<i64>,
    pub cuts: Vec<CutPart>,
    pub vehicle_price: VehiclePrice,
}

impl Trial {
    /// These prices, that of customer i at i - 1, and behind them those of cuts. Each is this much higher, and a cut's is
    /// as much as often as a plan counts there, and moved by its multiplier.
    pub fn new(
        alloc: Global,
        prices: &[i64],
        cuts: Vec<CutPart>,
        rise: i64,
        vehicle_price: VehiclePrice,
    ) -> Result<Trial, AllocError> {
        let mut raised = Vec::with_capacity(alloc, prices.len().saturating_add(1))?;
        raised.push(0)?;
        let first = prices.len().saturating_sub(cuts.len());
        for (place, price) in prices.iter().enumerate() {
            let start = match cuts.get(place.wrapping_sub(first)) {
                Some(cut) => cut.start(*price, rise),
                None => price.saturating_add(rise),
            };
            raised.push(start)?;
        }
        Ok(Trial {
            prices: raised,
            cuts,
            vehicle_price,
        })
    }

    /// The cost of a route less the prices of its stops, in grains.
    #[inline(always)]
    pub fn reduced_cost(&self, stops: &[Four], cost: i64) -> i64 {
        reduced(self.prices.as_slice(), stops, cost)
    }

    /// How far the prices of a route's stops and a vehicle are from its cost, in grains; below 0 where
    /// they are beyond it.
    pub(crate) fn slack(&self, space: &HalfSpace<'_>) -> i64 {
        let reduced = self.reduced_cost(space.fours, space.cost);
        reduced.saturating_sub(self.vehicle_price.value())
    }

    /// Raises the price of each stop, as often as it stands there, and a vehicle's.
    pub(crate) fn raise_along(&mut self, stops: &[Four], change: i64) {
        self.vehicle_price = self.vehicle_price.raised(change);
        raise(self.prices.as_mut_slice(), stops, change);
    }

    /// Projects the price of each cut onto its side of 0, as far as its multiplier allows, and answers the farthest.
    pub(crate) fn project_cuts(&mut self) -> u64 {
        let first = self.prices.len().saturating_sub(self.cuts.len());
        let prices = self.prices.iter_mut().skip(first);
        let mut farthest = 0;
        for (cut, price) in self.cuts.iter_mut().zip(prices) {
            farthest = cut.project(price).max(farthest);
        }
        farthest
    }

    /// The prices of the cuts, in their range: what an entry into a set is worth, and what a charge of a row costs.
    pub fn cut_prices(&self, alloc: Global) -> Result<Vec<u64>, AllocError> {
        let first = self.prices.len().saturating_sub(self.cuts.len());
        let mut prices = Vec::new(alloc);
        for (cut, price) in self.cuts.iter().zip(self.prices.iter().skip(first)) {
            let far = cut.side.distance(*price).clamp(0, MOST_CUT_PRICE);
            prices.push(far.unsigned_abs())?;
        }
        Ok(prices)
    }

    /// The price of a customer, cut so that it is at most this far from 0.
    fn price_within(&self, customer: u16, most: u64) -> i64
        ensures { nat_abs result ≤ most }
    {
        let most = most.min(MOST_PRICE) as i64;
        price(self.prices.as_slice(), customer).clamp(-most, most)
    }

    /// The prices of an instance's customers, cut so that each is at most this far from 0.
    pub fn prices_within(
        &self,
        alloc: Global,
        instance: &Instance,
        most: u64,
    ) -> Result<Vec<i64>, AllocError>
        ensures count { IfOk result (λ v. length v.items ≡ customer_count instance.now) }
        ensures within { IfOk result (λ v. AllByRecursion (λ z. nat_abs z ≤ most) v.items) }
    {
        let end = instance.customer_count() + 1;
        let mut prices = Vec::new(alloc);
        for customer in 1..end {
            prices.push(self.price_within(customer, most))?;
        }
        Ok(prices)
    }
}
