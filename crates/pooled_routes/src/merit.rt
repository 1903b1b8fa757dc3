//! How prices are judged on the way.
//!
//! No contract speaks of it: it is a rule of search, and any prices are sound.

use crate::cut_part::CutPart;
use crate::vehicle_price::VehiclePrice;
use solomon_reader::Instance;

/// How often the least reduced cost counts.
#[derive(Clone, Copy)]
pub struct Merit {
    fewest_routes: u32,
    routes: u16,
    fleet: u16,
}

/// The sum of prices, those of the cuts behind the others as often as a plan counts there, in grains.
fn sum_of(prices: &[i64], cuts: &[CutPart]) -> i128 {
    let first = prices.len().saturating_sub(cuts.len());
    let mut sum: i128 = 0;
    for (place, price) in prices.iter().enumerate() {
        let count = match cuts.get(place.wrapping_sub(first)) {
            Some(cut) => cut.count,
            None => 1,
        };
        sum = sum.saturating_add(i128::from(*price).saturating_mul(i128::from(count)));
    }
    sum
}

impl Merit {
    /// The merit by this many routes, at most the fleet.
    pub fn new(instance: &Instance, routes: u16) -> Merit {
        let fleet = instance.fleet();
        Merit {
            fewest_routes: instance.fewest_routes(),
            routes: routes.min(fleet),
            fleet,
        }
    }

    /// A vehicle's price of 0, which has a part below 0 where the whole fleet counts.
    pub fn vehicle_price(self) -> VehiclePrice {
        VehiclePrice::new(self.routes == self.fleet)
    }

    /// A vehicle's price, from which the next projection starts: the least reduced cost, moved by the rise.
    pub fn start(self, vehicle_price: VehiclePrice, least: i128, rise: i64) -> VehiclePrice {
        let most = i128::from(i64::MAX);
        let least = least.clamp(-most, most) as i64;
        let up = rise.saturating_mul(i64::from(self.fewest_routes));
        let down = rise.saturating_mul(i64::from(self.fleet));
        let below = 0i64.saturating_sub(least).max(0);
        vehicle_price.start(least.max(0).saturating_add(up), below.saturating_sub(down))
    }

    /// The merit of prices with this least reduced cost, in grains.
    pub fn of(self, prices: &[i64], cuts: &[CutPart], least: i128) -> i128 {
        let gain = least.max(0).saturating_mul(i128::from(self.fewest_routes));
        let loss = least.min(0).saturating_mul(i128::from(self.routes));
        sum_of(prices, cuts)
            .saturating_add(gain)
            .saturating_add(loss)
    }

    /// The merit that prices would have if no route's reduced cost were below a vehicle's price, in grains.
    pub fn promised(self, prices: &[i64], cuts: &[CutPart], vehicle_price: VehiclePrice) -> i128 {
        let gain = i128::from(vehicle_price.above.value).saturating_mul(i128::from(
            self.fewest_routes,
        ));
        let loss = i128::from(vehicle_price.below()).saturating_mul(i128::from(self.fleet));
        sum_of(prices, cuts)
            .saturating_add(gain)
            .saturating_sub(loss)
    }
}
