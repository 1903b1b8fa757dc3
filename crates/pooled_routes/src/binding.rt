//! What a route that binds prices says of them, as sweeps read it.

use crate::fours::{Four, raise, reduced};
use crate::half_space::HalfSpace;
use crate::step::{Step, slope};

/// Below this a product with the inverse of a weight gives the exact quotient, for weights below 65,536.
const MOST_BY_PRODUCT: u64 = 1 << 48;

/// What a route that binds prices says of them.
#[derive(Clone, Copy)]
pub(crate) struct Binding<'r> {
    /// Where its half-space stands among all.
    pub(crate) place: usize,
    stops: &'r [Four],
    cost: i64,
    pub(crate) multiplier: i64,
    /// The sum of the squares of how often each customer is visited, with the parts of a vehicle's price; at least 1.
    weight: u64,
    /// The least whole number above 2 to the power of 64 divided by the weight.
    inverse: u64,
}

impl<'r> Binding<'r> {
    /// What a half-space at this place says, where a vehicle's price has this many parts.
    pub(crate) fn of(space: &HalfSpace<'r>, place: usize, parts: u64) -> Binding<'r> {
        let weight = space.weight.unsigned_abs().saturating_add(parts).max(1);
        Binding {
            place,
            stops: space.fours,
            cost: space.cost,
            multiplier: space.multiplier,
            weight,
            inverse: (u64::MAX / weight).saturating_add(1),
        }
    }

    /// A number divided by the weight, without the rest.
    #[inline(always)]
    fn quotient(&self, number: u64) -> i64 {
        if number < MOST_BY_PRODUCT {
            // It fits, as each product of two numbers of 64 bits.
            let product = u128::from(number).wrapping_mul(u128::from(self.inverse));
            return (product >> 64) as i64;
        }
        let quotient = number.checked_div(self.weight).unwrap_or(0);
        quotient.min(i64::MAX as u64) as i64
    }

    /// How far prices are to rise along the route so that its slack is 0, as far as the multiplier
    /// allows. It has no branch: of which sign a slack is can't be foreseen.
    #[inline(always)]
    fn fall(&self, slack: i64) -> i64 {
        let is_beyond = slack < 0;
        let more = if is_beyond {
            self.weight.saturating_sub(1)
        } else {
            0
        };
        let quotient = self.quotient(slack.unsigned_abs().saturating_add(more));
        let fall = if is_beyond {
            0i64.saturating_sub(quotient)
        } else {
            quotient
        };
        fall.min(self.multiplier)
    }

    /// How far prices and a vehicle's are from the route's cost, in grains; below 0 where they are beyond it.
    #[inline(always)]
    fn slack(&self, prices: &[i64], vehicle_price: i64) -> i64 {
        reduced(prices, self.stops, self.cost).saturating_sub(vehicle_price)
    }

    /// The slack at these prices times the way of the multiplier from where it stood before.
    pub(crate) fn slope(&self, prices: &[i64], vehicle_price: i64, before: i64) -> i128 {
        if self.multiplier == before {
            return 0;
        }
        slope(self.multiplier, before, self.slack(prices, vehicle_price))
    }

    /// Moves the multiplier on by a step, from where it stood before, and prices with it, and answers by how much each
    /// price rose.
    pub(crate) fn go_on(&mut self, prices: &mut [i64], before: i64, step: Step) -> i64 {
        let change = step.change(self.multiplier, before);
        let fall = 0i64.saturating_sub(change);
        if fall != 0 {
            self.multiplier = self.multiplier.saturating_add(change);
            raise(prices, self.stops, fall);
        }
        fall
    }

    /// Projects prices, a vehicle's in this many parts, onto the half-space, as far as the multiplier allows
    /// (Hildreth 1957), and answers by how much each price rose.
    #[inline(always)]
    pub(crate) fn project(
        &mut self,
        prices: &mut [i64],
        vehicle_price: &mut i64,
        parts: i64,
    ) -> i64 {
        let slack = self.slack(prices, *vehicle_price);
        let fall = self.fall(slack);
        if fall != 0 {
            self.multiplier = self.multiplier.saturating_sub(fall);
            *vehicle_price = vehicle_price.saturating_add(parts.saturating_mul(fall));
            raise(prices, self.stops, fall);
        }
        fall
    }

    /// How far a rise of each price moves them, in grains.
    #[inline(always)]
    pub(crate) fn distance(&self, fall: i64) -> u64 {
        fall.unsigned_abs().saturating_mul(self.weight)
    }
}
