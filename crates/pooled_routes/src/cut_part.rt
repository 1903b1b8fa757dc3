//! How the price of a cut counts.
//!
//! No contract speaks of it: it is a rule of search, and any prices are sound.

use crate::step::{Step, slope};

/// On which side of 0 the price of a cut stands: that of a set, which is paid to routes, above it, and that of a row,
/// which is charged from them, below it.
#[derive(Clone, Copy, PartialEq, Eq)]
pub enum Side {
    Above,
    Below,
}

/// How often a plan counts at a cut, and the multiplier that holds the cut's price on its side of 0, in grains.
#[derive(Clone, Copy)]
pub struct CutPart {
    pub count: i64,
    pub side: Side,
    pub multiplier: i64,
}

impl Side {
    /// How far a price is from 0 on this side, in grains; below 0 where it is on the other one.
    pub fn distance(self, price: i64) -> i64 {
        match self {
            Side::Above => price,
            Side::Below => 0i64.saturating_sub(price),
        }
    }
}

impl CutPart {
    /// A price that is this much farther on its side.
    fn moved(self, price: i64, change: i64) -> i64 {
        price.saturating_add(self.side.distance(change))
    }

    /// The price from which a projection starts: it is higher by the rise as often as a plan counts, and moved by the
    /// multiplier.
    pub(crate) fn start(self, price: i64, rise: i64) -> i64 {
        let raised = price.saturating_add(rise.saturating_mul(self.count));
        self.moved(raised, self.multiplier)
    }

    /// The slack of the price times the way of the multiplier from where it stood before.
    pub(crate) fn slope(self, price: i64, before: i64) -> i128 {
        slope(self.multiplier, before, self.side.distance(price))
    }

    /// Moves the multiplier on by a step, from where it stood before, and the price with it.
    pub(crate) fn go_on(&mut self, price: &mut i64, before: i64, step: Step) {
        let change = step.change(self.multiplier, before);
        self.multiplier = self.multiplier.saturating_add(change);
        *price = self.moved(*price, change);
    }

    /// Projects the price onto its side of 0, as far as the multiplier allows, and answers how far.
    pub(crate) fn project(&mut self, price: &mut i64) -> u64 {
        let fall = self.multiplier.min(self.side.distance(*price));
        self.multiplier = self.multiplier.saturating_sub(fall);
        *price = self.moved(*price, 0i64.saturating_sub(fall));
        fall.unsigned_abs()
    }
}
