//! The price of a vehicle.
//!
//! No contract speaks of it: it is a rule of search, and any prices are sound.

use crate::step::{Step, slope, square};

/// A number that is to be at least 0, in grains, with the multiplier that holds it there.
#[derive(Clone, Copy)]
pub(crate) struct Part {
    pub(crate) value: i64,
    pub(crate) multiplier: i64,
}

impl Part {
    /// The part with this number after a change.
    fn at(self, value: i64, change: i64) -> Part {
        Part {
            value: value.saturating_add(change),
            multiplier: self.multiplier,
        }
    }

    /// The part after the rise has changed.
    fn scaled(self, old: i64, new: i64) -> Part {
        Part {
            value: self.value,
            multiplier: scaled(self.multiplier, old, new),
        }
    }

    /// The part moved on by a step, from where it stood before.
    fn gone_on(self, before: Part, step: Step) -> Part {
        let change = step.change(self.multiplier, before.multiplier);
        Part {
            value: self.value.saturating_add(change),
            multiplier: self.multiplier.saturating_add(change),
        }
    }

    /// The part's slack times the way of its multiplier.
    fn slope(self, before: Part) -> i128 {
        slope(self.multiplier, before.multiplier, self.value)
    }

    /// Projects the part onto the numbers from 0 on, and answers how far.
    fn project(&mut self) -> u64 {
        let fall = self.multiplier.min(self.value);
        self.value = self.value.saturating_sub(fall);
        self.multiplier = self.multiplier.saturating_sub(fall);
        fall.unsigned_abs()
    }
}

/// A multiplier after the rise by which it is measured has changed.
pub fn scaled(multiplier: i64, old: i64, new: i64) -> i64 {
    if multiplier == 0 {
        return 0;
    }
    let product = i128::from(multiplier).saturating_mul(i128::from(new));
    let quotient = product.checked_div(i128::from(old)).unwrap_or(0);
    quotient.clamp(0, i128::from(i64::MAX)) as i64
}

/// The price of a vehicle in grains, the reduced cost that each route is to have at least: what it is above 0,
/// less what it is below. Both parts are at least 0. The second is left out where no plan needs the whole fleet.
#[derive(Clone, Copy)]
pub struct VehiclePrice {
    pub(crate) above: Part,
    pub(crate) below: Option<Part>,
}

impl VehiclePrice {
    /// A price of 0, which has a part below 0 or not.
    pub fn new(has_below: bool) -> VehiclePrice {
        let zero = Part {
            value: 0,
            multiplier: 0,
        };
        VehiclePrice {
            above: zero,
            below: has_below.then_some(zero),
        }
    }

    /// The price that starts from these parts, moved by their multipliers.
    pub(crate) fn start(self, above: i64, below: i64) -> VehiclePrice {
        VehiclePrice {
            above: self.above.at(above, self.above.multiplier),
            below: self.below.map(|part| part.at(below, part.multiplier)),
        }
    }

    /// What it is below 0, in grains.
    pub(crate) fn below(self) -> i64 {
        self.below.map_or(0, |part| part.value)
    }

    /// The price in grains.
    pub fn value(self) -> i64 {
        self.above.value.saturating_sub(self.below())
    }

    /// The price after each part took a change of its sign.
    pub(crate) fn raised(self, change: i64) -> VehiclePrice {
        let fall = 0i64.saturating_sub(change);
        VehiclePrice {
            above: self.above.at(self.above.value, change),
            below: self.below.map(|part| part.at(part.value, fall)),
        }
    }

    /// The price after the rise has changed.
    pub fn scaled(self, old: i64, new: i64) -> VehiclePrice {
        VehiclePrice {
            above: self.above.scaled(old, new),
            below: self.below.map(|part| part.scaled(old, new)),
        }
    }

    /// Both parts beside those before; a part that is left out is none.
    fn below_beside(self, before: VehiclePrice) -> Option<(Part, Part)> {
        self.below.zip(before.below)
    }

    /// The slacks of the parts, each times the way of its multiplier.
    pub(crate) fn slope(self, before: VehiclePrice) -> i128 {
        let below = self.below_beside(before);
        let more = below.map_or(0, |(part, old)| part.slope(old));
        self.above.slope(before.above).saturating_add(more)
    }

    /// The square of the way of the parts.
    pub(crate) fn square(self, before: VehiclePrice) -> i128 {
        let more = square(self.below(), before.below());
        square(self.above.value, before.above.value).saturating_add(more)
    }

    /// The price with each part moved on by a step, from where it stood before.
    pub(crate) fn gone_on(self, before: VehiclePrice, step: Step) -> VehiclePrice {
        let below = self.below_beside(before);
        VehiclePrice {
            above: self.above.gone_on(before.above, step),
            below: below.map(|(part, old)| part.gone_on(old, step)),
        }
    }

    /// Projects each part onto the numbers from 0 on, and answers how far.
    pub(crate) fn project(&mut self) -> u64 {
        let above = self.above.project();
        match &mut self.below {
            Some(below) => below.project().max(above),
            None => above,
        }
    }
}
