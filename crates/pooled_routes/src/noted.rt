//! Multipliers and prices as they stood some sweeps ago.
//!
//! No contract speaks of it: it is a rule of search, and any prices are sound.

use crate::step::{Step, square};
use crate::trial::Trial;
use crate::vehicle_price::VehiclePrice;
use std::alloc::{AllocError, Global};

/// Multipliers and prices as they stood some sweeps ago.
#[derive(Drop)]
pub(crate) struct Noted {
    /// The multipliers of the routes that bind prices.
    pub(crate) multipliers: Vec<i64>,
    prices: Vec<i64>,
    /// The multipliers of the cuts.
    cuts: Vec<i64>,
    vehicle_price: VehiclePrice,
}

impl Noted {
    /// A trial as it stands, with these multipliers.
    pub(crate) fn new(
        alloc: Global,
        trial: &Trial,
        multipliers: Vec<i64>,
    ) -> Result<Noted, AllocError> {
        let mut cuts = Vec::with_capacity(alloc, trial.cuts.len())?;
        for cut in &trial.cuts {
            cuts.push(cut.multiplier)?;
        }
        Ok(Noted {
            multipliers,
            prices: trial.prices.clone()?,
            cuts,
            vehicle_price: trial.vehicle_price,
        })
    }

    /// The slope along the way of a trial since, as far as the prices of cuts and of a vehicle have part in it.
    pub(crate) fn slope(&self, trial: &Trial) -> i128 {
        let first = trial.prices.len().saturating_sub(trial.cuts.len());
        let prices = trial.prices.iter().skip(first);
        let mut sum = trial.vehicle_price.slope(self.vehicle_price);
        for ((cut, price), before) in trial.cuts.iter().zip(prices).zip(self.cuts.iter()) {
            sum = sum.saturating_add(cut.slope(*price, *before));
        }
        sum
    }

    /// The square of the way of a trial's prices since.
    pub(crate) fn square(&self, trial: &Trial) -> i128 {
        let mut sum = trial.vehicle_price.square(self.vehicle_price);
        for (price, before) in trial.prices.iter().zip(self.prices.iter()) {
            sum = sum.saturating_add(square(*price, *before));
        }
        sum
    }

    /// Moves the prices of cuts and of a vehicle on by a step.
    pub(crate) fn go_on(&self, trial: &mut Trial, step: Step) {
        let first = trial.prices.len().saturating_sub(trial.cuts.len());
        let prices = trial.prices.iter_mut().skip(first);
        for ((cut, price), before) in trial.cuts.iter_mut().zip(prices).zip(self.cuts.iter()) {
            cut.go_on(price, *before, step);
        }
        trial.vehicle_price = trial.vehicle_price.gone_on(self.vehicle_price, step);
    }
}
