//! Sweeps over the half-spaces of the routes that bind prices.

use crate::binding::Binding;
use crate::half_space::HalfSpace;
use crate::noted::Noted;
use crate::step::Step;
use crate::trial::Trial;
use std::alloc::{AllocError, Global};

/// What the routes that bind prices say of them, side by side.
#[derive(Drop)]
pub(crate) struct Sweeps<'r> {
    bindings: Vec<Binding<'r>>,
    /// How much work a sweep is.
    work: u64,
    /// How many parts a vehicle's price has.
    parts: u8,
}

impl<'r> Sweeps<'r> {
    /// Sweeps over nothing, for a trial.
    pub(crate) fn new(alloc: Global, trial: &Trial) -> Sweeps<'r> {
        Sweeps {
            bindings: Vec::new(alloc),
            work: 0,
            parts: if trial.vehicle_price.below.is_some() {
                2
            } else {
                1
            },
        }
    }

    /// How much work a sweep is.
    pub(crate) fn work(&self) -> u64 {
        self.work
    }

    /// Sweeps over a half-space, too, that stands at this place.
    pub(crate) fn add(&mut self, space: &HalfSpace<'r>, place: usize) -> Result<(), AllocError> {
        let parts = u64::from(self.parts);
        self.bindings.push(Binding::of(space, place, parts))?;
        self.work = self.work.saturating_add(space.work());
        Ok(())
    }

    /// Projects a trial onto what was added last.
    pub(crate) fn project_last(&mut self, trial: &mut Trial) {
        let parts = i64::from(self.parts);
        if let Some(binding) = self.bindings.last_mut() {
            let mut vehicle_price = trial.vehicle_price.value();
            let fall = binding.project(trial.prices.as_mut_slice(), &mut vehicle_price, parts);
            trial.vehicle_price = trial.vehicle_price.raised(fall);
        }
    }

    /// Sweeps in the order of places from now on.
    pub(crate) fn sort(&mut self) -> Result<(), AllocError> {
        self.bindings.sort_by_key(|binding| binding.place)
    }

    /// Projects a trial onto what each route says, one after the other, and answers the farthest.
    pub(crate) fn sweep(&mut self, trial: &mut Trial) -> u64 {
        let parts = i64::from(self.parts);
        let prices = trial.prices.as_mut_slice();
        let mut vehicle_price = trial.vehicle_price.value();
        let mut risen: i64 = 0;
        let mut farthest = 0;
        for binding in self.bindings.iter_mut() {
            let fall = binding.project(prices, &mut vehicle_price, parts);
            risen = risen.saturating_add(fall);
            farthest = binding.distance(fall).max(farthest);
        }
        trial.vehicle_price = trial.vehicle_price.raised(risen);
        let farthest = trial.vehicle_price.project().max(farthest);
        trial.project_cuts().max(farthest)
    }

    /// Multipliers and prices as they stand.
    pub(crate) fn noted(&self, alloc: Global, trial: &Trial) -> Result<Noted, AllocError> {
        let mut multipliers = Vec::with_capacity(alloc, self.bindings.len())?;
        for binding in &self.bindings {
            multipliers.push(binding.multiplier)?;
        }
        Noted::new(alloc, trial, multipliers)
    }

    /// The slope along the way of the multipliers since: the sum of the slacks, each times the way of its multiplier.
    fn slope(&self, trial: &Trial, noted: &Noted) -> i128 {
        let vehicle_price = trial.vehicle_price.value();
        let prices = trial.prices.as_slice();
        let mut sum = noted.slope(trial);
        for (binding, before) in self.bindings.iter().zip(noted.multipliers.iter()) {
            sum = sum.saturating_add(binding.slope(prices, vehicle_price, *before));
        }
        sum
    }

    /// Goes on by a step along the way of the multipliers since.
    fn go_on(&mut self, trial: &mut Trial, noted: &Noted, step: Step) {
        noted.go_on(trial, step);
        let prices = trial.prices.as_mut_slice();
        let mut risen: i64 = 0;
        for (binding, before) in self.bindings.iter_mut().zip(noted.multipliers.iter()) {
            risen = risen.saturating_add(binding.go_on(prices, *before, step));
        }
        trial.vehicle_price = trial.vehicle_price.raised(risen);
    }

    /// Goes on along the way of the multipliers since, as far as the projection gains by it, and answers how much work
    /// that was.
    pub(crate) fn go_far(&mut self, trial: &mut Trial, noted: &Noted) -> u64 {
        let slope = self.slope(trial, noted);
        match Step::exact(slope, noted.square(trial)) {
            Some(step) => {
                self.go_on(trial, noted, step);
                self.work.saturating_mul(2)
            }
            None => self.work,
        }
    }

    /// Gives the half-spaces the multipliers.
    pub(crate) fn give_back(&self, spaces: &mut [HalfSpace<'_>]) {
        for binding in &self.bindings {
            if let Some(space) = spaces.get_mut(binding.place) {
                space.multiplier = binding.multiplier;
            }
        }
    }
}
