//! The projection of prices onto what routes say.
//!
//! No contract speaks of it: it is a rule of search, and any prices are sound.

use crate::half_space::HalfSpace;
use crate::noted::Noted;
use crate::sweeps::Sweeps;
use crate::trial::Trial;
use std::alloc::{AllocError, Global};

/// A sweep that goes less far ends a projection, in grains; a route counts as violated from here on.
const ENOUGH: u64 = 20;

/// After this many sweeps all routes are looked at again.
const SWEEPS_BETWEEN: u32 = 10;

/// After each so many sweeps a projection goes on along the way that the second half of them went.
const SWEEPS_OF_STEP: u32 = 4;

/// What routes say of prices, with the multipliers that a projection comes to.
#[derive(Drop)]
pub struct Projection<'r> {
    /// What the routes say.
    pub spaces: Vec<HalfSpace<'r>>,
    /// How much work it was.
    pub work: u64,
}

impl<'r> Projection<'r> {
    /// Moves a trial by the multipliers; the routes that have one are the active ones.
    fn begin(&mut self, sweeps: &mut Sweeps<'r>, trial: &mut Trial) -> Result<(), AllocError> {
        for (place, space) in self.spaces.iter_mut().enumerate() {
            space.is_active = space.multiplier > 0;
            if space.is_active {
                trial.raise_along(space.fours, 0i64.saturating_sub(space.multiplier));
                sweeps.add(space, place)?;
            }
        }
        Ok(())
    }

    /// Makes the violated routes active, and answers whether there were any.
    fn activate(&mut self, sweeps: &mut Sweeps<'r>, trial: &mut Trial) -> Result<bool, AllocError> {
        let mut is_any = false;
        for (place, space) in self.spaces.iter_mut().enumerate() {
            self.work = self.work.saturating_add(space.work());
            if !space.is_active && trial.slack(space) <= -(ENOUGH as i64) {
                space.is_active = true;
                is_any = true;
                sweeps.add(space, place)?;
                sweeps.project_last(trial);
            }
        }
        if is_any {
            sweeps.sort()?;
        }
        Ok(is_any)
    }

    /// Sweeps until a sweep goes less far than enough, at most this many times, and answers how often,
    /// and whether the last one was enough.
    fn sweep_on(
        &mut self,
        alloc: Global,
        sweeps: &mut Sweeps<'r>,
        trial: &mut Trial,
        most: u32,
    ) -> Result<(u32, bool), AllocError> {
        let mut noted: Option<Noted> = None;
        for made in 0..most {
            if made % SWEEPS_OF_STEP == SWEEPS_OF_STEP / 2 {
                noted = Some(sweeps.noted(alloc, trial)?);
            }
            if made % SWEEPS_OF_STEP == 0
                && let Some(noted) = &noted
            {
                self.work = self.work.saturating_add(sweeps.go_far(trial, noted));
            }
            self.work = self.work.saturating_add(sweeps.work());
            if sweeps.sweep(trial) < ENOUGH {
                return Ok((made + 1, true));
            }
        }
        Ok((most, false))
    }

    /// Activates and sweeps in turn until nothing is violated, by at most this many sweeps.
    fn satisfy(
        &mut self,
        alloc: Global,
        sweeps: &mut Sweeps<'r>,
        trial: &mut Trial,
        most: u32,
    ) -> Result<(), AllocError> {
        let mut left = most;
        let mut is_enough = false;
        for _ in 0..most {
            let is_any = self.activate(sweeps, trial)?;
            if left == 0 || is_enough && !is_any {
                return Ok(());
            }
            let most = left.min(SWEEPS_BETWEEN);
            let (made, was_enough) = self.sweep_on(alloc, sweeps, trial, most)?;
            left = left.saturating_sub(made);
            is_enough = was_enough;
        }
        Ok(())
    }

    /// Projects a trial onto what all routes say, nearly, from where the multipliers lead, by at most so
    /// many sweeps. Most routes don't bind, so sweeps go only over those that did or were violated. Where
    /// memory is refused, the multipliers stay as they were.
    pub fn project(
        &mut self,
        alloc: Global,
        trial: &mut Trial,
        most: u32,
    ) -> Result<(), AllocError> {
        let mut sweeps = Sweeps::new(alloc, trial);
        self.begin(&mut sweeps, trial)?;
        self.satisfy(alloc, &mut sweeps, trial, most)?;
        sweeps.give_back(self.spaces.as_mut_slice());
        Ok(())
    }
}
