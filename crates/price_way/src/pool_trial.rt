//! The trial of a leaf's children over the routes of a pool.
//!
//! No contract speaks of it: it is a rule of search, and any prices are sound.

use crate::ascent::Ascent;
use branching::Arc;
use pooled_routes::{Child, HalfSpace, Projection, Trial, VehiclePrice};
use std::alloc::{AllocError, Global};

/// The most sweeps of a trial.
const MOST_SWEEPS: u32 = 20;

/// The routes of a pool at a leaf, over which its children are tried without a pricing.
#[derive(Drop)]
pub struct PoolTrial<'r> {
    alloc: Global,
    ascent: &'r Ascent,
    spaces: Vec<HalfSpace<'r>>,
    /// In grains.
    rise: i64,
}

/// What the trial of a child came to.
#[derive(Drop)]
pub struct ChildTrial {
    pub prices: Trial,
    /// How far the merit rose above that of the leaf, in grains; nothing where no route is left.
    pub rise: Option<i128>,
    /// How much work it was.
    pub work: u64,
}

/// Routes of lower rank serve better: those that make up the prices, and then those of the least
/// reduced cost at these prices.
fn rank(space: &HalfSpace<'_>, prices: &Trial) -> i64 {
    if space.multiplier > 0 {
        i64::MIN
    } else {
        prices.reduced_cost(space.fours, space.cost)
    }
}

impl<'r> PoolTrial<'r> {
    /// Trials with this rise in grains, over at most this many of a pool's routes, whose multipliers are
    /// measured by the rise already.
    pub fn new(
        alloc: Global,
        ascent: &'r Ascent,
        mut spaces: Vec<HalfSpace<'r>>,
        most: usize,
        rise: i64,
    ) -> Result<PoolTrial<'r>, AllocError> {
        if spaces.len() > most {
            let prices = ascent.centre.prices.as_slice();
            let prices = Trial::new(alloc, prices, Vec::new(alloc), 0, VehiclePrice::new(false))?;
            spaces.sort_by_key(|space| rank(space, &prices))?;
            spaces.truncate(most);
        }
        Ok(PoolTrial {
            alloc,
            ascent,
            spaces,
            rise,
        })
    }

    /// What those of the pool's routes say that a child doesn't forbid.
    fn spaces_of_child(&self, arc: Arc, child: Child) -> Result<Vec<HalfSpace<'r>>, AllocError> {
        let mut spaces = Vec::with_capacity(self.alloc, self.spaces.len())?;
        for space in &self.spaces {
            if !space.is_forbidden_by(arc, child) {
                spaces.push(*space)?;
            }
        }
        Ok(spaces)
    }

    /// How far the routes that make up the prices of a trial are from what they cost, as often as each counts, in
    /// grains: below 0 where the projection stopped before it came to what they say.
    fn lacking(&self, spaces: &[HalfSpace<'_>], trial: &Trial) -> i128 {
        let mut sum: i128 = 0;
        for space in spaces {
            let reduced = trial.reduced_cost(space.fours, space.cost);
            let slack = reduced.saturating_sub(trial.vehicle_price.value());
            let product = i128::from(space.multiplier).saturating_mul(i128::from(slack));
            sum = sum.saturating_add(product);
        }
        sum.checked_div(i128::from(self.rise)).unwrap_or(0)
    }

    /// The prices that a child's ascent would come to if it had only those of the pool's routes that the
    /// child doesn't forbid.
    pub fn of_child(&self, arc: Arc, child: Child) -> Result<ChildTrial, AllocError> {
        let spaces = self.spaces_of_child(arc, child)?;
        let mut projection = Projection { spaces, work: 0 };
        let mut trial = self.ascent.start(self.alloc, self.rise)?;
        projection.project(self.alloc, &mut trial, MOST_SWEEPS)?;
        let is_any = !projection.spaces.is_empty();
        let lacking = self.lacking(projection.spaces.as_slice(), &trial);
        let rise = self.ascent.rise_by_routes(&trial, lacking);
        Ok(ChildTrial {
            rise: is_any.then_some(rise),
            work: projection.work,
            prices: trial,
        })
    }
}
