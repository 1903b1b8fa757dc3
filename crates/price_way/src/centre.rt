//! The prices that a rise starts from.
//!
//! No contract speaks of it: it is a rule of search, and any prices are sound.

use crate::leaf_cuts::LeafCuts;
use crate::route_pool::RoutePool;
use pooled_routes::{CutPart, Merit};
use prices::Priced;
use std::alloc::AllocError;

/// The prices that a rise starts from, in grains, with their least reduced cost and their merit.
#[derive(Drop)]
pub struct Centre {
    /// Those of the customers, and behind them those of the pool's cuts.
    pub prices: Vec<i64>,
    /// 0 where there is no relaxed route.
    pub least: i128,
    pub merit: i128,
}

impl Centre {
    /// The centre at prices with this least reduced cost.
    pub fn at(prices: Vec<i64>, cuts: &[CutPart], least: i128, merit: Merit) -> Centre {
        Centre {
            merit: merit.of(prices.as_slice(), cuts, least),
            prices,
            least,
        }
    }

    /// The centre at these prices, among the cuts of a pool.
    pub fn new(
        pool: &RoutePool,
        priced: &Priced<'_>,
        cuts: &[CutPart],
        merit: Merit,
    ) -> Result<Centre, AllocError> {
        let least = priced.least().value.unwrap_or(0);
        let prices = pool.cuts.rows_of(priced.prices(), LeafCuts::of(priced))?;
        Ok(Centre::at(prices, cuts, least, merit))
    }
}
