//! How far prices are to be raised.

use solomon_reader::Instance;

/// With this many pricings in a row that don't raise the value the best is rarely missed.
pub const IDLE_PRICINGS: u32 = 15;

/// How many routes more than a plan's count where prices are raised.
const MORE_THAN_PLAN: u64 = 2;

/// How many routes count where prices are raised: somewhat more than a plan has, or where none is known,
/// the whole fleet, as in a leaf's value, since the fleet may be too small. No contract: any number serves.
pub fn counted_routes(instance: &Instance, plan: Option<&[Vec<u16>]>) -> u16 {
    let routes = match plan {
        Some(routes) => (routes.len() as u64).saturating_add(MORE_THAN_PLAN),
        None => u64::from(instance.fleet()),
    };
    routes.min(u64::from(u16::MAX)) as u16
}

/// How far prices are to be raised.
#[derive(Clone, Copy)]
pub struct Goal {
    /// The first rise of each price, in grains; it is cut to 1,000 to 100,000,000,000. `first_rise`
    /// serves well at the root, and `rise_at` at each leaf.
    pub rise: i64,
    /// The most pricings. Below the root there are up to eight more while the value to stop at is near.
    pub pricings: u32,
    /// Stops after this many pricings in a row that don't raise the value; `IDLE_PRICINGS` serve well.
    pub idle_pricings: u32,
    /// The value in tenths at which to stop.
    pub value: i128,
    /// How many routes count where the least reduced cost is below 0, at most the fleet;
    /// `counted_routes` serves well.
    pub routes: u16,
    /// The most sets that may have prices beside those that are known.
    pub sets: usize,
    /// The most rows that may have prices beside those that are known.
    pub rows: usize,
    /// The most labels that may be active at once in a pricing.
    pub labels: Option<usize>,
    /// Stops where the pool's work so far comes to this much.
    pub work: u64,
}
