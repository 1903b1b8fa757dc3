//! What steps are paid, and rows charge.

use priced_sets::PricedSet;
use row_charges::PricedRow;

/// What the steps of routes are paid, in grains: each the price of the customer that it leads to, and those of the sets
/// that it enters. Rows of three customers charge the routes.
#[derive(Clone, Copy)]
pub struct Payment<'p> {
    /// The price of customer i, at i - 1.
    pub prices: &'p [i64],
    /// The sets that have a price.
    pub sets: &'p [PricedSet],
    /// The rows that have a price.
    pub rows: &'p [PricedRow],
}
