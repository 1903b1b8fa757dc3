//! Prices of cuts, from a leaf to a pool and back.
//!
//! No contract speaks of it: it is a rule of search, and any prices are sound.

use crate::cut_pool::CutPool;
use crate::leaf_cuts::LeafCuts;
use pooled_routes::CutKind;
use priced_sets::PricedSet;
use row_charges::PricedRow;
use solomon_reader::{MOST_PRICE, MOST_ROW_PRICES};
use std::alloc::AllocError;

/// A row whose price in grains is less has none at a leaf: its bit would part labels, and tell little.
const LEAST_ROW_PRICE: u64 = 20;

impl CutPool {
    /// Puts the price of a set, or of a row, of these customers where its cut stands, if there is one.
    fn put(&self, rows: &mut [i64], is_set: bool, members: &[u16], price: u64) {
        let Some(place) = self.place_of(is_set, members) else {
            return;
        };
        let first = rows.len().saturating_sub(self.cuts.len());
        let row = rows.get_mut(first.saturating_add(place));
        if let (Some(row), Some(cut)) = (row, self.cuts.get(place)) {
            *row = cut.part().side.distance(price.min(MOST_PRICE) as i64);
        }
    }

    /// The prices of customers, and behind them those of the cuts, in grains: those of rows are below 0.
    pub fn rows_of(&self, prices: &[i64], priced: LeafCuts<'_>) -> Result<Vec<i64>, AllocError> {
        let mut rows = Vec::from_slice(self.alloc, prices)?;
        for _cut in &self.cuts {
            rows.push(0)?;
        }
        for set in priced.sets {
            self.put(rows.as_mut_slice(), true, set.members.as_slice(), set.price);
        }
        for row in priced.rows {
            let members = [row.first, row.second, row.third];
            self.put(rows.as_mut_slice(), false, members.as_slice(), row.price);
        }
        Ok(rows)
    }

    /// The sets that have a price among these, which stand in the order of the cuts.
    pub fn priced_sets(&self, prices: &[u64]) -> Result<Vec<PricedSet>, AllocError> {
        let mut priced = Vec::new(self.alloc);
        for (cut, price) in self.cuts.iter().zip(prices) {
            if let CutKind::Set { need } = cut.kind
                && *price > 0
            {
                priced.push(PricedSet {
                    members: cut.members.clone()?,
                    need,
                    price: *price,
                })?;
            }
        }
        Ok(priced)
    }

    /// The rows that have a price that counts among these, which stand in the order of the cuts.
    fn rows_with_prices(&self, prices: &[u64]) -> Result<Vec<PricedRow>, AllocError> {
        let mut priced = Vec::new(self.alloc);
        for (cut, price) in self.cuts.iter().zip(prices) {
            if cut.is_set() || *price < LEAST_ROW_PRICE {
                continue;
            }
            if let [first, second, third] = cut.members.as_slice() {
                priced.push(PricedRow {
                    first: *first,
                    second: *second,
                    third: *third,
                    price: *price,
                })?;
            }
        }
        Ok(priced)
    }

    /// The rows that have a price that counts among these, which stand in the order of the cuts: in increasing order of
    /// their customers, and where they are too many, the dearest.
    pub fn priced_rows(&self, prices: &[u64]) -> Result<Vec<PricedRow>, AllocError> {
        let mut priced = self.rows_with_prices(prices)?;
        if priced.len() > MOST_ROW_PRICES {
            priced.sort_by_key(|row| u64::MAX.saturating_sub(row.price))?;
            priced.truncate(MOST_ROW_PRICES);
        }
        priced.sort_by_key(|row| (row.first, row.second, row.third))?;
        Ok(priced)
    }

    /// The prices of the cuts, where prices stand in the order of these numbers.
    pub fn by_number(&self, numbers: &[u64], prices: &[u64]) -> Result<Vec<u64>, AllocError> {
        let mut found = Vec::new(self.alloc);
        for cut in &self.cuts {
            let place = numbers.iter().position(|number| *number == cut.number);
            let price = place.and_then(|place| prices.get(place).copied());
            found.push(price.unwrap_or(0))?;
        }
        Ok(found)
    }
}
