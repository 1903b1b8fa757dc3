//! The stops of a route four by four, so that sums over them run side by side and leave no rest.

use std::alloc::{AllocError, Global};

/// Four rows.
pub type Four = [u16; 4];

/// The stops four by four, and behind them the depot.
pub(crate) fn fours_of(alloc: Global, stops: &[u16]) -> Result<Vec<Four>, AllocError> {
    let mut fours = Vec::new(alloc);
    let mut first: usize = 0;
    for _four in 0..stops.len().div_ceil(4) {
        let row = |behind: usize| {
            let place = first.saturating_add(behind);
            stops.get(place).copied().unwrap_or(0)
        };
        fours.push([row(0), row(1), row(2), row(3)])?;
        first = first.saturating_add(4);
    }
    Ok(fours)
}

/// The price of a row among these, in grains; 0 where there is none.
#[inline(always)]
pub(crate) fn price(prices: &[i64], row: u16) -> i64 {
    prices.get(usize::from(row)).copied().unwrap_or(0)
}

/// The cost of a route less the prices of its stops, in grains; that of row i stands at i.
#[inline(always)]
pub(crate) fn reduced(prices: &[i64], stops: &[Four], cost: i64) -> i64 {
    let mut reduced = cost;
    for [a, b, c, d] in stops {
        let first = price(prices, *a).saturating_add(price(prices, *b));
        let second = price(prices, *c).saturating_add(price(prices, *d));
        reduced = reduced.saturating_sub(first.saturating_add(second));
    }
    reduced
}

/// Raises the price of each of four rows.
#[inline(always)]
fn raise_four(prices: &mut [i64], four: &Four, change: i64) {
    for row in four {
        if let Some(price) = prices.get_mut(usize::from(*row)) {
            *price = price.saturating_add(change);
        }
    }
}

/// Raises the price of each stop, as often as it stands there; the depot's stays 0.
#[inline(always)]
pub(crate) fn raise(prices: &mut [i64], stops: &[Four], change: i64) {
    for four in stops {
        raise_four(prices, four, change);
    }
    if let Some(price) = prices.first_mut() {
        *price = 0;
    }
}
