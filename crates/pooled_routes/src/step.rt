//! How far a projection goes on along a way: what some sweeps changed of multipliers and prices.
//!
//! No contract speaks of it: it is a rule of search, and any prices are sound.

/// A whole way, in thousandths.
const WHOLE: i64 = 1_000;

/// The longest step, in thousandths of its way.
const LONGEST: i64 = 30 * WHOLE;

/// How far to go on along a way, in thousandths of it.
#[derive(Clone, Copy)]
pub(crate) struct Step {
    thousandths: i64,
}

impl Step {
    /// The step to where a projection gains nothing more along its way. The slope is the sum of the slacks, each times
    /// the way of its multiplier; the square is that of the way of the prices. No step where the way gains nothing.
    pub(crate) fn exact(slope: i128, square: i128) -> Option<Step> {
        let gain = 0i128.saturating_sub(slope).max(0);
        let parts = gain.saturating_mul(i128::from(WHOLE));
        let exact = parts.checked_div(square).unwrap_or(0);
        let thousandths = exact.clamp(0, i128::from(LONGEST)) as i64;
        (thousandths > 0).then_some(Step { thousandths })
    }

    /// How far the step moves a multiplier that stood there before; it stays at 0 or above.
    pub(crate) fn change(self, multiplier: i64, before: i64) -> i64 {
        let way = multiplier.saturating_sub(before);
        let change = way.saturating_mul(self.thousandths) / WHOLE;
        change.max(0i64.saturating_sub(multiplier))
    }
}

/// A slack times the way of its multiplier.
pub(crate) fn slope(multiplier: i64, before: i64, slack: i64) -> i128 {
    let way = multiplier.saturating_sub(before);
    i128::from(way).saturating_mul(i128::from(slack))
}

/// The square of the way of a price.
pub(crate) fn square(price: i64, before: i64) -> i128 {
    let way = i128::from(price.saturating_sub(before));
    way.saturating_mul(way)
}
