//! The value of prices, from the least reduced cost.

ghost use Rattle.std.specs.Prelude.{◌≡◌, ◌+◌, ◌*◌, ◌<◌, ◌≤◌, length, pos, ◌-ℤ◌};
ghost use Rattle.std.specs.List.{AllByRecursion};
ghost use Rattle.solomon_reader.specs.Relaxed.{int_sum};
ghost use Rattle.solomon_reader.specs.Bound.{IsRoundedUp};
ghost use Rattle.solomon_reader.specs.SumLaws.{up, down};
ghost use Rattle.solomon_reader.specs.CertificateText.{IsPrice};
ghost use Rattle.solomon_reader.specs.declared.limits.TheConstants.{MOST_CUSTOMERS, MOST_DEMAND, MOST_FLEET, MOST_PRICE};
ghost use Rattle.solomon_reader.specs.SubsetRows.{row_price_sum};
ghost use Rattle.row_charges.specs.Rows.{rows_of};
ghost use Rattle.prices.specs.ValuedPrices.{or_zero, MOST_LEAST, MOST_NEEDS, MOST_VALUE};

use row_charges::PricedRow;

/// The grains of a tenth.
pub(crate) const GRAINS_OF_TENTH: u128 = 1_000;

/// A number of grains as the difference of two numbers that aren't negative.
#[derive(Clone, Copy)]
pub struct Grains {
    pub above: u128,
    pub below: u128,
}

impl Grains {
    /// This much more, in grains.
    pub(crate) fn more(self, grains: u128) -> Grains
        requires above { self.above ≤ MOST_CUSTOMERS * MOST_PRICE }
        requires more { grains ≤ MOST_NEEDS }
        ensures above { result.above ≡ self.above + grains }
        ensures below { result.below ≡ self.below }
    {
        Grains {
            above: self.above + grains,
            below: self.below,
        }
    }

    /// This much less, in grains.
    pub(crate) fn less(self, grains: u64) -> Grains
        requires below { self.below ≤ MOST_CUSTOMERS * MOST_PRICE }
        requires less { grains ≤ MOST_PRICE }
        ensures above { result.above ≡ self.above }
        ensures below { result.below ≡ self.below + grains }
    {
        Grains {
            above: self.above,
            below: self.below + u128::from(grains),
        }
    }
}

/// What rows charge together, in grains, where each charges once.
pub(crate) fn charge_of(rows: &[PricedRow]) -> u64
    requires { row_price_sum (rows_of rows.now) ≤ MOST_PRICE }
    ensures { result ≡ row_price_sum (rows_of rows.now) }
{
    let mut sum: u64 = 0;
    for row in rows {
        sum += row.price;
    }
    sum
}

/// The sum of the prices.
pub(crate) fn sum_of(prices: &[i64]) -> Grains
    requires priced { AllByRecursion IsPrice prices.now }
    requires few { length prices.now ≤ MOST_CUSTOMERS }
    ensures value { pos result.above -ℤ pos result.below ≡ int_sum prices.now }
    ensures above { result.above ≤ MOST_CUSTOMERS * MOST_PRICE }
    ensures below { result.below ≤ MOST_CUSTOMERS * MOST_PRICE }
{
    let mut above: u128 = 0;
    let mut below: u128 = 0;
    for price in prices {
        let size = u128::from(price.unsigned_abs());
        if *price < 0 {
            below += size;
        } else {
            above += size;
        }
    }
    Grains { above, below }
}

/// The least reduced cost, 0 where there is none.
pub(crate) fn least_of(least: Option<i128>) -> Grains
    ensures above { result.above ≡ up (or_zero least) }
    ensures below { result.below ≡ down (or_zero least) }
{
    match least {
        Some(cost) if cost < 0 => Grains {
            above: 0,
            below: cost.unsigned_abs(),
        },
        Some(cost) => Grains {
            above: cost.unsigned_abs(),
            below: 0,
        },
        None => Grains { above: 0, below: 0 },
    }
}

/// The value in tenths of prices with this sum, where each vehicle takes back what the least reduced
/// cost is below 0, and each of these routes costs at least what it is above. Rounded up, and 0
/// where the grains are below 0.
pub(crate) fn value_of(fleet: u16, routes: u32, sum: Grains, least: Grains) -> u128
    requires vehicles { fleet ≤ MOST_FLEET }
    requires routes { routes ≤ MOST_CUSTOMERS * MOST_DEMAND }
    requires sum_above { sum.above ≤ MOST_CUSTOMERS * MOST_PRICE + MOST_NEEDS }
    requires sum_below { sum.below ≤ MOST_CUSTOMERS * MOST_PRICE + MOST_PRICE }
    requires least_above { least.above ≤ MOST_LEAST }
    requires least_below { least.below ≤ MOST_LEAST }
    ensures value { IsRoundedUp (pos (sum.above + routes * least.above) -ℤ pos
        (sum.below + fleet * least.below)) result }
    ensures bound { result < MOST_VALUE }
{
    let above = sum.above + u128::from(routes) * least.above;
    let below = sum.below + u128::from(fleet) * least.below;
    above.saturating_sub(below).div_ceil(GRAINS_OF_TENTH)
}
