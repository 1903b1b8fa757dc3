//! Prices for regions without a relaxed route.

ghost use Rattle.std.specs.Prelude.{◌≡◌, ◌+◌, ◌*◌, length, pos, IfOk};
ghost use Rattle.std.specs.List.{AllByRecursion};
ghost use Rattle.solomon_reader.specs.Problem.{customer_count};
ghost use Rattle.solomon_reader.specs.Bound.{ceiling_of};
ghost use Rattle.solomon_reader.specs.CertificateText.{IsPrice};

use crate::valuing::GRAINS_OF_TENTH;
use solomon_reader::Instance;
use std::alloc::{AllocError, Global};

/// A price in grains, 1,000 to a tenth of a unit: the ceiling and a tenth more. With it for each customer a region
/// without a relaxed route has a value above the cost of every plan.
pub fn high_price(instance: &Instance) -> i64
    ensures value { result ≡ pos (1000 * (ceiling_of instance.now + 1)) }
    ensures in_range { IsPrice result }
{
    i64::from(instance.above_ceiling()) * GRAINS_OF_TENTH as i64
}

/// The high price for each customer, in grains; that of customer i stands at i - 1. `AllocError` where memory is
/// refused.
pub fn high_prices(alloc: Global, instance: &Instance) -> Result<Vec<i64>, AllocError>
    ensures count { IfOk result (λ v. length v.items ≡ customer_count instance.now) }
    ensures high { IfOk result (λ v. AllByRecursion (λ z. z ≡ pos (1000 * (ceiling_of instance.now + 1))) v.items) }
    ensures in_range { IfOk result (λ v. AllByRecursion IsPrice v.items) }
{
    let count = instance.customer_count();
    Ok(vec![in alloc; high_price(instance); count as usize]?)
}
