//! One step of the prices.

ghost use Rattle.std.specs.Prelude.{◌≡◌, length, IfOk};
ghost use Rattle.std.specs.List.{AllByRecursion};
ghost use Rattle.solomon_reader.specs.Problem.{customer_count};
ghost use Rattle.solomon_reader.specs.Plan.{count_of};
ghost use Rattle.solomon_reader.specs.CertificateText.{IsPrice};
ghost use Rattle.prices.specs.Steps.{price_after, IsStepped, IsNext};

use crate::fault::PriceFault;
use crate::priced::Priced;
use solomon_reader::MOST_PRICE;
use std::alloc::{AllocError, Global};

/// How often a customer stands in a route.
fn count_of(route: &[u16], customer: u16) -> usize
    ensures { result ≡ count_of customer route.now }
{
    route.iter().filter(|stop| **stop == customer).count()
}

/// A price after a step of this many grains, where the route visits the customer this often.
fn price_after(step: i64, count: usize, price: i64) -> i64
    ensures value { result ≡ price_after step count price }
    ensures in_range { IsPrice result }
{
    let most = i128::from(MOST_PRICE);
    let change = i128::from(step) * (1 - count as i128);
    let moved = i128::from(price) + change;
    moved.clamp(-most, most) as i64
}

/// The prices after a step of this many grains.
fn prices_after(alloc: Global, priced: &Priced<'_>, step: i64) -> Result<Vec<i64>, AllocError>
    ensures count { IfOk result (λ v. length v.items ≡ customer_count priced.now.problem) }
    ensures in_range { IfOk result (λ v. AllByRecursion IsPrice v.items) }
    ensures stepped { IfOk result (λ v. IsStepped priced.now step v.items) }
{
    let old = priced.prices();
    let route = priced.guide();
    let end = priced.instance().customer_count() + 1;
    let mut prices = Vec::new(alloc);
    for customer in 1..end {
        let count = count_of(route, customer);
        prices.push(price_after(step, count, old[usize::from(customer) - 1]))?;
    }
    Ok(prices)
}

/// The prices after a step of this many grains, with their value.
pub(crate) fn step_from<'i>(
    alloc: Global,
    priced: &Priced<'i>,
    step: i64,
    limit: Option<usize>,
) -> Result<Priced<'i>, PriceFault>
    ensures { IfOk result (λ f. IsNext priced.now step f) }
{
    let prices = prices_after(alloc, priced, step)?;
    let region = priced.region().try_clone()?;
    match Priced::of(
        alloc,
        priced.instance(),
        region,
        priced.neighbours(),
        prices,
        limit,
    ) {
        Ok(next) => Ok(next),
        Err((_, _, fault)) => Err(fault),
    }
}
