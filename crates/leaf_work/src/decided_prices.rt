//! Prices at which a decided region's value is the cost of its plans.

ghost use Rattle.std.specs.Prelude.{◌≡◌, ◌≤◌, ◌-◌, pos, ◌+ℤ◌, length, slice_set, slice_index_or, IfOk, IfSome};
ghost use Rattle.std.specs.List.{AllByRecursion};
ghost use Rattle.solomon_reader.specs.Problem.{customer_count};
ghost use Rattle.solomon_reader.specs.CertificateText.{IsPrice};
ghost use Rattle.branching.specs.Choosing.{IsDecided};
ghost use Rattle.leaf_work.specs.Gathering.{HasRoom};
ghost use Rattle.leaf_work.specs.DecidedPrices.{AreDecidedPrices};

use crate::fee::{MOST_FEE, fee_of};
use crate::gathering::gather;
use crate::serving::unserved;
use branching::Region;
use schedule::Feasible;
use solomon_reader::Instance;
use std::alloc::{AllocError, Global};

/// The prices with that of one customer raised by a fee, in grains.
fn raise(mut prices: Vec<i64>, customer: u16, fee: u64) -> Vec<i64>
    requires room { AllByRecursion HasRoom prices.items }
    requires fee { fee ≤ MOST_FEE }
    requires low { 1 ≤ customer }
    requires high { customer ≤ length prices.items }
    ensures { result.items ≡ slice_set prices.items (customer - 1)
        (slice_index_or prices.items (customer - 1) (pos 0) +ℤ pos fee) }
{
    let place = usize::from(customer) - 1;
    prices[place] += fee as i64;
    prices
}

/// Prices in grains for a region whose allowed arcs are all required, that of customer i at i - 1,
/// and the plan that obeys it. The first stop of each route pays what the route costs, so that every
/// reduced cost is 0 and the value is the plan's cost. Where the routes are more than the vehicles,
/// each pays a fee beside, of which the vehicles win back all but one at most; where a customer stands
/// on no route, it pays the fee. Then the value is above the ceiling, and no plan obeys the region.
pub(crate) fn decided_prices<'i>(
    alloc: Global,
    instance: &'i Instance,
    region: &Region,
) -> Result<(Vec<i64>, Option<Feasible<'i>>), AllocError>
    requires decided { IsDecided region.now }
    requires size { region.now.size ≡ customer_count instance.now }
    ensures count { IfOk result (λ s. length s.0.items ≡ customer_count instance.now) }
    ensures in_range { IfOk result (λ s. AllByRecursion IsPrice s.0.items) }
    ensures problem { IfOk result (λ s. IfSome s.1 (λ f. f.problem ≡ instance.now)) }
    ensures deciding { IfOk result (λ s. AreDecidedPrices instance.now region.now s.0.items s.1) }
{
    // brings in that each required arc is between two of the region's numbers
    let _size = region.size();
    let fee = fee_of(instance);
    let found = gather(alloc, instance, region, fee)?;
    if found.routes.len() > usize::from(instance.fleet()) {
        return Ok((found.raised, None));
    }
    if let Some(customer) = unserved(instance, found.routes.as_slice()) {
        return Ok((raise(found.prices, customer, fee), None));
    }
    let plan = Feasible::known(instance, found.routes);
    Ok((found.prices, Some(plan)))
}
