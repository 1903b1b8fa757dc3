//! The routes that a decided region leaves, with prices that pay for each.

ghost use Rattle.std.specs.Prelude.{◌≡◌, ◌+◌, ◌*◌, ◌≤◌, pos, IfOk};
ghost use Rattle.solomon_reader.specs.Problem.{customer_count};
ghost use Rattle.solomon_reader.specs.Lists.{lists};
ghost use Rattle.solomon_reader.specs.declared.limits.TheConstants.{MOST_TIME};
ghost use Rattle.branching.specs.Choosing.{IsDecided};
ghost use Rattle.leaf_work.specs.Gathering.{IsGathered};

use crate::chain::route_from;
use crate::fee::MOST_FEE;
use branching::Region;
use solomon_reader::Instance;
use std::alloc::{AllocError, Global};

/// All fitting routes on allowed arcs. The price of the first stop of each is what it costs, and in
/// the raised prices a fee more; every other price is 0.
#[derive(Drop)]
pub(crate) struct Gathered {
    pub prices: Vec<i64>,
    pub raised: Vec<i64>,
    pub routes: Vec<Vec<u16>>,
}

/// The price of the first stop of a route, in grains.
fn priced(cost: u64, fee: u64) -> i64
    requires cost { cost ≤ 10 * MOST_TIME }
    requires fee { fee ≤ MOST_FEE }
    ensures { result ≡ pos (1000 * cost + fee) }
{
    (1_000 * cost + fee) as i64
}

/// The routes that a decided region leaves, with their prices.
pub(crate) fn gather(
    alloc: Global,
    instance: &Instance,
    region: &Region,
    fee: u64,
) -> Result<Gathered, AllocError>
    requires decided { IsDecided region.now }
    requires fee { fee ≤ MOST_FEE }
    ensures prices { IfOk result (λ a. IsGathered instance.now region.now
        (customer_count instance.now + 1) 0 a.prices.items (lists a.routes.items)) }
    ensures raised { IfOk result (λ a. IsGathered instance.now region.now
        (customer_count instance.now + 1) fee a.raised.items (lists a.routes.items)) }
{
    let mut prices = Vec::new(alloc);
    let mut raised = Vec::new(alloc);
    let mut routes = Vec::new(alloc);
    for customer in 1..instance.customer_count() + 1 {
        match route_from(alloc, instance, region, customer)? {
            Some((route, cost)) => {
                prices.push(priced(cost, 0))?;
                raised.push(priced(cost, fee))?;
                routes.push(route)?;
            }
            None => {
                prices.push(0)?;
                raised.push(0)?;
            }
        }
    }
    Ok(Gathered {
        prices,
        raised,
        routes,
    })
}
