//! Whether a set of customers needs so many entries.

ghost use Rattle.std.specs.Prelude.{◌≡◌, ◌≤◌, ◌*◌, ◌↔◌, IfOk, IsTrue};
ghost use Rattle.std.specs.List.{sum_by};
ghost use Rattle.solomon_reader.specs.declared.limits.TheConstants.{MOST_CUSTOMERS, MOST_DEMAND};
ghost use Rattle.solomon_reader.specs.Problem.{customer_count};
ghost use Rattle.solomon_reader.specs.CustomerSets.{IsCustomerSet, IsNeeded, need_by_load};

use crate::serving::are_served_in_time;
use crate::ways::QuickestWays;
use solomon_reader::Instance;
use std::alloc::{AllocError, Global};

/// Of so many customers at most it is asked whether one vehicle can serve them in time.
const MOST_TIMED: usize = 10;

/// How many vehicles carry the demands of a set, rounded up.
fn need_by_load(instance: &Instance, members: &[u16]) -> u32
    requires { IsCustomerSet (customer_count instance.now) members.now }
    ensures { result ≡ need_by_load instance.now members.now }
{
    instance.law_of_limits();
    let mut load: u32 = 0;
    for member in members {
        load += u32::from(instance.demand(*member));
    }
    load.div_ceil(u32::from(instance.capacity()))
}

/// Whether each plan has to enter a set of customers, given in increasing order, so many times: since its demands
/// fill so many vehicles (Laporte and Nobert 1983), or, twice, since no vehicle can serve its at most 10 customers in
/// time (Kohl, Desrosiers, Madsen, Solomon and Soumis 1999). `AllocError` where memory was refused.
pub fn is_needed(
    alloc: Global,
    instance: &Instance,
    ways: &QuickestWays<'_>,
    members: &[u16],
    need: u32,
) -> Result<bool, AllocError>
    requires ways { ways.now ≡ instance.now }
    requires set { IsCustomerSet (customer_count instance.now) members.now }
    ensures { IfOk result (λ r. IsTrue r ↔ IsNeeded instance.now members.now need) }
{
    instance.law_of_limits();
    if need <= need_by_load(instance, members) {
        return Ok(true);
    }
    if need > 2 || members.is_empty() || members.len() > MOST_TIMED {
        return Ok(false);
    }
    let is_served = are_served_in_time(alloc, instance, ways, members)?;
    Ok(!is_served)
}
