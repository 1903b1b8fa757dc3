//! The demands of an instance.

ghost use Rattle.std.specs.Prelude.{◌≡◌, ◌*◌, ◌≤◌};
ghost use Rattle.std.specs.List.{sum_by};
ghost use Rattle.solomon_reader.specs.Problem.{customers, demand};
ghost use Rattle.solomon_reader.specs.Bound.{fewest_routes};

use crate::instance::Instance;
use crate::limits::{MOST_CUSTOMERS, MOST_DEMAND};

impl Instance {
    /// How many vehicles carry all demands, rounded up: no plan has fewer routes.
    pub fn fewest_routes(&self) -> u32
        ensures value { result ≡ fewest_routes self.now }
        ensures bound { result ≤ MOST_CUSTOMERS * MOST_DEMAND }
    {
        let mut total: u32 = 0;
        for i in 1..self.customer_count() + 1 {
            total += u32::from(self.demand(i));
        }
        total.div_ceil(u32::from(self.capacity()))
    }
}
