//! Customers that no route serves.

ghost use Rattle.std.specs.Prelude.{◌≡◌, ◌≤◌, ℕ, IsTrue, IsFalse, IfSome, IfNone};
ghost use Rattle.solomon_reader.specs.Problem.{IsCustomer};
ghost use Rattle.solomon_reader.specs.Plan.{count_of};
ghost use Rattle.solomon_reader.specs.Lists.{lists};
ghost use Rattle.solomon_reader.specs.PlanDefects.{stops};

use solomon_reader::Instance;

/// How often a customer stands in a route.
fn visits_of(route: &[u16], customer: u16) -> usize
    ensures { result ≡ count_of customer route.now }
{
    route.iter().filter(|stop| **stop == customer).count()
}

/// Whether a customer stands in some route.
fn is_served(routes: &[Vec<u16>], customer: u16) -> bool
    ensures found { IsTrue result → 1 ≤ count_of customer (stops (lists routes.now)) }
    ensures none { IsFalse result → count_of customer (stops (lists routes.now)) ≡ 0 }
{
    for route in routes {
        if visits_of(route.as_slice(), customer) > 0 {
            return true;
        }
    }
    false
}

/// The first customer that stands in no route.
pub(crate) fn unserved(instance: &Instance, routes: &[Vec<u16>]) -> Option<u16>
    ensures customer { IfSome result (λ i. IsCustomer instance.now i) }
    ensures missing { IfSome result (λ i. count_of i (stops (lists routes.now)) ≡ 0) }
    ensures none { IfNone result ((i : ℕ) → IsCustomer instance.now i → 1 ≤ count_of i
        (stops (lists routes.now))) }
{
    for customer in 1..instance.customer_count() + 1 {
        if !is_served(routes, customer) {
            return Some(customer);
        }
    }
    None
}
