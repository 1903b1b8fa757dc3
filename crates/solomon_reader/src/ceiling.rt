//! The ceiling of an instance.

ghost use Rattle.std.specs.Prelude.{◌≡◌, ◌+◌, ◌*◌, ◌<◌, ◌≤◌, length, map};
ghost use Rattle.std.specs.List.{range_with_len};
ghost use Rattle.solomon_reader.specs.Distance.{distance};
ghost use Rattle.solomon_reader.specs.Bound.{greatest_of, greatest_distance, ceiling_of};

use crate::instance::Instance;
use crate::limits::{MOST_CUSTOMERS, MOST_DISTANCE};
use tenths::Tenths;

/// The greatest distance from a row to a row, in tenths.
#[tactic(auto, using(crate::proofs::Longest::greatest_more))]
fn longest_from(instance: &Instance, i: u16) -> u32
    requires { i < length instance.now.rows }
    ensures value { result ≡ greatest_of
        (map (λ j. distance instance.now i j) (range_with_len 0 (length instance.now.rows))) }
    ensures bound { result ≤ MOST_DISTANCE }
{
    let mut longest = 0;
    for j in 0..instance.customer_count() + 1 {
        longest = longest.max(instance.distance(i, j).get() as u32);
    }
    longest
}

/// The greatest distance between two rows, in tenths.
#[tactic(auto, using(crate::proofs::Longest::greatest_rows_more))]
fn longest(instance: &Instance) -> u32
    ensures value { result ≡ greatest_distance instance.now }
    ensures bound { result ≤ MOST_DISTANCE }
{
    let mut longest = 0;
    for i in 0..instance.customer_count() + 1 {
        longest = longest.max(longest_from(instance, i));
    }
    longest
}

impl Instance {
    /// What no plan costs more than, in tenths: twice the number of customers times the greatest
    /// distance, since a plan has at most two arcs a customer.
    pub fn ceiling(&self) -> Tenths
        ensures value { result ≡ ceiling_of self.now }
        ensures bound { result ≤ 2 * MOST_CUSTOMERS * MOST_DISTANCE }
    {
        Tenths::from(2 * u32::from(self.customer_count()) * longest(self))
    }

    /// The ceiling and one more, in tenths: what each plan costs less than.
    pub fn above_ceiling(&self) -> u32
        ensures value { result ≡ ceiling_of self.now + 1 }
        ensures bound { result ≤ 2 * MOST_CUSTOMERS * MOST_DISTANCE + 1 }
    {
        self.ceiling().get() as u32 + 1
    }
}
