//! The customer that opens a route.

ghost use Rattle.std.specs.Prelude.{◌<◌, length, slice_index, IfSome, IfNone};
ghost use Rattle.std.specs.List.{All};
ghost use Rattle.solomon_reader.specs.Problem.{IsCustomer};
ghost use Rattle.insertion.specs.Routing.{IsAlone};

use schedule::walk;
use solomon_reader::Instance;

/// An unrouted customer by its index, and its distance from the depot, in tenths.
#[derive(Clone, Copy)]
struct Seed {
    index: usize,
    distance: u64,
}

/// The index of the customer that is farthest from the depot, ties to the lower one, of those that
/// a vehicle can serve alone.
pub(crate) fn farthest_alone(instance: &Instance, unrouted: &[u16]) -> Option<usize>
    requires { All (λ i. IsCustomer instance.now i) unrouted.now }
    ensures bound { IfSome result (λ index. index < length unrouted.now) }
    ensures alone { IfSome result (λ index. IsAlone instance.now (slice_index unrouted.now index)) }
    ensures none { IfNone result (All (λ i. ¬ IsAlone instance.now i) unrouted.now) }
{
    let mut best: Option<Seed> = None;
    for (index, customer) in unrouted.iter().enumerate() {
        if walk(instance, &[*customer]).is_some() {
            let distance = instance.distance(0, *customer).get();
            if best.is_none_or(|farthest| distance > farthest.distance) {
                best = Some(Seed { index, distance });
            }
        }
    }
    best.map(|farthest| farthest.index)
}
