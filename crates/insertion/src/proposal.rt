//! The insertion that is best next.

ghost use Rattle.std.specs.Prelude.{◌≤◌, ◌<◌, ◌^◌, length, IfSome, unsigned_abs};
ghost use Rattle.std.specs.List.{All};
ghost use Rattle.solomon_reader.specs.Problem.{IsCustomer};
ghost use Rattle.insertion.specs.Places.{IsBoundedPlace};

use crate::place::Place;
use crate::route::OpenRoute;
use crate::weights::Weights;
use solomon_reader::Instance;

/// A position in a route that a customer may be put before, and the criterion c1 there.
#[derive(Clone, Copy)]
struct Candidate {
    position: usize,
    cost: i64,
    ghost bound: { unsigned_abs cost ≤ 10 ^ 15 },
}

/// An unrouted customer by its index, its position in the route, and its criterion c2.
#[derive(Clone, Copy)]
pub(crate) struct Proposal {
    pub(crate) unrouted: usize,
    pub(crate) position: usize,
    gain: i64,
}

/// The criterion c1 of a customer in this place, or `None` where the route would be late.
fn cost_in(instance: &Instance, weights: &Weights, place: &Place, customer: u16) -> Option<i64>
    requires place { IsBoundedPlace instance.now place.now }
    requires customer { IsCustomer instance.now customer }
    ensures { IfSome result (λ cost. unsigned_abs cost ≤ 10 ^ 15) }
{
    let to = instance.distance(place.before, customer).get();
    let from = instance.distance(customer, place.after).get();
    let begins = (place.leaves + to).max(instance.ready(customer));
    let reached = begins + instance.service(customer) + from;
    if begins > instance.due(customer) || reached > place.latest {
        return None;
    }
    let detour = weights.detour((to + from) as i64, place.arc as i64);
    let delay = reached.max(instance.ready(place.after)) as i64 - place.begins as i64;
    Some(weights.cost(detour, delay))
}

/// The candidate of least c1 for a customer, ties to the lower position, or `None` where it has none.
fn best_candidate(weights: &Weights, route: &OpenRoute<'_>, customer: u16) -> Option<Candidate>
    requires { IsCustomer route.now.instance.now customer }
    ensures { IfSome result (λ candidate. candidate.position < length route.now.places.items) }
{
    let instance = route.instance;
    if u32::from(instance.demand(customer)) > route.room {
        return None;
    }
    let mut best: Option<Candidate> = None;
    for (position, place) in route.places.iter().enumerate() {
        if let Some(cost) = cost_in(instance, weights, place, customer) {
            if best.is_none_or(|least| cost < least.cost) {
                best = Some(Candidate { position, cost });
            }
        }
    }
    best
}

/// The insertion of greatest c2, ties to the lower customer, or `None` where no customer has a
/// candidate.
pub(crate) fn best_proposal(
    weights: &Weights,
    route: &OpenRoute<'_>,
    unrouted: &[u16],
) -> Option<Proposal>
    requires { All (λ i. IsCustomer route.now.instance.now i) unrouted.now }
    ensures customer { IfSome result (λ best. best.unrouted < length unrouted.now) }
    ensures position { IfSome result (λ best. best.position ≤ length route.now.visits.items) }
{
    let mut best: Option<Proposal> = None;
    for (index, customer) in unrouted.iter().enumerate() {
        if let Some(candidate) = best_candidate(weights, route, *customer) {
            let from_depot = route.instance.distance(0, *customer).get();
            let gain = weights.gain(from_depot as i64, candidate.cost);
            if best.is_none_or(|most| gain > most.gain) {
                best = Some(Proposal {
                    unrouted: index,
                    position: candidate.position,
                    gain,
                });
            }
        }
    }
    best
}
