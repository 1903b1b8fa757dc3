//! Walks of routes.

ghost use Rattle.std.specs.Prelude.{◌≡◌, ℕ, ◌+◌, ◌*◌, ◌<◌, ◌≤◌, length, IsTrue, IsFalse, IfSome, IfNone};
ghost use Rattle.std.specs.List.{All, Any};
ghost use Rattle.solomon_reader.specs.declared.limits.TheConstants.{MOST_CUSTOMERS, MOST_TIME};
ghost use Rattle.solomon_reader.specs.Distance.{distance};
ghost use Rattle.solomon_reader.specs.Plan.{IsFitting, Finishes, route_cost, load_of};
ghost use Rattle.solomon_reader.specs.Problem.{IsCustomer, demand, service};
ghost use Rattle.solomon_reader.specs.Steps.{start_of, CanServe};

use crate::summary::Walk;
use solomon_reader::Instance;
use tenths::Tenths;

/// A vehicle that is done at a stop, or about to leave the depot, and what it has cost and loaded
/// so far. Time and cost are tenths.
#[derive(Clone, Copy)]
struct Vehicle {
    at: u16,
    time: u64,
    cost: u64,
    load: u32,
}

/// Whether each visit is a customer's.
pub fn are_customers(instance: &Instance, visits: &[u16]) -> bool
    ensures stranger { IsFalse result → Any (λ i. ¬ IsCustomer instance.now i) visits.now }
    ensures known { IsTrue result → All (λ i. IsCustomer instance.now i) visits.now }
    ensures small { IsTrue result → All (λ i. i ≤ MOST_CUSTOMERS) visits.now }
{
    let count = instance.customer_count();
    visits.iter().all(|&stop| 1 <= stop && stop <= count)
}

/// Drives to a customer and serves it, or `None` where it is too much to load or too late.
fn advance(instance: &Instance, vehicle: Vehicle, stop: u16) -> Option<Vehicle>
    requires from { vehicle.at < length instance.now.rows }
    requires to { IsCustomer instance.now stop }
    requires load { vehicle.load ≤ instance.now.capacity }
    requires time { vehicle.time ≤ 20 * MOST_TIME }
    requires cost { vehicle.cost ≤ vehicle.time }
    ensures at { IfSome result (λ v. v.at ≡ stop) }
    ensures time { let start = start_of instance.now vehicle.at vehicle.time stop in
        IfSome result (λ v. v.time ≡ start + service instance.now stop) }
    ensures bound { IfSome result (λ v. v.time ≤ 20 * MOST_TIME) }
    ensures cost { IfSome result (λ v. v.cost ≡ vehicle.cost + distance instance.now vehicle.at
        stop) }
    ensures load { IfSome result (λ v. v.load ≡ vehicle.load + demand instance.now stop) }
    ensures served { IfSome result (λ _. CanServe instance.now vehicle.at vehicle.time vehicle.load
        stop) }
    ensures none { IfNone result (¬ CanServe instance.now vehicle.at vehicle.time vehicle.load
        stop) }
{
    let capacity = u32::from(instance.capacity());
    let load = vehicle.load + u32::from(instance.demand(stop));
    let arc = instance.distance(vehicle.at, stop).get();
    let start = (vehicle.time + arc).max(instance.ready(stop));
    if load > capacity || start > instance.due(stop) {
        return None;
    }
    Some(Vehicle {
        at: stop,
        time: start + instance.service(stop),
        cost: vehicle.cost + arc,
        load,
    })
}

/// Walks a list of customers, each as often as it stands there; `None` where it is no fitting
/// route.
pub fn walk(instance: &Instance, visits: &[u16]) -> Option<Walk>
    ensures fits { IfSome result (λ w. IsFitting instance.now visits.now) }
    ensures cost { IfSome result (λ w. w.cost ≡ route_cost instance.now visits.now) }
    ensures load { IfSome result (λ w. w.load ≡ load_of instance.now visits.now) }
    ensures finish { IfSome result (λ w. Finishes instance.now visits.now w.finish) }
    ensures none { IfNone result (¬ IsFitting instance.now visits.now) }
    ensures small { IfSome result (λ w. w.cost ≤ 10 * MOST_TIME) }
{
    if visits.is_empty() || !are_customers(instance, visits) {
        return None;
    }
    let mut vehicle = Vehicle {
        at: 0,
        time: instance.ready(0),
        cost: 0,
        load: 0,
    };
    for stop in visits {
        vehicle = advance(instance, vehicle, *stop)?;
    }
    let arc = instance.distance(vehicle.at, 0).get();
    let finish = vehicle.time + arc;
    if finish > instance.due(0) {
        return None;
    }
    Some(Walk {
        cost: Tenths::from((vehicle.cost + arc) as u32),
        load: vehicle.load,
        finish: Tenths::from(finish as u32),
    })
}
