//! Walks of routes.

ghost use Rattle.std.specs.Prelude.{◌≡◌, ◌+◌, ◌*◌, ◌<◌, ◌≤◌, length, MatchBool, IfSome, IfNone};
ghost use Rattle.std.specs.List.{All};
ghost use Rattle.solomon_reader.specs.declared.limits.TheConstants.{MOST_TIME};
ghost use Rattle.solomon_reader.specs.Distance.{distance};
ghost use Rattle.solomon_reader.specs.Plan.{IsFitting, HasWalk, load_of, route_cost};
ghost use Rattle.solomon_reader.specs.Problem.{IsCustomer, due, service};
ghost use Rattle.solomon_reader.specs.Steps.{start_of};

use solomon_reader::Instance;

/// Whether the demands of a route are at most what a vehicle holds.
pub(crate) fn is_within_capacity(instance: &Instance, stops: &[u16]) -> bool
    requires { All (λ i. IsCustomer instance.now i) stops.now }
    ensures { MatchBool result (load_of instance.now stops.now ≤ instance.now.capacity)
        (instance.now.capacity < load_of instance.now stops.now) }
{
    let mut left = instance.capacity();
    for stop in stops {
        let demand = instance.demand(*stop);
        if demand > left {
            return false;
        }
        left -= demand;
    }
    true
}

/// A vehicle that may leave a stop, or the depot: since when, in tenths, and what its arcs cost so
/// far, in tenths.
#[derive(Clone, Copy)]
struct Vehicle {
    stop: u16,
    ready: u64,
    cost: u64,
}

/// The vehicle after it served a customer, or none where it comes too late.
fn serve(instance: &Instance, vehicle: Vehicle, stop: u16) -> Option<Vehicle>
    requires from { vehicle.stop < length instance.now.rows }
    requires to { IsCustomer instance.now stop }
    requires ready { vehicle.ready ≤ 20 * MOST_TIME }
    requires cost { vehicle.cost ≤ vehicle.ready }
    ensures stop { IfSome result (λ v. v.stop ≡ stop) }
    ensures ready { IfSome result (λ v. v.ready ≡ start_of instance.now vehicle.stop vehicle.ready
        stop + service instance.now stop) }
    ensures soon { IfSome result (λ v. v.ready ≤ 20 * MOST_TIME) }
    ensures cost { IfSome result (λ v. v.cost ≡ vehicle.cost + distance instance.now vehicle.stop
        stop) }
    ensures timely { IfSome result (λ _. start_of instance.now vehicle.stop vehicle.ready stop
        ≤ due instance.now stop) }
    ensures late { IfNone result (due instance.now stop < start_of instance.now vehicle.stop
        vehicle.ready stop) }
{
    let arc = instance.distance(vehicle.stop, stop).get();
    let begin = instance.ready(stop).max(vehicle.ready + arc);
    if begin > instance.due(stop) {
        return None;
    }
    Some(Vehicle {
        stop,
        ready: begin + instance.service(stop),
        cost: vehicle.cost + arc,
    })
}

/// What a route that a vehicle can load costs in tenths, or none where it comes too late.
pub(crate) fn drive(instance: &Instance, stops: &[u16]) -> Option<u64>
    requires some { 0 < length stops.now }
    requires known { All (λ i. IsCustomer instance.now i) stops.now }
    requires light { load_of instance.now stops.now ≤ instance.now.capacity }
    ensures fits { IfSome result (λ _. IsFitting instance.now stops.now) }
    ensures cost { IfSome result (λ cost. cost ≡ route_cost instance.now stops.now) }
    ensures small { IfSome result (λ cost. cost ≤ 10 * MOST_TIME) }
    ensures late { IfNone result (¬ HasWalk instance.now stops.now) }
{
    let mut vehicle = Vehicle {
        stop: 0,
        ready: instance.ready(0),
        cost: 0,
    };
    for stop in stops {
        vehicle = serve(instance, vehicle, *stop)?;
    }
    let arc = instance.distance(vehicle.stop, 0).get();
    if vehicle.ready + arc > instance.due(0) {
        return None;
    }
    Some(vehicle.cost + arc)
}
