//! The build.

ghost use Rattle.std.specs.Prelude.{◌≡◌, ◌<◌, ◌++◌, length, slice_index, IfOk, MatchOption, OnOk};
ghost use Rattle.std.specs.List.{All};
ghost use Rattle.std.specs.List.Sorted.{IsPermutation, IsStrictlyIncreasing};
ghost use Rattle.solomon_reader.specs.Problem.{customers, IsCustomer};
ghost use Rattle.solomon_reader.specs.Plan.{IsFitting};
ghost use Rattle.solomon_reader.specs.Lists.{lists};
ghost use Rattle.insertion.specs.Routing.{IsAlone, Takes, IsRouted};
ghost use Rattle.insertion.specs.Building.{IsServedAlone, IsBuilt, IsWhole};

use crate::built::Built;
use crate::fault::InsertFault;
use crate::opening::farthest_alone;
use crate::proposal::best_proposal;
use crate::route::OpenRoute;
use crate::weights::Weights;
use schedule::Feasible;
use solomon_reader::Instance;
use std::alloc::{AllocError, Global};

/// The customers, in rising order.
fn numbers(alloc: Global, instance: &Instance) -> Result<Vec<u16>, AllocError>
    ensures { IfOk result (λ v. v.items ≡ customers instance.now) }
{
    (1..instance.customer_count() + 1).collect(alloc)
}

/// Takes customers over into the route, the best insertion first, until none has a candidate.
fn fill<'i>(
    alloc: Global,
    weights: &Weights,
    seeded: OpenRoute<'i>,
    unrouted: &mut Vec<u16>,
) -> Result<Vec<u16>, AllocError>
    requires fits { IsFitting seeded.instance.now seeded.visits.items }
    requires known { All (λ i. IsCustomer seeded.instance.now i) unrouted.old.items }
    ensures fitting { IfOk result (λ v. IsFitting seeded.entry.instance.now v.items) }
    ensures moved { IfOk result (λ v. IsPermutation
        (seeded.entry.visits.items ++ unrouted.old.items) (v.items ++ unrouted.new.items)) }
    ensures rising { OnOk result (IsStrictlyIncreasing unrouted.old.items
        → IsStrictlyIncreasing unrouted.new.items) }
{
    let mut route = seeded;
    while let Some(proposal) = best_proposal(weights, &route, unrouted) {
        let customer = unrouted[proposal.unrouted];
        let Some(longer) = route.with(alloc, proposal.position, customer)? else {
            break;
        };
        unrouted.remove(proposal.unrouted);
        route = longer;
    }
    Ok(route.visits)
}

/// Opens a route with the unrouted customer at this index, and fills it.
fn next_route(
    alloc: Global,
    instance: &Instance,
    weights: &Weights,
    unrouted: &mut Vec<u16>,
    seed: usize,
) -> Result<Vec<u16>, AllocError>
    requires bound { seed < length unrouted.old.items }
    requires alone { IsAlone instance.now (slice_index unrouted.old.items seed) }
    requires known { All (λ i. IsCustomer instance.now i) unrouted.old.items }
    ensures fitting { IfOk result (λ v. IsFitting instance.now v.items) }
    ensures taken { IfOk result (λ v. Takes unrouted.old.items v.items unrouted.new.items) }
{
    let visits = vec![in alloc; unrouted[seed]]?;
    let Some(route) = OpenRoute::new(alloc, instance, visits)? else {
        unreachable!()
    };
    unrouted.remove(seed);
    fill(alloc, weights, route, unrouted)
}

/// Opens and fills a route after the other, until there are as many as vehicles or no customer can
/// be served alone.
fn all_routes(
    alloc: Global,
    instance: &Instance,
    weights: &Weights,
    unrouted: &mut Vec<u16>,
) -> Result<Vec<Vec<u16>>, AllocError>
    requires { All (λ i. IsCustomer instance.now i) unrouted.old.items }
    ensures { IfOk result (λ v. IsRouted instance.now unrouted.old.items
        (lists v.items) unrouted.new.items) }
{
    let mut routes = Vec::new(alloc);
    for _ in 0..instance.fleet() {
        let Some(seed) = farthest_alone(instance, unrouted) else {
            break;
        };
        let route = next_route(alloc, instance, weights, unrouted, seed)?;
        routes.push(route)?;
    }
    Ok(routes)
}

/// The answer of these routes and the customers that stand in none.
fn answer<'i>(instance: &'i Instance, routes: Vec<Vec<u16>>, unrouted: Vec<u16>) -> Built<'i>
    requires { IsRouted instance.now (customers instance.now) (lists routes.items) unrouted.items }
    ensures built { IsBuilt instance.now result }
    ensures certain { IsServedAlone instance.now → IsWhole result }
{
    if !unrouted.is_empty() {
        return Built::Part {
            routes,
            left: unrouted,
        };
    }
    Built::Whole(Feasible::known(instance, routes))
}

/// Builds routes one after the other (Solomon 1987, insertion heuristic I1). Of the customers that
/// a vehicle can serve alone, the farthest from the depot opens a route, which then takes the
/// customer whose insertion gains most, at the position where it costs least, until none can be put
/// into it; no more routes are opened than there are vehicles. Ties go to the lower customer and the
/// lower position.
pub fn build<'i>(
    alloc: Global,
    instance: &'i Instance,
    weights: &Weights,
) -> Result<Built<'i>, InsertFault>
    ensures built { IfOk result (λ b. IsBuilt instance.now b) }
    ensures certain { IsServedAlone instance.now → IfOk result (λ b. IsWhole b) }
{
    let mut unrouted = numbers(alloc, instance)?;
    let routes = all_routes(alloc, instance, weights, &mut unrouted)?;
    Ok(answer(instance, routes, unrouted))
}

/// A plan that `build` makes with these weights, if what it makes is one. There is none only where the fleet
/// has fewer vehicles than customers, or a customer can't be served alone.
pub fn build_whole<'i>(
    alloc: Global,
    instance: &'i Instance,
    weights: &Weights,
) -> Result<Option<Feasible<'i>>, AllocError>
    ensures { IfOk result (λ plan. MatchOption plan (¬ IsServedAlone instance.now)
        (λ f. f.problem ≡ instance.now)) }
{
    match build(alloc, instance, weights) {
        Ok(Built::Whole(plan)) => Ok(Some(plan)),
        Ok(Built::Part { .. }) => Ok(None),
        Err(InsertFault::Memory) => Err(AllocError),
    }
}
