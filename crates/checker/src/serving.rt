//! Who is served by routes.

ghost use Rattle.std.specs.Prelude.{◌≡◌, ℕ, ◌+◌, ◌<◌, ◌≤◌, List, [], ◌∷◌, ◌++◌, length, MatchBool, IfOk, IfErr};
ghost use Rattle.std.specs.List.{All, Any};
ghost use Rattle.solomon_reader.specs.Plan.{count_of};
ghost use Rattle.solomon_reader.specs.Problem.{IsCustomer, customer_count};
ghost use Rattle.solomon_reader.specs.PlanDefects.{stops};
ghost use Rattle.solomon_reader.specs.Lists.{lists};
ghost use Rattle.checker.specs.Plans.{RefusesRoutes};
ghost use Rattle.checker.specs.Counted.{AreCounted};

use crate::fault::CheckFault;
use solomon_reader::{Instance, PlanFault};
use std::alloc::{AllocError, Global};

/// Counts of the numbers below this one, with nothing counted.
fn no_visits(alloc: Global, count: u16) -> Result<Vec<u8>, AllocError>
    ensures none { IfOk result (λ v. AreCounted [] v.items) }
    ensures count { IfOk result (λ v. length v.items ≡ count) }
{
    let mut visits = Vec::new(alloc);
    visits.resize(usize::from(count), 0)?;
    Ok(visits)
}

/// Counts a stop, and answers whether it is a customer's.
fn count_stop(instance: &Instance, visits: &mut Vec<u8>, stop: u16) -> bool
    requires { length visits.old.items ≡ customer_count instance.now + 1 }
    ensures count { length visits.new.items ≡ length visits.old.items }
    ensures known { MatchBool result (IsCustomer instance.now stop) (¬ IsCustomer instance.now stop) }
    ensures counted { (before : List ℕ) → AreCounted before visits.old.items
        → MatchBool result (AreCounted (before ++ stop ∷ []) visits.new.items) (Unit {0}) }
{
    if stop == 0 || stop > instance.customer_count() {
        return false;
    }
    let index = usize::from(stop);
    visits[index] = visits[index].saturating_add(1);
    true
}

/// Counts the stops of a route, and answers whether each is a customer's.
fn count_stops(instance: &Instance, visits: &mut Vec<u8>, stops: &[u16]) -> bool
    requires { length visits.old.items ≡ customer_count instance.now + 1 }
    ensures count { length visits.new.items ≡ length visits.old.items }
    ensures known { MatchBool result (All (λ i. IsCustomer instance.now i) stops.now)
        (Any (λ i. ¬ IsCustomer instance.now i) stops.now) }
    ensures counted { (before : List ℕ) → AreCounted before visits.old.items
        → MatchBool result (AreCounted (before ++ stops.now) visits.new.items) (Unit {0}) }
{
    for stop in stops {
        if !count_stop(instance, visits, *stop) {
            return false;
        }
    }
    true
}

/// How often each customer stands in the routes. `PlanRefused` with `EmptyRoute` or `UnknownCustomer`, and
/// `Memory`.
fn count_visits(
    alloc: Global,
    instance: &Instance,
    routes: &[Vec<u16>],
) -> Result<Vec<u8>, CheckFault>
    ensures some { IfOk result (λ _. All (λ r. 0 < length r.items) routes.now) }
    ensures known { IfOk result (λ _. All
        (λ r. All (λ i. IsCustomer instance.now i) r.items) routes.now) }
    ensures counted { IfOk result (λ v. AreCounted (stops (lists routes.now)) v.items) }
    ensures count { IfOk result (λ v. length v.items ≡ customer_count instance.now + 1) }
    ensures refused { IfErr result (λ e. RefusesRoutes instance.now (lists routes.now) e) }
{
    let mut visits = no_visits(alloc, instance.customer_count() + 1)?;
    let mut known = true;
    for route in routes {
        if route.is_empty() {
            return Err(CheckFault::PlanRefused(PlanFault::EmptyRoute));
        }
        known = known && count_stops(instance, &mut visits, route.as_slice());
    }
    if !known {
        return Err(CheckFault::PlanRefused(PlanFault::UnknownCustomer));
    }
    Ok(visits)
}

/// Whether the routes serve each customer once, and nobody else. `PlanRefused` with `EmptyRoute`,
/// `UnknownCustomer`, `Twice` or `Missing`, the first of them that they have, and `Memory`.
pub(crate) fn serve_once(
    alloc: Global,
    instance: &Instance,
    routes: &[Vec<u16>],
) -> Result<(), CheckFault>
    ensures some { IfOk result (λ _. All (λ r. 0 < length r.items) routes.now) }
    ensures known { IfOk result (λ _. All
        (λ r. All (λ i. IsCustomer instance.now i) r.items) routes.now) }
    ensures once { IfOk result (λ _. (i : ℕ) → IsCustomer instance.now i → count_of i
        (stops (lists routes.now)) ≡ 1) }
    ensures refused { IfErr result (λ e. RefusesRoutes instance.now (lists routes.now) e) }
{
    let visits = count_visits(alloc, instance, routes)?;
    let mut missing = false;
    for customer in 1..instance.customer_count() + 1 {
        let count = visits[usize::from(customer)];
        if count > 1 {
            return Err(CheckFault::PlanRefused(PlanFault::Twice));
        }
        missing = missing || count == 0;
    }
    if missing {
        return Err(CheckFault::PlanRefused(PlanFault::Missing));
    }
    Ok(())
}
