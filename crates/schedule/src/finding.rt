//! Looks for faults in a list of routes.

ghost use Rattle.std.specs.Prelude.{◌≡◌, ℕ, ◌*◌, ◌<◌, ◌≤◌, List, length, IsTrue, IsFalse, IfOk, IfErr};
ghost use Rattle.std.specs.List.{All};
ghost use Rattle.solomon_reader.specs.declared.limits.TheConstants.{MOST_FLEET, MOST_TIME};
ghost use Rattle.solomon_reader.specs.Problem.{IsCustomer};
ghost use Rattle.solomon_reader.specs.Plan.{IsPlan, IsFitting, load_of, route_cost, plan_cost, count_of};
ghost use Rattle.solomon_reader.specs.Lists.{lists};
ghost use Rattle.solomon_reader.specs.PlanDefects.{stops, IsLowestDefect};
ghost use Rattle.schedule.specs.Marks.{AreMarks};

use crate::marks::{Marks, mark_route};
use crate::walking::{are_customers, walk};
use solomon_reader::{Instance, PlanFault};
use tenths::Tenths;

/// The marks of all stops: `EmptyRoute`, `UnknownCustomer` or `Twice`, the first of them that the routes have.
fn marks_of(instance: &Instance, routes: &[Vec<u16>]) -> Result<Marks, PlanFault>
    ensures some { IfOk result (λ _. All (λ r. 0 < length r.items) routes.now) }
    ensures known { IfOk result (λ _. All
        (λ r. All (λ i. IsCustomer instance.now i) r.items) routes.now) }
    ensures marks { IfOk result (λ m. AreMarks (stops (lists routes.now)) m) }
    ensures fault { IfErr result (λ f. IsLowestDefect instance.now (lists routes.now) f) }
{
    let mut marks = Marks::new();
    let mut known = true;
    let mut once = true;
    for route in routes {
        if route.is_empty() {
            return Err(PlanFault::EmptyRoute);
        }
        known = known && are_customers(instance, route.as_slice());
        once = once && known && mark_route(&mut marks, route.as_slice());
    }
    if !known {
        return Err(PlanFault::UnknownCustomer);
    }
    if !once {
        return Err(PlanFault::Twice);
    }
    Ok(marks)
}

/// Whether a customer isn't marked.
fn has_missing(instance: &Instance, marks: &Marks) -> bool
    ensures found { (list : List ℕ) → AreMarks list marks.now → IsTrue result →
        (i : ℕ) × IsCustomer instance.now i × (count_of i list ≡ 0) }
    ensures none { (list : List ℕ) → AreMarks list marks.now → IsFalse result →
        (i : ℕ) → IsCustomer instance.now i → count_of i list ≡ 1 }
{
    for customer in 1..=instance.customer_count() {
        if !marks.contains(customer) {
            return true;
        }
    }
    false
}

/// Finds out whether the routes serve each customer once, and nobody else. `EmptyRoute`, `UnknownCustomer`,
/// `Twice` or `Missing`, the first of them that they have.
fn serve_once(instance: &Instance, routes: &[Vec<u16>]) -> Result<(), PlanFault>
    ensures some { IfOk result (λ _. All (λ r. 0 < length r.items) routes.now) }
    ensures known { IfOk result (λ _. All
        (λ r. All (λ i. IsCustomer instance.now i) r.items) routes.now) }
    ensures once { IfOk result (λ _. (i : ℕ) → IsCustomer instance.now i → count_of i
        (stops (lists routes.now)) ≡ 1) }
    ensures fault { IfErr result (λ f. IsLowestDefect instance.now (lists routes.now) f) }
{
    instance.law_of_limits();
    let marks = marks_of(instance, routes)?;
    if has_missing(instance, &marks) {
        return Err(PlanFault::Missing);
    }
    Ok(())
}

/// Whether the demands of a route are more than a vehicle holds.
fn is_overloaded(instance: &Instance, route: &[u16]) -> bool
    requires { All (λ i. IsCustomer instance.now i) route.now }
    ensures found { IsTrue result → instance.now.capacity < load_of instance.now route.now }
    ensures none { IsFalse result → load_of instance.now route.now ≤ instance.now.capacity }
{
    let capacity = u32::from(instance.capacity());
    let mut load = 0u32;
    for visit in route {
        load += u32::from(instance.demand(*visit));
        if load > capacity {
            return true;
        }
    }
    false
}

/// The cost in tenths of routes that serve each customer once. `OverCapacity` or `Late`, the first of them
/// that they have.
fn cost_of_all(instance: &Instance, routes: &[Vec<u16>]) -> Result<u128, PlanFault>
    requires some { All (λ r. 0 < length r.items) routes.now }
    requires known { All (λ r. All (λ i. IsCustomer instance.now i) r.items) routes.now }
    requires once { (i : ℕ) → IsCustomer instance.now i → count_of i
        (stops (lists routes.now)) ≡ 1 }
    ensures fitting { IfOk result (λ _. All (λ r. IsFitting instance.now r.items) routes.now) }
    ensures cost { IfOk result (λ c. c ≡ plan_cost instance.now (lists routes.now)) }
    ensures small { IfOk result (λ c. c ≤ 10 * MOST_TIME * length routes.now) }
    ensures fault { IfErr result (λ f. IsLowestDefect instance.now (lists routes.now) f) }
{
    // however many routes there are, the sum fits
    let mut cost = 0u128;
    let mut late = false;
    for route in routes {
        if is_overloaded(instance, route.as_slice()) {
            return Err(PlanFault::OverCapacity);
        }
        match walk(instance, route.as_slice()) {
            Some(walked) => cost += u128::from(walked.cost.get()),
            None => late = true,
        }
    }
    if late {
        return Err(PlanFault::Late);
    }
    Ok(cost)
}

/// The cost of a plan's routes, each of which is walked once, or the first fault that the routes have in the
/// order of `PlanFault`.
pub fn cost_or_fault(instance: &Instance, routes: &[Vec<u16>]) -> Result<Tenths, PlanFault>
    ensures plan { IfOk result (λ _. IsPlan instance.now (lists routes.now)) }
    ensures cost { IfOk result (λ c. c ≡ plan_cost instance.now (lists routes.now)) }
    ensures fault { IfErr result (λ f. IsLowestDefect instance.now (lists routes.now) f) }
{
    serve_once(instance, routes)?;
    let cost = cost_of_all(instance, routes)?;
    if routes.len() > usize::from(instance.fleet()) {
        return Err(PlanFault::FleetExceeded);
    }
    Ok(Tenths::new(cost as u64).unwrap())
}

/// The cost of a fitting route, in tenths.
fn cost_of(instance: &Instance, route: &[u16]) -> u64
    requires { IsFitting instance.now route.now }
    ensures cost { result ≡ route_cost instance.now route.now }
    ensures small { result ≤ 10 * MOST_TIME }
{
    walk(instance, route).unwrap().cost.get()
}

/// The cost of fitting routes, no more than the largest fleet.
pub fn total_cost(instance: &Instance, routes: &[Vec<u16>]) -> Tenths
    requires few { length routes.now ≤ MOST_FLEET }
    requires fitting { All (λ r. IsFitting instance.now r.items) routes.now }
    ensures { result ≡ plan_cost instance.now (lists routes.now) }
{
    let mut cost = 0;
    for route in routes {
        cost += cost_of(instance, route.as_slice());
    }
    Tenths::new(cost).unwrap()
}
