//! What is wrong with routes, and what they cost.

ghost use Rattle.std.specs.Prelude.{◌≡◌, ℕ, ◌*◌, ◌<◌, ◌≤◌, length, IfOk, IfErr};
ghost use Rattle.std.specs.List.{All};
ghost use Rattle.solomon_reader.specs.declared.limits.TheConstants.{MOST_TIME};
ghost use Rattle.solomon_reader.specs.Problem.{IsCustomer};
ghost use Rattle.solomon_reader.specs.Plan.{IsPlan, IsFitting, plan_cost, count_of};
ghost use Rattle.solomon_reader.specs.PlanDefects.{stops};
ghost use Rattle.solomon_reader.specs.Lists.{lists};
ghost use Rattle.checker.specs.Plans.{RefusesRoutes};

use crate::fault::CheckFault;
use crate::serving::serve_once;
use crate::walking::{drive, is_within_capacity};
use solomon_reader::{Instance, PlanFault};
use std::alloc::Global;
use tenths::Tenths;

/// What routes that serve each customer once cost together, in tenths. `PlanRefused` with `OverCapacity` or
/// `Late`, the first of them that they have.
fn drive_all(instance: &Instance, routes: &[Vec<u16>]) -> Result<u128, CheckFault>
    requires some { All (λ r. 0 < length r.items) routes.now }
    requires known { All (λ r. All (λ i. IsCustomer instance.now i) r.items) routes.now }
    requires once { (i : ℕ) → IsCustomer instance.now i → count_of i
        (stops (lists routes.now)) ≡ 1 }
    ensures fits { IfOk result (λ _. All (λ r. IsFitting instance.now r.items) routes.now) }
    ensures cost { IfOk result (λ cost. cost ≡ plan_cost instance.now (lists routes.now)) }
    ensures small { IfOk result (λ cost. cost ≤ 10 * MOST_TIME * length routes.now) }
    ensures refused { IfErr result (λ e. RefusesRoutes instance.now (lists routes.now) e) }
{
    let mut cost = 0;
    let mut late = false;
    for route in routes {
        if !is_within_capacity(instance, route.as_slice()) {
            return Err(CheckFault::PlanRefused(PlanFault::OverCapacity));
        }
        match drive(instance, route.as_slice()) {
            Some(arcs) => cost += u128::from(arcs),
            None => late = true,
        }
    }
    if late {
        return Err(CheckFault::PlanRefused(PlanFault::Late));
    }
    Ok(cost)
}

/// What a plan of these routes costs, or `PlanRefused` with the first defect that they have, or
/// `Memory`.
pub(crate) fn plan_cost(
    alloc: Global,
    instance: &Instance,
    routes: &[Vec<u16>],
) -> Result<Tenths, CheckFault>
    ensures plan { IfOk result (λ _. IsPlan instance.now (lists routes.now)) }
    ensures cost { IfOk result (λ cost. cost ≡ plan_cost instance.now (lists routes.now)) }
    ensures refused { IfErr result (λ e. RefusesRoutes instance.now (lists routes.now) e) }
{
    serve_once(alloc, instance, routes)?;
    let cost = drive_all(instance, routes)?;
    if routes.len() > usize::from(instance.fleet()) {
        return Err(CheckFault::PlanRefused(PlanFault::FleetExceeded));
    }
    let Some(cost) = Tenths::new(cost as u64) else {
        unreachable!()
    };
    Ok(cost)
}
