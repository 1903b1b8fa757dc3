//! The customers to whom a route may go on from a row.

ghost use Rattle.std.specs.Prelude.{◌≡◌, ◌↔◌, ◌<◌, ◌≤◌, ◌*◌, length, pos, ◌-ℤ◌, ◌≤ℤ◌, IfOk, MatchOption, IsTrue, IsFalse};
ghost use Rattle.solomon_reader.specs.declared.limits.TheConstants.{MOST_DISTANCE};
ghost use Rattle.solomon_reader.specs.Problem.{IsCustomer};
ghost use Rattle.solomon_reader.specs.States.{IsPriced};
ghost use Rattle.fronts.specs.Memories.{ArePlaces};
ghost use Rattle.fronts.specs.Steps.{IsReachable, IsFreeStep, IsStepList};
ghost use Rattle.fronts.specs.Tables.{IsTable};
ghost use Rattle.fronts.specs.declared.neighbours.TheConstants.{LIST_SIZE};

use crate::neighbours::LIST_SIZE;
use crate::slots::Slots;
use solomon_reader::{Instance, MOST_TIME};
use std::alloc::{AllocError, Global};

/// A step from a row to a customer, whom a vehicle that leaves the row at once may serve.
#[derive(Clone, Copy)]
pub struct Step {
    /// What it adds to the reduced cost, in grains.
    pub cost: i64,
    /// The latest time at which a vehicle may leave for the customer, in tenths.
    pub latest: u32,
    /// How long the way is, in tenths.
    pub way: u32,
    /// When service may begin, in tenths.
    pub ready: u32,
    /// How long service takes, in tenths.
    pub service: u32,
    /// The customer's last slot of time.
    pub(crate) last_slot: u32,
    /// The place of the customer's bound in its last slot.
    pub(crate) last_place: u32,
    pub customer: u16,
    pub demand: u16,
    /// The customer's place in the neighbour list of the row.
    pub place: u8,
    /// Whether the row is in the customer's neighbour list.
    pub is_recalled: bool,
}

impl Step {
    /// Whether it is too late to leave for the customer at a time, in tenths.
    pub fn is_late(&self, time: u64) -> bool
        ensures { IsTrue result ↔ (self.now.latest < time) }
    {
        u64::from(self.latest) < time
    }

    /// The step where the customer has this price, in grains.
    pub(crate) fn at(self, price: i64) -> Step
        requires low { pos 0 ≤ℤ self.cost }
        requires high { self.cost ≤ℤ pos (1000 * MOST_DISTANCE) }
        requires price { IsPriced price }
        ensures { result ≡ record self { cost = self.cost -ℤ price } }
    {
        Step {
            cost: self.cost - price,
            ..self
        }
    }

    /// The place of the customer's bound in a slot of time. No contract: a bound says itself what it bounds.
    pub fn place_at(&self, slot: u32) -> usize {
        let behind = self.last_slot.saturating_sub(slot);
        self.last_place.wrapping_add(behind) as usize
    }
}

/// Whether a vehicle that leaves a row at once may serve a customer.
fn is_reachable(instance: &Instance, v: u16, customer: u16) -> bool
    requires v { v < length instance.now.rows }
    requires customer { IsCustomer instance.now customer }
    ensures yes { IsTrue result → IsReachable instance.now v customer }
    ensures no { IsFalse result → ¬ IsReachable instance.now v customer }
{
    let due = instance.due(customer);
    instance.demand(customer) <= instance.capacity()
        && instance.ready(customer) <= due
        && instance.distance(v, customer).get() <= due
}

/// The step from a row to a customer, if a vehicle that leaves the row at once may serve it, at a price of zero.
fn step_to(
    instance: &Instance,
    neighbours: u32,
    places: &[Vec<u8>],
    slots: &Slots,
    v: u16,
    customer: u16,
) -> Option<Step>
    requires few { neighbours < LIST_SIZE }
    requires places { let p = instance.now in
        IsTable (ArePlaces p neighbours) (length p.rows) places.now }
    requires v { v < length instance.now.rows }
    requires customer { IsCustomer instance.now customer }
    ensures { let p = instance.now in
        MatchOption result (¬ IsReachable p v customer)
        (λ s. IsFreeStep p neighbours v s × (s.customer ≡ customer)) }
{
    if !is_reachable(instance, v, customer) {
        return None;
    }
    let way = instance.distance(v, customer).get();
    let (last_slot, last_place) = slots.last_of(customer);
    Some(Step {
        cost: 1000 * way as i64,
        latest: (instance.due(customer) - way) as u32,
        way: way as u32,
        ready: instance.ready(customer) as u32,
        service: instance.service(customer) as u32,
        last_slot,
        last_place,
        customer,
        demand: instance.demand(customer),
        place: places[usize::from(v)][usize::from(customer)],
        is_recalled: u32::from(places[usize::from(customer)][usize::from(v)]) <= neighbours,
    })
}

/// The steps from a row to all customers whom a vehicle that leaves it at once may serve, those first that may
/// be left for latest: at a later time than that of one of them none behind it can be reached.
fn steps_from(
    alloc: Global,
    instance: &Instance,
    neighbours: u32,
    places: &[Vec<u8>],
    slots: &Slots,
    v: u16,
) -> Result<Vec<Step>, AllocError>
    requires few { neighbours < LIST_SIZE }
    requires places { let p = instance.now in
        IsTable (ArePlaces p neighbours) (length p.rows) places.now }
    requires v { v < length instance.now.rows }
    ensures { IfOk result (IsStepList instance.now neighbours v) }
{
    let mut steps = Vec::new(alloc);
    for customer in 1..instance.customer_count() + 1 {
        if let Some(step) = step_to(instance, neighbours, places, slots, v, customer) {
            steps.push(step)?;
        }
    }
    steps.sort_by_key(|step| (20 * u64::from(MOST_TIME)).saturating_sub(u64::from(step.latest)))?;
    Ok(steps)
}

/// The steps from each row, at prices of zero.
pub(crate) fn all_steps(
    alloc: Global,
    instance: &Instance,
    neighbours: u32,
    places: &[Vec<u8>],
    slots: &Slots,
) -> Result<Vec<Vec<Step>>, AllocError>
    requires few { neighbours < LIST_SIZE }
    requires places { let p = instance.now in
        IsTable (ArePlaces p neighbours) (length p.rows) places.now }
    ensures { let p = instance.now in
        IfOk result (λ table. IsTable (IsStepList p neighbours) (length p.rows) table.items) }
{
    let count = instance.customer_count();
    let mut table = Vec::new(alloc);
    for v in 0..count + 1 {
        let steps = steps_from(alloc, instance, neighbours, places, slots, v)?;
        table.push(steps)?;
    }
    Ok(table)
}
