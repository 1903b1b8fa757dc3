//! What a labeller works on.

ghost use Rattle.std.specs.Prelude.{◌≡◌, ℕ, ◌+◌, ◌<◌, ◌≤◌, Bool, [], length, IfOk, IfSome, IsTrue, IsFalse};
ghost use Rattle.solomon_reader.specs.declared.limits.TheConstants.{MOST_PRICE, MOST_ROW_PRICES};
ghost use Rattle.solomon_reader.specs.States.{CanStep};
ghost use Rattle.solomon_reader.specs.SubsetRows.{row_price_sum, bits_after, debt};
ghost use Rattle.row_charges.specs.Bits.{bit_of};
ghost use Rattle.row_charges.specs.Rows.{rows_of};
ghost use Rattle.fronts.specs.Fronts.{IsTask, IsPaid, IsBounded, IsAfter, IsChargedAfter};
ghost use Rattle.fronts.specs.Memories.{state_with, ArePlaces, IsWholeList, Keeps};
ghost use Rattle.fronts.specs.Payments.{paid_by, pricing_for};
ghost use Rattle.fronts.specs.Steps.{IsOpenList, IsOpenStep, AreOpenSteps};
ghost use Rattle.fronts.specs.Tables.{IsAllowedRow, IsTable};
ghost use Rattle.fronts.specs.declared.neighbours.TheConstants.{LIST_SIZE};

use crate::customer_set::CustomerSet;
use crate::front::Front;
use crate::memory::Memory;
use crate::nearness::Nearness;
use crate::neighbours::LIST_SIZE;
use crate::open_steps::open_steps;
use crate::payment::Payment;
use crate::slots::Slots;
use crate::step::Step;
use crate::tables::allowed_rows;
use branching::Region;
use row_charges::{PricedRow, RowBits, RowTable};
use solomon_reader::Instance;
use std::alloc::{AllocError, Global};

/// What the caller hands in, with the neighbour list of each row, the places of all rows in it, the slots of
/// time, the rows to which a route of the region may go from each row, the steps to them, and what rows of three
/// customers charge.
#[derive(Drop)]
pub struct Task<'i> {
    pub alloc: Global,
    pub instance: &'i Instance,
    pub region: &'i Region,
    pub payment: Payment<'i>,
    pub neighbours: u32,
    pub places: &'i [Vec<u8>],
    pub neighbour_lists: &'i [[u16; LIST_SIZE as usize]],
    /// The slots of time.
    pub slots: &'i Slots,
    allowed_rows: Vec<CustomerSet>,
    steps: Vec<Vec<Step>>,
    charges: RowTable<'i>,
    ghost task: { IsPaid (pricing_for instance.now region.now neighbours payment) },
    ghost few: { neighbours < LIST_SIZE },
    ghost placed: { IsTable (ArePlaces instance.now neighbours) (length instance.now.rows) places.now },
    ghost near: { IsTable (IsWholeList instance.now neighbours) (length instance.now.rows) neighbour_lists.now },
    ghost allowed: { IsTable (IsAllowedRow region.now) (length instance.now.rows) allowed_rows.items },
    ghost stepped: { IsTable (IsOpenList instance.now neighbours (paid_by payment) allowed_rows.items) (length instance.now.rows) steps.items },
    ghost charges_instance: { charges.instance.now ≡ instance.now },
    ghost charges_neighbours: { charges.neighbours ≡ neighbours },
    ghost charges_rows: { charges.rows.items ≡ payment.rows.now },
}

/// What rows charge along routes of an instance.
#[tactic(auto, using(crate::proofs::Charging::places_are))]
fn charges_of<'i>(
    alloc: Global,
    nearness: &'i Nearness<'_>,
    rows: &[PricedRow],
) -> Result<RowTable<'i>, AllocError>
    requires few { length rows.now ≤ MOST_ROW_PRICES }
    requires low { row_price_sum (rows_of rows.now) ≤ MOST_PRICE }
    ensures instance { IfOk result (λ t. t.instance.now ≡ nearness.now.instance.now) }
    ensures neighbours { IfOk result (λ t. t.neighbours ≡ nearness.now.neighbours) }
    ensures rows { IfOk result (λ t. t.rows.items ≡ rows.now) }
{
    let (instance, neighbours) = (nearness.instance, nearness.neighbours);
    if rows.is_empty() {
        return Ok(RowTable::none(alloc, instance, neighbours));
    }
    let rows = Vec::from_slice(alloc, rows)?;
    RowTable::new(
        alloc,
        instance,
        neighbours,
        nearness.places.as_slice(),
        rows,
    )
}

impl<'i> Task<'i> {
    /// The task of these.
    #[tactic(auto, using(crate::proofs::Stepping::paid_of, crate::proofs::Stepping::within_sets))]
    pub fn new(
        alloc: Global,
        nearness: &'i Nearness<'_>,
        region: &'i Region,
        payment: Payment<'i>,
    ) -> Result<Task<'i>, AllocError>
        requires { IsTask nearness.now.instance.now region.now payment }
        ensures instance { IfOk result (λ t. t.instance.now ≡ nearness.now.instance.now) }
        ensures region { IfOk result (λ t. t.region.now ≡ region.now) }
        ensures payment { IfOk result (λ t. t.payment ≡ payment.entry) }
        ensures neighbours { IfOk result (λ t. t.neighbours ≡ nearness.now.neighbours) }
    {
        let instance = nearness.instance;
        instance.law_of_limits();
        let allowed_rows = allowed_rows(alloc, instance, region)?;
        let steps = open_steps(alloc, nearness, &payment, allowed_rows.as_slice())?;
        let charges = charges_of(alloc, nearness, payment.rows)?;
        Ok(Task {
            alloc,
            instance,
            region,
            payment,
            neighbours: nearness.neighbours,
            places: nearness.places.as_slice(),
            neighbour_lists: nearness.neighbour_lists.as_slice(),
            slots: &nearness.slots,
            allowed_rows,
            steps,
            charges,
        })
    }

    /// The rows to which a route of the region may go from a row.
    pub fn rows_from(&self, v: u16) -> &CustomerSet
        requires { v < length self.now.instance.now.rows }
        ensures { IsAllowedRow self.now.region.now v result.now }
    {
        &self.allowed_rows[usize::from(v)]
    }

    /// The steps from a row that a route of the region may take, those first that may be left for latest.
    pub fn steps_from(&self, v: u16) -> &[Step]
        requires { v < length self.now.instance.now.rows }
        ensures { let t = self.now in
            let q = pricing_for t.instance.now t.region.now t.neighbours t.payment in
            AreOpenSteps q v result.now }
    {
        self.steps[usize::from(v)].as_slice()
    }

    /// The step from a row to a customer, if a route of the region may take it.
    pub fn step_to(&self, v: u16, j: u16) -> Option<Step>
        requires { v < length self.now.instance.now.rows }
        ensures { let t = self.now in
            let q = pricing_for t.instance.now t.region.now t.neighbours t.payment in
            IfSome result (IsOpenStep q v) }
    {
        for step in self.steps_from(v) {
            if step.customer == j {
                return Some(*step);
            }
        }
        None
    }

    /// Whether a route that remembers this may take a step after a front, whatever bits rows have.
    pub fn can_take(&self, front: &Front, memory: Memory, step: &Step) -> bool
        requires step { let t = self.now in
            let q = pricing_for t.instance.now t.region.now t.neighbours t.payment in
            IsOpenStep q front.now.last step.now }
        requires bounded { IsBounded self.now.instance.now front.now }
        ensures yes { let t = self.now in
            let q = pricing_for t.instance.now t.region.now t.neighbours t.payment in
            IsTrue result → (bits : ℕ → Bool) → CanStep q (state_with q front.now memory.bits bits) step.now.customer }
        ensures no { let t = self.now in
            let q = pricing_for t.instance.now t.region.now t.neighbours t.payment in
            IsFalse result → (bits : ℕ → Bool) → ¬ CanStep q (state_with q front.now memory.bits bits) step.now.customer }
    {
        if memory.contains(step.place) {
            return false;
        }
        let load = front.load + u32::from(step.demand);
        load <= u32::from(self.instance.capacity()) && front.time <= u64::from(step.latest)
    }

    /// The vehicle after a step that it may take after a front, where no row charges.
    pub fn after(&self, front: &Front, step: &Step) -> Front
        requires step { let t = self.now in
            let q = pricing_for t.instance.now t.region.now t.neighbours t.payment in
            IsOpenStep q front.now.last step.now }
        requires bounded { IsBounded self.now.instance.now front.now }
        requires load { front.now.load + step.now.demand ≤ self.now.instance.now.capacity }
        requires soon { front.now.time ≤ step.now.latest }
        ensures after { let t = self.now in
            IsAfter t.instance.now (paid_by t.payment) front.now step.now.customer result }
        ensures bounded { IsBounded self.now.instance.now result }
    {
        let begins = (front.time + u64::from(step.way)).max(u64::from(step.ready));
        Front {
            last: step.customer,
            time: begins + u64::from(step.service),
            load: front.load + u32::from(step.demand),
            cost: front.cost + step.cost,
        }
    }

    /// The vehicle after a step that it may take after a front, before which rows have these bits.
    pub fn charged_after(&self, front: &Front, bits: RowBits, step: &Step) -> Front
        requires step { let t = self.now in
            let q = pricing_for t.instance.now t.region.now t.neighbours t.payment in
            IsOpenStep q front.now.last step.now }
        requires bounded { IsBounded self.now.instance.now front.now }
        requires load { front.now.load + step.now.demand ≤ self.now.instance.now.capacity }
        requires soon { front.now.time ≤ step.now.latest }
        ensures after { let t = self.now in
            let q = pricing_for t.instance.now t.region.now t.neighbours t.payment in
            IsChargedAfter q front.now (bit_of bits) step.now.customer result }
        ensures bounded { IsBounded self.now.instance.now result }
    {
        let after = self.after(front, step);
        if !self.has_rows() {
            return after;
        }
        let charge = self.charges.charge(bits, step.customer);
        Front {
            cost: after.cost + charge as i64,
            ..after
        }
    }

    /// The bits of rows behind a stop.
    pub fn bits_after(&self, bits: RowBits, j: u16) -> RowBits
        requires { j < length self.now.instance.now.rows }
        ensures { let t = self.now in
            (i : ℕ) → bit_of result i ≡ bits_after t.instance.now t.neighbours (rows_of t.payment.rows.now) (bit_of bits) j i }
    {
        self.charges.after(bits, j)
    }

    /// Whether rows may charge a route.
    pub fn has_rows(&self) -> bool
        ensures { IsFalse result → rows_of self.now.payment.rows.now ≡ [] }
    {
        !self.charges.rows.is_empty()
    }

    /// What the rows cost together, in grains, whose bit is set in x but not in y.
    pub fn debt(&self, x: RowBits, y: RowBits) -> u64
        ensures { result ≡ debt (rows_of self.now.payment.rows.now) (bit_of x) (bit_of y) }
    {
        self.charges.debt(x, y)
    }

    /// What is remembered after a stop at v with this memory, and a further one at j.
    pub fn remember(&self, v: u16, memory: Memory, j: u16) -> Memory
        requires v { v < length self.now.instance.now.rows }
        requires j { j < length self.now.instance.now.rows }
        ensures { Keeps self.now.instance.now self.now.neighbours v memory.bits j result.bits }
    {
        let places = self.places[usize::from(v)].as_slice();
        let list = self.neighbour_lists[usize::from(j)];
        let mut after = Memory::empty().with_if(0, true);
        for place in 1..self.neighbours as u8 + 1 {
            let u = list[usize::from(place)];
            after = after.with_if(place, memory.contains(places[usize::from(u)]));
        }
        after
    }
}
