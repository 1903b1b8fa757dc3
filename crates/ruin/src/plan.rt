//! Routes that are right at any time, and the customers that stand in them.

use crate::drawing::below;
use crate::side::{CheapestPlace, Side, Stop, UNSEEN};
use crate::tables::{NOWHERE, Tables};
use crate::tails::{Place, Seam};
use crate::window::Window;
use rand_core::Rng;
use solomon_reader::Instance;
use std::alloc::{AllocError, Global};

/// A better place is passed over once in this many.
const PASSED_OVER: usize = 100;

/// A vehicle's route, and another side on which a trial makes its own. To refuse the trial is to turn the
/// slot back.
#[derive(Drop)]
pub(crate) struct Slot {
    /// The route that counts.
    pub(crate) held: Side,
    other: Side,
    /// Whether the trial has turned the slot.
    pub(crate) is_turned: bool,
}

/// Routes in slots, one for each vehicle. A trial changes them, and is kept or refused as a whole.
#[derive(Drop)]
pub(crate) struct Plan {
    pub(crate) tables: Tables,
    pub(crate) slots: Vec<Slot>,
    /// A side of no slot, on which a route is made of two others.
    spare: Side,
    /// The slots from here on have no route.
    used: usize,
    /// The slots that the trial has turned.
    turned: Vec<usize>,
    /// By row the slot before the trial; nothing where the customer is absent.
    slot_of: Vec<Option<usize>>,
    /// By row and slot.
    places: Vec<CheapestPlace>,
    /// The number of routes.
    pub(crate) routes: usize,
    /// In tenths, before the trial.
    pub(crate) cost: i64,
    /// The last version of a side. Numbers come again after 2^32 changes, when nearly all places were made
    /// anew.
    version: u32,
    /// How many slots and places were seen.
    pub(crate) steps: u64,
}

impl Slot {
    /// Holds the other side, unless the trial has turned the slot before; answers whether it does.
    fn turn(&mut self) -> bool {
        if self.is_turned {
            return false;
        }
        std::mem::swap(&mut self.held, &mut self.other);
        self.is_turned = true;
        true
    }

    /// Whether both sides have the same stops.
    fn is_unchanged(&self) -> bool {
        let (held, other) = (self.held.stops.as_slice(), self.other.stops.as_slice());
        held.len() == other.len()
            && held
                .iter()
                .zip(other)
                .all(|(a, b)| a.customer == b.customer)
    }

    /// Ends a trial: holds what it has changed, or the route before it. A route that it has come back to keeps
    /// its version, and so the places that are known in it.
    fn end_trial(&mut self, is_kept: bool) {
        self.is_turned = false;
        if !is_kept || self.is_unchanged() {
            std::mem::swap(&mut self.held, &mut self.other);
        }
    }
}

impl Plan {
    /// Without routes.
    pub(crate) fn new(alloc: Global, instance: &Instance) -> Result<Plan, AllocError> {
        let customers = usize::from(instance.customer_count());
        let count = customers.min(usize::from(instance.fleet()));
        let rows = customers.saturating_add(1);
        let mut slots = Vec::new(alloc);
        for _ in 0..count {
            slots.push(Slot {
                held: Side::new(alloc, customers)?,
                other: Side::new(alloc, customers)?,
                is_turned: false,
            })?;
        }
        Ok(Plan {
            tables: Tables::new(alloc, instance)?,
            slots,
            spare: Side::new(alloc, customers)?,
            used: 0,
            turned: Vec::with_capacity(alloc, count)?,
            slot_of: vec![in alloc; None; rows]?,
            places: vec![in alloc; UNSEEN; rows.saturating_mul(count)]?,
            routes: 0,
            cost: 0,
            version: 0,
            steps: 0,
        })
    }

    /// Forgets all routes.
    pub(crate) fn clear(&mut self) {
        for slot in self.slots.iter_mut() {
            slot.held.stops.clear();
        }
        self.slot_of.fill(None);
        self.used = 0;
        self.routes = 0;
        self.cost = 0;
    }

    /// The slot of a customer before the trial.
    pub(crate) fn slot_of(&self, customer: u16) -> Option<usize> {
        self.slot_of.get(usize::from(customer)).copied().flatten()
    }

    /// Where a customer stood before the trial.
    pub(crate) fn place_of(&self, customer: u16) -> Option<Place> {
        let slot = self.slot_of(customer)?;
        let mut stops = self.slots.get(slot)?.held.stops.iter();
        let position = stops.position(|stop| stop.customer == customer)?;
        Some(Place { slot, position })
    }

    /// The stop at a place.
    pub(crate) fn stop(&self, place: Place) -> Option<&Stop> {
        let slot = self.slots.get(place.slot)?;
        slot.held.stops.get(place.position)
    }

    /// Notes the slot of a customer, or that it is absent.
    pub(crate) fn note_slot(&mut self, customer: u16, slot: Option<usize>) {
        if let Some(held) = self.slot_of.get_mut(usize::from(customer)) {
            *held = slot;
        }
    }

    /// Notes the slots of all customers in the slots that the trial has turned.
    pub(crate) fn note_turned(&mut self) {
        for number in &self.turned {
            if let Some(slot) = self.slots.get(*number) {
                slot.held.note_slot(*number, self.slot_of.as_mut_slice());
            }
        }
    }

    /// Takes the stops of a window out of a slot, and answers by how many tenths its route gets longer;
    /// nothing where it would be late.
    pub(crate) fn cut(&mut self, number: usize, window: Window) -> Option<i64> {
        self.version = self.version.wrapping_add(1);
        let slot = self.slots.get_mut(number)?;
        if slot.turn() {
            let _ = self.turned.push(number);
        }
        let route = &slot.other;
        let change = slot.held.cut(&self.tables, route, window, self.version)?;
        if slot.held.customer_count() == 0 {
            self.routes = self.routes.saturating_sub(1);
        }
        Some(change)
    }

    /// The other side of the slot before a seam becomes the route that the seam makes; answers by how many tenths
    /// that is longer, and nothing where it would be late.
    fn join(&mut self, seam: Seam) -> Option<i64> {
        self.version = self.version.wrapping_add(1);
        let (head, tail) = seam.parts(self.slots.as_slice())?;
        let cost = self.spare.join(&self.tables, head, tail, self.version)?;
        let slot = self.slots.get_mut(seam.last.slot)?;
        std::mem::swap(&mut slot.other, &mut self.spare);
        Some(cost.saturating_sub(slot.held.cost()))
    }

    /// Turns a slot whose other side is a route of the trial.
    fn turn(&mut self, number: usize) {
        let Some(slot) = self.slots.get_mut(number) else {
            return;
        };
        if slot.turn() {
            let _ = self.turned.push(number);
        }
        if slot.held.customer_count() == 0 {
            self.routes = self.routes.saturating_sub(1);
        }
    }

    /// Changes the tails of two routes at these seams; answers by how many tenths the routes get longer, and
    /// nothing where one would be late.
    pub(crate) fn change_tails(&mut self, one: Seam, two: Seam) -> Option<i64> {
        let change = self.join(one)?;
        let change = change.saturating_add(self.join(two)?);
        self.turn(one.last.slot);
        self.turn(two.last.slot);
        Some(change)
    }

    /// Puts a customer into a slot, behind the stop at a position.
    fn put(&mut self, customer: u16, number: usize, position: usize) {
        self.version = self.version.wrapping_add(1);
        let Some(slot) = self.slots.get_mut(number) else {
            return;
        };
        if slot.turn() {
            let _ = self.turned.push(number);
            slot.held.stops.clear();
            let _ = slot
                .held
                .stops
                .extend_from_slice(slot.other.stops.as_slice());
            slot.held.load = slot.other.load;
        }
        slot.held
            .put(&self.tables, customer, position, self.version);
    }

    /// Begins a route with a customer, and answers its slot.
    fn open(&mut self, customer: u16) -> usize {
        self.version = self.version.wrapping_add(1);
        let mut slots = self.slots.iter().take(self.used);
        let empty = slots.position(|slot| slot.held.customer_count() == 0);
        let number = empty.unwrap_or(self.used);
        if let Some(slot) = self.slots.get_mut(number) {
            if slot.turn() {
                let _ = self.turned.push(number);
            }
            slot.held.open(&self.tables, customer, self.version);
        }
        self.used = self.used.max(number.saturating_add(1));
        self.routes = self.routes.saturating_add(1);
        number
    }

    /// The slot and place of the least detour for a customer; now and then a better one is passed over.
    /// Places are looked for anew in slots that have changed.
    fn choose<R: Rng>(&mut self, random: &mut R, customer: u16) -> Option<(usize, CheapestPlace)> {
        let begin = self.slots.len().saturating_mul(usize::from(customer));
        let end = begin.saturating_add(self.used);
        let places = self.places.as_mut_slice().get_mut(begin..end)?;
        let newcomer = self.tables.newcomer(customer, 0)?;
        let (mut choice, mut least, mut steps) = (None, NOWHERE, self.used);
        for (number, (slot, place)) in self.slots.iter().zip(places.iter_mut()).enumerate() {
            if slot.held.customer_count() == 0 {
                continue;
            }
            if place.version != slot.held.version {
                steps = steps.saturating_add(slot.held.find_place(&newcomer, place));
            }
            if place.detour < least && below(random, PASSED_OVER) > 0 {
                least = place.detour;
                choice = Some((number, *place));
            }
        }
        self.steps = self.steps.saturating_add(steps as u64);
        choice
    }

    /// Puts a customer at its cheapest place, or begins a route with it where that is shorter or asked for;
    /// answers the slot, and how many tenths longer the routes get; nothing where it fits nowhere.
    pub(crate) fn put_back<R: Rng>(
        &mut self,
        random: &mut R,
        customer: u16,
        opens: bool,
    ) -> Option<(usize, i32)> {
        let choice = self.choose(random, customer);
        let least = choice.map_or(NOWHERE, |(_, place)| place.detour);
        let alone = self.tables.visit(customer).alone;
        let is_worth_it = alone < least || opens && alone < NOWHERE;
        if is_worth_it && self.routes < self.slots.len() {
            return Some((self.open(customer), alone));
        }
        let (number, place) = choice?;
        self.put(customer, number, usize::from(place.position));
        Some((number, place.detour))
    }

    /// Puts a customer at the end of a route, or begins one with it, where it fits; answers the slot.
    pub(crate) fn append(&mut self, customer: u16, number: Option<usize>) -> Option<usize> {
        let Some(number) = number else {
            let alone = self.tables.visit(customer).alone;
            if alone == NOWHERE || self.routes >= self.slots.len() {
                return None;
            }
            self.cost = self.cost.saturating_add(i64::from(alone));
            return Some(self.open(customer));
        };
        let side = &self.slots.get(number)?.held;
        let newcomer = self.tables.newcomer(customer, side.customer_count())?;
        let mut place = UNSEEN;
        side.find_place(&newcomer, &mut place);
        if place.detour == NOWHERE {
            return None;
        }
        self.cost = self.cost.saturating_add(i64::from(place.detour));
        self.put(customer, number, usize::from(place.position));
        Some(number)
    }

    /// Ends the trial: keeps what it has changed, or turns it back.
    pub(crate) fn end_trial(&mut self, is_kept: bool) {
        for number in &self.turned {
            if let Some(slot) = self.slots.get_mut(*number) {
                slot.end_trial(is_kept);
            }
        }
        self.turned.clear();
        let slots = self.slots.iter().take(self.used);
        self.routes = slots.filter(|slot| slot.held.customer_count() > 0).count();
        let mut slots = self.slots.iter().take(self.used);
        let last = slots.rposition(|slot| slot.held.customer_count() > 0);
        self.used = last.map_or(0, |number| number.saturating_add(1));
    }
}
