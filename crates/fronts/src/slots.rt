//! The slots of time for which bounds are kept.

ghost use Rattle.std.specs.Prelude.{◌<◌, ◌≤◌, ◌*◌, length, IfSome};
ghost use Rattle.solomon_reader.specs.declared.limits.TheConstants.{MOST_TIME};

use solomon_reader::{Instance, MOST_TIME};
use std::alloc::{AllocError, Global};

/// The most slots but the last one. They are many: where a slot is longer than a step, the bound at the end of
/// that step isn't known yet, and all bounds of which it is a part tell nothing.
const MOST_SLOTS: u32 = 400;

/// The fewest slots but the last one.
const FEWEST_SLOTS: u64 = 80;

/// When a route may leave a row, and where the row's bounds stand.
#[derive(Clone, Copy)]
struct RowSlots {
    /// The earliest time, in tenths.
    earliest: u64,
    /// The first slot.
    first: u32,
    /// The last slot.
    last: u32,
    /// The place of the bound of the last slot; those of earlier ones stand behind it.
    place: u32,
}

/// Slots of one length, from time 0 on. Each row has a bound for each slot in which a route may leave it.
#[derive(Drop)]
pub struct Slots {
    /// How long a slot is, in tenths.
    width: u64,
    /// What a time is multiplied by to get its slot in units of 2 to the power of -32, in place of a
    /// division: somewhat more than the quotient, so that a time at the very beginning of a slot counts for
    /// it. One at the very end of a late slot may count for the next one, whose bound doesn't hold then.
    inverse: u64,
    /// The last slot of all rows.
    last: u32,
    /// How many bounds there are.
    count: u32,
    rows: Vec<RowSlots>,
}

/// A number, cut to 32 bits.
fn cut(number: u64) -> u32 {
    number.min(u64::from(u32::MAX)) as u32
}

/// The shortest way from a row to a customer, with the service there, in tenths.
fn shortest_from(instance: &Instance, i: u16) -> u64
    requires { i < length instance.now.rows }
{
    let mut shortest = u64::MAX;
    for j in 1..instance.customer_count() + 1 {
        if j != i {
            let way = instance.distance(i, j).get();
            shortest = shortest.min(way.saturating_add(instance.service(j)));
        }
    }
    shortest
}

/// The shortest way from any row to a customer, with the service there, in tenths.
fn shortest(instance: &Instance) -> u64 {
    let mut shortest = u64::MAX;
    for i in 0..instance.customer_count() + 1 {
        shortest = shortest.min(shortest_from(instance, i));
    }
    shortest
}

/// How long a slot is: no longer than the shortest way with the service behind it, so that each step leads
/// from the beginning of a slot into a later one, unless there were too many slots.
fn width_of(instance: &Instance) -> u64 {
    instance.law_of_limits();
    let due = instance.due(0);
    let longest = due / FEWEST_SLOTS + 1;
    shortest(instance)
        .max(due / u64::from(MOST_SLOTS) + 1)
        .min(longest)
}

/// The slots of a customer, whose bounds stand from a place on: for all times at which a route may leave it until
/// the depot closes, even where it is too late to get back, so that the bounds at those times are known.
fn row_slots(instance: &Instance, width: u64, place: u32, v: u16) -> RowSlots
    requires { v < length instance.now.rows }
{
    let arrival = instance
        .ready(0)
        .saturating_add(instance.distance(0, v).get());
    let earliest = instance
        .ready(v)
        .max(arrival)
        .saturating_add(instance.service(v));
    let served = instance.due(v).saturating_add(instance.service(v));
    let latest = served.min(instance.due(0));
    RowSlots {
        earliest,
        first: cut(earliest / width.max(1)),
        last: cut(latest / width.max(1)),
        place,
    }
}

impl RowSlots {
    /// The number of its slots.
    fn count(self) -> u32 {
        if self.first > self.last {
            return 0;
        }
        (self.last - self.first).min(MOST_SLOTS) + 1
    }
}

impl Slots {
    /// The slots of an instance.
    pub(crate) fn new(alloc: Global, instance: &Instance) -> Result<Slots, AllocError> {
        let width = width_of(instance);
        let mut slots = Slots {
            width,
            inverse: (1u64 << 32) / width.max(1) + 1,
            last: 0,
            count: 0,
            rows: Vec::new(alloc),
        };
        slots.rows.push(RowSlots {
            earliest: 0,
            first: 1,
            last: 0,
            place: 0,
        })?;
        for v in 1..instance.customer_count() + 1 {
            let row = row_slots(instance, width, slots.count, v);
            slots.last = slots.last.max(row.last);
            slots.count = slots.count.saturating_add(row.count());
            slots.rows.push(row)?;
        }
        Ok(slots)
    }

    /// The last slot of all rows. No contract: a bound says itself what it bounds.
    pub fn last(&self) -> u32 {
        self.last
    }

    /// How many bounds there are. No contract: a bound says itself what it bounds.
    pub fn count(&self) -> usize {
        self.count as usize
    }

    /// The time from which on the bound of a row in a slot holds, in tenths, if the row has one.
    pub fn start(&self, v: u16, slot: u32) -> Option<u32>
        ensures { IfSome result (λ from. from ≤ 20 * MOST_TIME) }
    {
        let row = self.rows.get(usize::from(v))?;
        if slot < row.first || slot > row.last {
            return None;
        }
        let from = u64::from(slot).saturating_mul(self.width);
        Some(from.max(row.earliest).min(20 * u64::from(MOST_TIME)) as u32)
    }

    /// The earliest time at which a route may leave a customer, in tenths, if it is one.
    pub fn earliest(&self, v: u16) -> Option<u32>
        ensures { IfSome result (λ from. from ≤ 20 * MOST_TIME) }
    {
        let row = self.rows.get(usize::from(v))?;
        Some(row.earliest.min(20 * u64::from(MOST_TIME)) as u32)
    }

    /// The slot of a time. No contract: a bound says itself what it bounds.
    pub fn slot(&self, time: u64) -> u32 {
        cut(time.wrapping_mul(self.inverse) >> 32)
    }

    /// The last slot of a row, and the place of its bound in that.
    pub(crate) fn last_of(&self, v: u16) -> (u32, u32) {
        match self.rows.get(usize::from(v)) {
            Some(row) => (row.last, row.place),
            None => (0, 0),
        }
    }

    /// The place of the bound of a row at a time. No contract: a bound says itself what it bounds.
    pub fn place(&self, v: u16, time: u64) -> usize {
        let row = usize::from(v);
        if row >= self.rows.len() {
            return usize::MAX;
        }
        let row = &self.rows[row];
        let behind = row.last.saturating_sub(self.slot(time));
        row.place.saturating_add(behind) as usize
    }
}
