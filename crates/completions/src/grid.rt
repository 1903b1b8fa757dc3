//! For which times and loads bounds are kept.

ghost use Rattle.std.specs.Prelude.{◌≤◌, ◌*◌, IfSome};
ghost use Rattle.solomon_reader.specs.declared.limits.TheConstants.{MOST_TIME, MOST_CAPACITY};

use fronts::{Slots, Step};
use solomon_reader::{Instance, MOST_CAPACITY};

/// From which time and load on the bound of a row holds.
#[derive(Clone, Copy)]
pub(crate) struct Corner {
    /// The time, in tenths.
    pub(crate) from: u32,
    /// The load.
    pub(crate) load: u16,
}

/// Slots of load of one length, from 0 on: no longer than the least demand, so that each step leads into a later
/// one.
#[derive(Clone, Copy)]
pub(crate) struct Loads {
    /// How long a slot is.
    width: u32,
    /// What a load is multiplied by to get its slot in units of 2 to the power of -32, in place of a division.
    inverse: u64,
    /// How many slots there are.
    count: u32,
}

/// The least demand of a customer, 1 at least.
fn least_demand(instance: &Instance) -> u32
    ensures { 1 ≤ result }
{
    let mut least = u32::MAX;
    for customer in 1..instance.customer_count() + 1 {
        least = least.min(u32::from(instance.demand(customer)));
    }
    least.max(1)
}

impl Loads {
    /// The slots of an instance.
    pub(crate) fn new(instance: &Instance) -> Loads {
        let width = least_demand(instance);
        let count = u32::from(instance.capacity()) / width + 1;
        let inverse = (1u64 << 32) / u64::from(width.max(1)) + 1;
        Loads {
            width,
            inverse,
            count,
        }
    }

    /// How many there are.
    pub(crate) fn count(self) -> u32 {
        self.count
    }

    /// The place of a row's bound at a load. No contract: a bound says itself what it bounds.
    fn place(self, v: u16, load: u32) -> usize {
        let slot = (u64::from(load).wrapping_mul(self.inverse) >> 32) as u32;
        let before = u32::from(v).saturating_mul(self.count);
        before.saturating_add(slot) as usize
    }
}

/// For what bounds are kept: for slots of the time at which a route leaves a row, with any load, or for slots of
/// its load, from the earliest time on.
#[derive(Clone, Copy)]
pub(crate) enum Grid<'t> {
    Times(&'t Slots),
    Loads(&'t Slots, Loads),
}

impl<'t> Grid<'t> {
    /// How many bounds there are. No contract: a bound says itself what it bounds.
    pub(crate) fn count(self, instance: &Instance) -> usize {
        match self {
            Grid::Times(slots) => slots.count(),
            Grid::Loads(_, loads) => loads.place(instance.customer_count() + 1, 0),
        }
    }

    /// The place of a row's bound in the next slot, where that is what a bound begins as. No contract: it may begin as
    /// any other one.
    pub(crate) fn later(self, place: usize) -> Option<usize> {
        match self {
            Grid::Times(_) => place.checked_sub(1),
            Grid::Loads(..) => None,
        }
    }

    /// For how many rows it is noted what follows on a visit. No contract: what is noted says itself what it bounds.
    pub(crate) fn noted(self, instance: &Instance) -> usize {
        match self {
            Grid::Times(_) => usize::from(instance.customer_count()) + 1,
            Grid::Loads(..) => 0,
        }
    }

    /// The last slot.
    pub(crate) fn last(self) -> u32 {
        match self {
            Grid::Times(slots) => slots.last(),
            Grid::Loads(_, loads) => loads.count.saturating_sub(1),
        }
    }

    /// From where on the bound of a row in a slot holds, if the row has one.
    pub(crate) fn corner(self, v: u16, slot: u32) -> Option<Corner>
        ensures from { IfSome result (λ c. c.from ≤ 20 * MOST_TIME) }
        ensures load { IfSome result (λ c. c.load ≤ MOST_CAPACITY) }
    {
        match self {
            Grid::Times(slots) => {
                let from = slots.start(v, slot)?;
                Some(Corner { from, load: 0 })
            }
            Grid::Loads(slots, loads) => {
                let from = slots.earliest(v)?;
                let load = slot.saturating_mul(loads.width);
                let load = load.min(u32::from(MOST_CAPACITY)) as u16;
                Some(Corner { from, load })
            }
        }
    }

    /// The place of the bound of a row at a time and a load. No contract: a bound says itself what it bounds.
    pub(crate) fn place(self, v: u16, time: u64, load: u32) -> usize {
        match self {
            Grid::Times(slots) => slots.place(v, time),
            Grid::Loads(_, loads) => loads.place(v, load),
        }
    }

    /// The place of the bound after a step that leads to this time and load. No contract: as for `place`.
    #[inline(always)]
    pub(crate) fn place_after(self, step: &Step, time: u64, load: u32) -> usize {
        match self {
            Grid::Times(slots) => step.place_at(slots.slot(time)),
            Grid::Loads(_, loads) => loads.place(step.customer, load),
        }
    }
}
