//! Labels: the first stops of relaxed routes, with what the further ones depend on.

ghost use Rattle.std.specs.Prelude.{◌≡◌, ◌+◌, ◌≤◌, ◌↔◌, IsTrue};
ghost use Rattle.solomon_reader.specs.States.{CanStep};
ghost use Rattle.row_charges.specs.Bits.{bit_of};
ghost use Rattle.fronts.specs.Fronts.{IsChargedAfter, IsBounded};
ghost use Rattle.fronts.specs.Tasks.{pricing_of};
ghost use Rattle.labels.specs.Arena.{state_at, IsExtension};
ghost use Rattle.labels.specs.Cover.{IsNoWorse, Carries};
ghost use Rattle.labels.specs.Sparing.{IsAsEarlyAndCheap, IsCheapFor, HasRoomIn};

use completions::Completions;
use fronts::{Front, Memory, Task};
use row_charges::RowBits;

/// The first stops of a relaxed route. It stands in a list that only grows.
#[derive(Clone, Copy)]
pub struct Label {
    /// Where the vehicle stands.
    pub front: Front,
    /// The customers that it may not visit next.
    pub memory: Memory,
    /// The bits of the rows that have a price.
    pub bits: RowBits,
    /// The index of the label before the last stop.
    pub parent: usize,
    /// The number of stops.
    pub stops: u32,
    /// Whether no label that dominates it was added.
    pub active: bool,
    /// Whether its steps were taken.
    pub extended: bool,
}

/// Whether this room is left beside a load.
fn fits(capacity: u16, load: u32, room: u32) -> bool
    ensures { IsTrue result ↔ (load + room ≤ capacity) }
{
    load.saturating_add(room) <= u32::from(capacity)
}

impl Label {
    /// The label at an index with one more stop, at j, after which the vehicle stands at this front.
    pub fn extend(&self, task: &Task<'_>, index: usize, front: Front, j: u16) -> Label
        requires bounded { IsBounded task.now.instance.now self.now.front }
        requires light { self.now.stops ≤ self.now.front.load }
        requires can { CanStep (pricing_of task.now) (state_at (pricing_of task.now) self.now) j }
        requires after { IsChargedAfter (pricing_of task.now) self.now.front (bit_of self.now.bits) j front }
        requires after_bounded { IsBounded task.now.instance.now front }
        requires carried { self.now.front.load + 1 ≤ front.load }
        ensures { IsExtension (pricing_of task.now) self.now index j result }
    {
        Label {
            front,
            memory: task.remember(self.front.last, self.memory, j),
            bits: task.bits_after(self.bits, j),
            parent: index,
            stops: self.stops + 1,
            active: true,
            extended: false,
        }
    }

    /// Whether this one is no worse than another, the loads left aside.
    fn is_no_worse(&self, task: &Task<'_>, other: &Label) -> bool
        ensures { let q = pricing_of task.now in
            IsTrue result → IsNoWorse q.rows (state_at q self.now) (state_at q other.now) }
    {
        self.is_as_early_and_cheap(task, other) && self.memory.is_subset(other.memory)
    }

    /// Whether this one is no dearer than another one together with what the rows cost that may charge it alone.
    #[inline(never)]
    fn is_as_cheap_in_debt(&self, task: &Task<'_>, other: &Label) -> bool
        ensures { IsTrue result → IsCheapFor (pricing_of task.now).rows self.now other.now }
    {
        let debt = task.debt(self.bits, other.bits);
        i128::from(self.front.cost) + i128::from(debt) <= i128::from(other.front.cost)
    }

    /// Whether this one is no dearer than another one, whatever rows charge this one alone.
    pub(crate) fn is_as_cheap(&self, task: &Task<'_>, other: &Label) -> bool
        ensures { IsTrue result → IsCheapFor (pricing_of task.now).rows self.now other.now }
    {
        if task.has_rows() {
            return self.is_as_cheap_in_debt(task, other);
        }
        self.front.cost <= other.front.cost
    }

    /// Whether this one stands where another does, and is no later and no dearer, whatever rows charge it alone.
    pub(crate) fn is_as_early_and_cheap(&self, task: &Task<'_>, other: &Label) -> bool
        ensures { IsTrue result → IsAsEarlyAndCheap (pricing_of task.now).rows self.now other.now }
    {
        self.front.last == other.front.last
            && self.front.time <= other.front.time
            && self.is_as_cheap(task, other)
    }

    /// The greatest load with which another label that stands where this one does has room for all that this one
    /// may still load.
    pub fn most_load(&self, completions: &Completions<'_, '_>) -> u32
        requires { IsBounded completions.now.task.now.instance.now self.now.front }
        ensures { HasRoomIn completions.now self.now result }
    {
        // Bounds hold where the last stop is remembered, as it is after each stop.
        if !self.memory.contains(0) {
            return self.front.load;
        }
        let bound = completions.at(self.front.last, self.front.time);
        let capacity = u32::from(completions.task.instance.capacity());
        capacity
            .saturating_sub(u32::from(bound.room))
            .max(self.front.load)
    }

    /// Whether all that may come after another label may come after this one, at no greater cost. This
    /// one may be heavier where it has room for all that the other one may still load.
    pub fn dominates(&self, completions: &Completions<'_, '_>, other: &Label) -> bool
        ensures { let q = pricing_of completions.now.task.now in
            IsTrue result → Carries q (state_at q self.now) (state_at q other.now) }
    {
        if !self.is_no_worse(completions.task, other) {
            return false;
        }
        if self.front.load <= other.front.load {
            return true;
        }
        // Bounds hold where the last stop is remembered, as it is after each stop.
        if !other.memory.contains(0) {
            return false;
        }
        let bound = completions.at(other.front.last, other.front.time);
        fits(
            completions.task.instance.capacity(),
            self.front.load,
            u32::from(bound.room),
        )
    }
}
