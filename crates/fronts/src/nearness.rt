//! What depends on an instance and on how many neighbours are remembered alone.

ghost use Rattle.std.specs.Prelude.{◌≡◌, ◌<◌, ◌≤◌, length, IfOk, IsTrue};
ghost use Rattle.solomon_reader.specs.declared.limits.TheConstants.{MOST_NEIGHBOURS};
ghost use Rattle.fronts.specs.Memories.{ArePlaces, IsWholeList};
ghost use Rattle.fronts.specs.Steps.{IsStepList};
ghost use Rattle.fronts.specs.Tables.{IsTable};
ghost use Rattle.fronts.specs.declared.neighbours.TheConstants.{LIST_SIZE};

use crate::neighbours::LIST_SIZE;
use crate::slots::Slots;
use crate::step::{Step, all_steps};
use crate::tables::{all_places, neighbour_lists};
use solomon_reader::Instance;
use std::alloc::{AllocError, Global};

/// The neighbour list of each row, the places of all rows in it, the steps to
/// customers, and the slots of time: they serve every pricing of the instance with this many neighbours.
#[derive(Drop)]
pub struct Nearness<'i> {
    pub instance: &'i Instance,
    pub neighbours: u32,
    pub(crate) places: Vec<Vec<u8>>,
    pub(crate) neighbour_lists: Vec<[u16; LIST_SIZE as usize]>,
    pub(crate) steps: Vec<Vec<Step>>,
    pub(crate) slots: Slots,
    ghost few: { neighbours < LIST_SIZE },
    ghost placed: { IsTable (ArePlaces instance.now neighbours) (length instance.now.rows) places.items },
    ghost near: { IsTable (IsWholeList instance.now neighbours) (length instance.now.rows) neighbour_lists.items },
    ghost stepped: { IsTable (IsStepList instance.now neighbours) (length instance.now.rows) steps.items },
}

impl<'i> Nearness<'i> {
    /// The tables of an instance for this many neighbours, at most 15.
    pub fn new(
        alloc: Global,
        instance: &'i Instance,
        neighbours: u32,
    ) -> Result<Nearness<'i>, AllocError>
        requires { neighbours ≤ MOST_NEIGHBOURS }
        ensures instance { IfOk result (λ n. n.instance.now ≡ instance.now) }
        ensures neighbours { IfOk result (λ n. n.neighbours ≡ neighbours) }
    {
        let places = all_places(alloc, instance, neighbours)?;
        let neighbour_lists = neighbour_lists(alloc, instance, neighbours, places.as_slice())?;
        let slots = Slots::new(alloc, instance)?;
        let steps = all_steps(alloc, instance, neighbours, places.as_slice(), &slots)?;
        Ok(Nearness {
            instance,
            neighbours,
            places,
            neighbour_lists,
            steps,
            slots,
        })
    }

    /// Whether the neighbour list of a row v holds u. No contract: it serves rules of search.
    pub fn is_near(&self, v: u16, u: u16) -> bool {
        let Some(places) = self.places.get(usize::from(v)) else {
            return false;
        };
        match places.get(usize::from(u)) {
            Some(place) => *place < LIST_SIZE,
            None => false,
        }
    }

    /// Whether they are the tables of an instance for this many neighbours.
    pub fn is_for(&self, instance: &Instance, neighbours: u32) -> bool
        ensures instance { IsTrue result → self.now.instance.now ≡ instance.now }
        ensures neighbours { IsTrue result → self.now.neighbours ≡ neighbours }
    {
        self.neighbours == neighbours && *self.instance == *instance
    }
}
