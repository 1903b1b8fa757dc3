//! What the work on a leaf stands on.

ghost use Rattle.std.specs.Prelude.{◌≡◌, None, IfOk, IfSome};
ghost use Rattle.std.specs.List.{All};
ghost use Rattle.leaf_arcs.specs.Arcs.{AreArcRows};
ghost use Rattle.leaf_arcs.specs.Floors.{IsFloor, IsKnown};
ghost use Rattle.leaf_arcs.specs.Leaves.{pricing_of};

use crate::arcs::ArcRow;
use crate::floor::{Floor, floor_at, floors_of};
use crate::leaf::Leaf;
use crate::rows::arc_rows;
use std::alloc::{AllocError, Global};

/// A leaf, with the arcs that it allows, and floors.
#[derive(Drop)]
pub struct Task<'a, 'i> {
    /// The leaf.
    pub leaf: Leaf<'a, 'i>,
    /// The reduced cost in grains from which on relaxed routes don't count, if there is one.
    pub limit: Option<i64>,
    /// Where a route may go from each row.
    pub rows: Vec<ArcRow>,
    time_floors: Vec<Option<Floor>>,
    /// Those over time and load, none until they are added.
    more_floors: Vec<Option<Floor>>,
    /// The level of their slots.
    pub level: usize,
    ghost rows_are: { AreArcRows (pricing_of leaf) rows.items },
    ghost by_time: { All (IsKnown (pricing_of leaf)) time_floors.items },
    ghost by_both: { All (IsKnown (pricing_of leaf)) more_floors.items },
}

impl<'a, 'i> Task<'a, 'i> {
    /// The task of a leaf, with floors over time, and no limit.
    pub fn new(alloc: Global, leaf: Leaf<'a, 'i>) -> Result<Task<'a, 'i>, AllocError>
        ensures leaf { IfOk result (λ t. t.leaf ≡ leaf.entry) }
        ensures limit { IfOk result (λ t. t.limit ≡ None) }
    {
        let rows = arc_rows(alloc, &leaf)?;
        let network = leaf.network;
        let time_floors = floors_of(alloc, &leaf, rows.as_slice(), &network.time_slots)?;
        Ok(Task {
            leaf,
            limit: None,
            rows,
            time_floors,
            more_floors: Vec::new(alloc),
            level: 0,
        })
    }

    /// Adds floors over time and load, with slots of a level.
    pub fn add_floors(&mut self, alloc: Global, level: usize) -> Result<(), AllocError>
        ensures leaf { self.new.leaf ≡ self.old.leaf }
        ensures limit { self.new.limit ≡ self.old.limit }
    {
        let network = self.leaf.network;
        let Some(slots) = network.grids.get(level) else {
            return Ok(());
        };
        let rows = self.rows.as_slice();
        self.more_floors = floors_of(alloc, &self.leaf, rows, slots)?;
        self.level = level;
        Ok(())
    }

    /// The floor over time that holds of a row at a time and a load, if one is known.
    pub fn floor_at(&self, row: u16, time: u64, load: usize) -> Option<Floor>
        ensures { IfSome result (λ f. IsFloor (pricing_of self.now.leaf) row time load f) }
    {
        let network = self.leaf.network;
        let place = network.time_slots.place(row, time, load);
        let floors = self.time_floors.as_slice();
        floor_at(&self.leaf, floors, place, row, time, load)
    }

    /// The floor over time and load that holds of a row at a time and a load, if one is known.
    pub fn near_floor_at(&self, row: u16, time: u64, load: usize) -> Option<Floor>
        ensures { IfSome result (λ f. IsFloor (pricing_of self.now.leaf) row time load f) }
    {
        let network = self.leaf.network;
        let slots = network.grids.get(self.level)?;
        let floors = self.more_floors.as_slice();
        if floors.is_empty() {
            return None;
        }
        let place = slots.place(row, time, load);
        floor_at(&self.leaf, floors, place, row, time, load)
    }
}
