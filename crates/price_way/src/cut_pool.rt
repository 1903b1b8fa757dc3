//! The cuts whose prices a pool of routes leads to.
//!
//! No contract speaks of it: it is a rule of search, and whether a set may have a price is asked where it gets one.

use crate::leaf_cuts::LeafCuts;
use fronts::Nearness;
use pooled_routes::{CutPart, PooledCut};
use set_finding::FoundSet;
use std::alloc::{AllocError, Global};

/// Sets and rows, whose prices stand behind those of the customers.
#[derive(Drop)]
pub struct CutPool {
    pub(crate) alloc: Global,
    pub(crate) cuts: Vec<PooledCut>,
    /// How many cuts were taken in.
    met: u64,
    /// How many sets and rows were found by the routes of this pool.
    found_sets: usize,
    found_rows: usize,
}

impl CutPool {
    /// No cuts.
    pub(crate) fn new(alloc: Global) -> CutPool {
        CutPool {
            alloc,
            cuts: Vec::new(alloc),
            met: 0,
            found_sets: 0,
            found_rows: 0,
        }
    }

    /// How many sets were found by the routes of this pool.
    pub fn found_sets(&self) -> usize {
        self.found_sets
    }

    /// How many rows were found by the routes of this pool.
    pub fn found_rows(&self) -> usize {
        self.found_rows
    }

    /// How the prices of the cuts count, with no multiplier.
    pub(crate) fn parts(&self) -> Result<Vec<CutPart>, AllocError> {
        let mut parts = Vec::new(self.alloc);
        for cut in &self.cuts {
            parts.push(cut.part())?;
        }
        Ok(parts)
    }

    /// Where the set, or the row, of these customers stands, if it is one of the cuts.
    pub(crate) fn place_of(&self, is_set: bool, members: &[u16]) -> Option<usize> {
        let mut cuts = self.cuts.iter();
        cuts.position(|cut| cut.is_set() == is_set && cut.members.as_slice() == members)
    }

    /// The number of the next cut.
    fn next_number(&mut self) -> u64 {
        let number = self.met;
        self.met = number.saturating_add(1);
        number
    }

    /// Takes in a set, unless it is one of the cuts.
    fn adopt_set(&mut self, customers: u16, members: &[u16], need: u32) -> Result<(), AllocError> {
        if self.place_of(true, members).is_none() {
            let number = self.next_number();
            let set = PooledCut::set(self.alloc, customers, members, need, number)?;
            self.cuts.push(set)?;
        }
        Ok(())
    }

    /// Takes in a row, unless it is one of the cuts.
    fn adopt_row(&mut self, nearness: &Nearness<'_>, members: [u16; 3]) -> Result<(), AllocError> {
        if self.place_of(false, members.as_slice()).is_none() {
            let number = self.next_number();
            let row = PooledCut::row(self.alloc, nearness, members, number)?;
            self.cuts.push(row)?;
        }
        Ok(())
    }

    /// Adds sets that were found.
    pub(crate) fn add_sets(
        &mut self,
        customers: u16,
        found: &[FoundSet],
    ) -> Result<(), AllocError> {
        for set in found {
            self.found_sets = self.found_sets.saturating_add(1);
            self.adopt_set(customers, set.members.as_slice(), set.need)?;
        }
        Ok(())
    }

    /// Adds rows of three customers that were found.
    pub(crate) fn add_rows(
        &mut self,
        nearness: &Nearness<'_>,
        found: &[[u16; 3]],
    ) -> Result<(), AllocError> {
        for row in found {
            self.found_rows = self.found_rows.saturating_add(1);
            self.adopt_row(nearness, *row)?;
        }
        Ok(())
    }

    /// Counts for how many ascents in a row each cut wasn't among these, and drops those that have come to so many.
    fn drop_idle(&mut self, priced: LeafCuts<'_>, most_idle: u32) {
        for cut in self.cuts.iter_mut() {
            let is_used = priced.has(cut.is_set(), cut.members.as_slice());
            cut.idle = if is_used {
                0
            } else {
                cut.idle.saturating_add(1)
            };
        }
        self.cuts.retain(|cut| cut.idle < most_idle);
    }

    /// Takes in the cuts of a leaf.
    fn adopt_all(
        &mut self,
        nearness: &Nearness<'_>,
        priced: LeafCuts<'_>,
    ) -> Result<(), AllocError> {
        let customers = nearness.instance.customer_count();
        for set in priced.sets {
            self.adopt_set(customers, set.members.as_slice(), set.need)?;
        }
        for row in priced.rows {
            self.adopt_row(nearness, [row.first, row.second, row.third])?;
        }
        Ok(())
    }

    /// Takes in the cuts of a leaf, after it dropped those that have had no price for so many ascents. Answers whether
    /// the cuts are others than before.
    pub(crate) fn enter(
        &mut self,
        nearness: &Nearness<'_>,
        priced: LeafCuts<'_>,
        most_idle: u32,
    ) -> Result<bool, AllocError> {
        let (count, met) = (self.cuts.len(), self.met);
        self.drop_idle(priced, most_idle);
        let is_less = self.cuts.len() < count;
        self.adopt_all(nearness, priced)?;
        Ok(is_less || self.met > met)
    }

    /// The customers of each set, or of each row.
    pub fn members(&self, are_sets: bool) -> Result<Vec<Vec<u16>>, AllocError> {
        let mut members = Vec::new(self.alloc);
        for cut in self.cuts.iter().filter(|cut| cut.is_set() == are_sets) {
            members.push(cut.members.clone()?)?;
        }
        Ok(members)
    }

    /// The numbers of the cuts, in their order.
    pub(crate) fn numbers(&self) -> Result<Vec<u64>, AllocError> {
        let mut numbers = Vec::new(self.alloc);
        for cut in &self.cuts {
            numbers.push(cut.number)?;
        }
        Ok(numbers)
    }
}
