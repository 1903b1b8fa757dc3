//! The order in which labels are extended.

use std::alloc::{AllocError, Global};

/// The slots of time but the last one.
const SLOTS: u64 = 1_000;

/// Buckets of labels by time. A label's steps lead to no earlier times.
#[derive(Drop)]
pub(crate) struct Buckets {
    /// How long a slot is, in tenths.
    width: u64,
    /// The index of the first label of each slot.
    heads: Vec<Option<usize>>,
    /// For each label the index of the next one of the same slot.
    nexts: Vec<Option<usize>>,
}

impl Buckets {
    /// Empty buckets, for times up to the latest, in tenths.
    pub(crate) fn new(alloc: Global, latest: u64) -> Result<Buckets, AllocError> {
        Ok(Buckets {
            width: latest / SLOTS + 1,
            heads: vec![in alloc; None; SLOTS as usize + 1]?,
            nexts: Vec::new(alloc),
        })
    }

    /// Empties the buckets, which serve for times up to the latest, in tenths.
    pub(crate) fn clear(&mut self, latest: u64) {
        self.width = latest / SLOTS + 1;
        self.heads.as_mut_slice().fill(None);
        self.nexts.clear();
    }

    /// Puts the label at the next index into the bucket of its time, in tenths.
    pub(crate) fn add(&mut self, time: u64, index: usize) -> Result<(), AllocError> {
        let slot = (time / self.width.max(1)).min(SLOTS) as usize;
        if slot < self.heads.len() {
            self.nexts.push(self.heads[slot])?;
            self.heads[slot] = Some(index);
        }
        Ok(())
    }

    /// The number of slots.
    pub(crate) fn slots(&self) -> usize {
        self.heads.len()
    }

    /// Takes the index of a label out of the bucket of a slot.
    pub(crate) fn take(&mut self, slot: usize) -> Option<usize> {
        if slot >= self.heads.len() {
            return None;
        }
        let index = self.heads[slot]?;
        let mut next = None;
        if index < self.nexts.len() {
            next = self.nexts[index];
        }
        self.heads[slot] = next;
        Some(index)
    }
}
