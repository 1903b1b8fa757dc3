//! The labels of one customer, by time.

use crate::quick_label::QuickLabel;
use fronts::Memory;
use std::alloc::{AllocError, Global};

/// A label, by what it is compared with others of its customer.
#[derive(Clone, Copy)]
struct Stair {
    time: u64,
    cost: i64,
    memory: Memory,
    /// Where the label stands.
    index: usize,
}

/// The active labels of one customer, the earliest first.
#[derive(Drop)]
pub(crate) struct Stairs {
    stairs: Vec<Stair>,
}

impl Stairs {
    /// No labels.
    pub(crate) fn new(alloc: Global) -> Stairs {
        Stairs {
            stairs: Vec::new(alloc),
        }
    }

    /// Whether a label is to be dropped, as this many others are no later and no dearer, or one that remembers
    /// no more; and how many it was compared with.
    fn is_dropped(&self, place: usize, label: &QuickLabel, most: usize) -> (bool, u64) {
        let mut better: usize = 0;
        let mut met: u64 = 0;
        for stair in self.stairs.iter().take(place).rev() {
            met = met.saturating_add(1);
            if stair.cost <= label.cost {
                better = better.saturating_add(1);
                if better >= most || stair.memory.is_subset(label.memory) {
                    return (true, met);
                }
            }
        }
        (false, met)
    }

    /// Drops the labels from a place on that a newer one makes needless.
    fn drop_from(
        &mut self,
        place: usize,
        labels: &mut [QuickLabel],
        newer: &QuickLabel,
        most: usize,
    ) {
        let mut is_any = false;
        for stair in self.stairs.iter().skip(place) {
            let is_dearer = stair.cost >= newer.cost;
            if most == 1 && !is_dearer {
                break;
            }
            if is_dearer && (most == 1 || newer.memory.is_subset(stair.memory)) {
                is_any = true;
                if let Some(label) = labels.get_mut(stair.index) {
                    label.is_active = false;
                }
            }
        }
        if is_any {
            let is_active = |index: usize| labels.get(index).is_some_and(|label| label.is_active);
            self.stairs.retain(|stair| is_active(stair.index));
        }
    }

    /// Adds a label at the next index, unless it is to be dropped; answers whether it was added, and how many
    /// others it was compared with.
    pub(crate) fn add(
        &mut self,
        labels: &mut Vec<QuickLabel>,
        label: &QuickLabel,
        most: usize,
    ) -> Result<(bool, u64), AllocError> {
        let place = self
            .stairs
            .partition_point(|stair| stair.time <= label.time);
        let (is_dropped, met) = self.is_dropped(place, label, most);
        if is_dropped {
            return Ok((false, met));
        }
        self.drop_from(place, labels.as_mut_slice(), label, most);
        let stair = Stair {
            time: label.time,
            cost: label.cost,
            memory: label.memory,
            index: labels.len(),
        };
        let place = place.min(self.stairs.len());
        self.stairs.insert(place, stair)?;
        labels.push(*label)?;
        Ok((true, met))
    }
}
