//! How far the merit rose below arcs that leaves were split on.
//!
//! No contract speaks of it: it is a rule of search, and any prices are sound.

use branching::Arc;
use std::alloc::{AllocError, Global};

/// Which child of a leaf by an arc.
#[derive(Clone, Copy, PartialEq, Eq)]
pub enum Child {
    /// The child in which the arc is required.
    Used,
    /// That in which it is forbidden.
    Unused,
}

/// The rises seen in one child by an arc, the one with it or the one without, in grains.
#[derive(Clone, Copy)]
struct Rises {
    arc: Arc,
    child: Child,
    sum: i128,
    count: u32,
}

/// By what rises are ordered.
fn key_of(arc: Arc, child: Child) -> (u16, u16, bool) {
    (arc.from, arc.to, child == Child::Unused)
}

/// For each arc and child the rises of merit that were seen there: what another child by the
/// arc is likely to rise by, whatever its parent.
#[derive(Drop)]
pub struct Pseudocosts {
    /// In the order of their keys.
    rises: Vec<Rises>,
}

impl Pseudocosts {
    /// Without any rises.
    pub fn new(alloc: Global) -> Pseudocosts {
        Pseudocosts {
            rises: Vec::new(alloc),
        }
    }

    /// Where the rises of an arc in a child stand, or are to stand.
    fn place(&self, arc: Arc, child: Child) -> usize {
        let key = key_of(arc, child);
        self.rises
            .partition_point(|seen| key_of(seen.arc, seen.child) < key)
    }

    /// The mean rise in grains, if one was seen.
    pub fn mean(&self, arc: Arc, child: Child) -> Option<i128> {
        let seen = self.rises.get(self.place(arc, child))?;
        if seen.arc == arc && seen.child == child {
            seen.sum.checked_div(i128::from(seen.count))
        } else {
            None
        }
    }

    /// Whether rises were seen in both children by an arc.
    pub fn knows(&self, arc: Arc) -> bool {
        self.mean(arc, Child::Used).is_some() && self.mean(arc, Child::Unused).is_some()
    }

    /// Takes in a rise in grains.
    pub fn note(&mut self, arc: Arc, child: Child, rise: i128) -> Result<(), AllocError> {
        let place = self.place(arc, child);
        match self.rises.get_mut(place) {
            Some(seen) if seen.arc == arc && seen.child == child => {
                seen.sum = seen.sum.saturating_add(rise);
                seen.count = seen.count.saturating_add(1);
                Ok(())
            }
            _ => {
                let seen = Rises {
                    arc,
                    child,
                    sum: rise,
                    count: 1,
                };
                let place = place.min(self.rises.len());
                self.rises.insert(place, seen)?;
                Ok(())
            }
        }
    }
}
