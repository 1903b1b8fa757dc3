//! How many leaves of a part of a tree are still to be worked at.

use std::sync::atomic::{AtomicU64, Ordering};

/// Counts for all workers of a run how many leaves of their part of a given tree are still to be worked at. Where they
/// work at the whole tree it counts none: cost and bound tell when that is done.
#[derive(Drop)]
pub struct LeavesLeft {
    count: Option<AtomicU64>,
}

impl LeavesLeft {
    /// Those of the whole tree. No contract: it decides only when the workers end.
    pub fn of_all() -> LeavesLeft {
        LeavesLeft { count: None }
    }

    /// So many leaves of a part. No contract, either.
    pub fn of_part(count: u64) -> LeavesLeft {
        LeavesLeft {
            count: Some(AtomicU64::new(count)),
        }
    }

    /// A leaf was split: both children stand for it.
    pub(crate) fn split(&self) {
        if let Some(count) = &self.count {
            let _ = count.fetch_add(1, Ordering::SeqCst);
        }
    }

    /// Nothing is left to be done at a leaf.
    pub(crate) fn finish(&self) {
        if let Some(count) = &self.count {
            let _ = count.fetch_sub(1, Ordering::SeqCst);
        }
    }

    /// Whether nothing is left to be done at any leaf of the part.
    pub(crate) fn are_gone(&self) -> bool {
        match &self.count {
            Some(count) => count.load(Ordering::SeqCst) == 0,
            None => false,
        }
    }
}
