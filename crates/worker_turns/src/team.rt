//! What workers tell each other beside the book, so that each can choose what it does in a turn.

use std::sync::atomic::{AtomicBool, AtomicU64, Ordering};

/// What all workers of a run know of each other: whether the root was split, and the least cost of a plan that two of
/// them came to. No contract: it decides only which trade a worker has in a turn.
#[derive(Drop)]
pub struct Team {
    is_split: AtomicBool,
    agreed: AtomicU64,
}

impl Team {
    /// At a tree that was split before, or at the root alone; no two have the same plan yet.
    pub fn new(is_split: bool) -> Team {
        Team {
            is_split: AtomicBool::new(is_split),
            agreed: AtomicU64::new(u64::MAX),
        }
    }

    /// The root was split.
    pub(crate) fn split(&self) {
        self.is_split.store(true, Ordering::SeqCst);
    }

    /// Whether there are leaves for several workers.
    pub(crate) fn is_split(&self) -> bool {
        self.is_split.load(Ordering::SeqCst)
    }

    /// A worker came to a plan of the cost in tenths that another one brought.
    pub(crate) fn agree(&self, cost: u64) {
        self.agreed.store(cost, Ordering::SeqCst);
    }

    /// A worker brought a plan that is cheaper than all others.
    pub(crate) fn disagree(&self) {
        self.agreed.store(u64::MAX, Ordering::SeqCst);
    }

    /// Whether two workers came to plans of this cost in tenths, and to none of another one since.
    pub(crate) fn has_agreed(&self, cost: u64) -> bool {
        self.agreed.load(Ordering::SeqCst) == cost
    }
}
