//! Quick searches for the routes that bind prices, at the root of an instance where an exact pricing is dear.
//!
//! No contract speaks of it: it is a rule of search, and any prices are sound.

use fronts::Task;
use quick_routes::{Likely, Width};
use std::alloc::AllocError;

/// How widely searches look, from the narrowest on.
const WIDTHS: [Width; 3] = [
    Width {
        steps: 20,
        nearest: 5,
        labels: 1,
    },
    Width {
        steps: 30,
        nearest: 8,
        labels: 2,
    },
    Width {
        steps: 50,
        nearest: 10,
        labels: 4,
    },
];

/// How widely the widest search looks.
pub const WIDEST: Width = Width {
    steps: 100,
    nearest: 20,
    labels: 8,
};

/// All of a scale, in millionths.
pub const WHOLE: i64 = 1_000_000;

/// What is held back of the first prices that are priced exactly, in millionths: much, since a pricing takes long
/// where quick searches miss routes that pay far more than they cost.
const FIRST_MARGIN: i64 = 150_000;

/// An exact pricing is dear where it takes this many times the work of a quick search.
const QUICK_OF_EXACT: u64 = 8;

/// After this many rounds in vain ordinary steps come between.
const IDLE_ROUNDS: u32 = 4;

/// How an ascent by quick searches goes on.
#[derive(Drop)]
pub struct QuickWay {
    pub likely: Likely,
    /// Which of the widths searches have.
    level: usize,
    /// How far below the prices of routes the next prices to be priced exactly are to stay, in millionths.
    pub margin: i64,
    /// How many rounds in a row raised nothing.
    idle: u32,
    /// Whether a round was made.
    pub has_begun: bool,
    /// How much work the last quick search was.
    pub work: u64,
}

impl QuickWay {
    /// The way at its beginning.
    pub fn new(task: &Task<'_>) -> Result<QuickWay, AllocError> {
        Ok(QuickWay {
            likely: Likely::new(task)?,
            level: 0,
            margin: FIRST_MARGIN,
            idle: 0,
            has_begun: false,
            work: 0,
        })
    }

    /// How widely the next step's search looks.
    pub fn width(&self) -> Width {
        WIDTHS.get(self.level).copied().unwrap_or(WIDEST)
    }

    /// Looks more widely from now on; whether that could be.
    pub fn widen(&mut self) -> bool {
        let next = self.level.saturating_add(1);
        let is_one = next < WIDTHS.len();
        if is_one {
            self.level = next;
        }
        is_one
    }

    /// Whether the next step is a round of quick searches, where an exact pricing is this much work and there
    /// will be few of them.
    pub fn is_next(&mut self, exact: u64, are_few: bool) -> bool {
        if self.idle >= IDLE_ROUNDS {
            self.idle = self.idle.saturating_sub(2);
            return false;
        }
        self.is_far_less_than(exact) && are_few
    }

    /// Whether an exact pricing, which is this much work, is dear beside a quick search.
    pub fn is_far_less_than(&self, exact: u64) -> bool {
        exact > self.work.saturating_mul(QUICK_OF_EXACT)
    }

    /// Learns whether a round raised the value.
    pub fn learn(&mut self, is_raised: bool) {
        self.has_begun = true;
        self.idle = if is_raised {
            0
        } else {
            self.idle.saturating_add(1)
        };
    }

    /// Learns how far the last prices that were priced exactly missed the whole, in millionths.
    pub fn learn_lack(&mut self, lack: i64) {
        self.margin = self.margin.saturating_add(lack).max(0).saturating_mul(3) / 5;
    }
}
