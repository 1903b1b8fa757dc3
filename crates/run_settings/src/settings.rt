//! How much work goes into a plan and a bound.
ghost use Rattle.std.specs.Prelude.{◌≡◌, ◌≤◌, ◌↔◌, IsTrue};

use solomon_reader::{MOST_NEIGHBOURS, MOST_ROWS, MOST_SETS};

/// The most threads that look for a plan.
pub const MOST_SEARCHERS: u32 = 32;
/// The most threads that raise the bound.
pub const MOST_BOUNDERS: u32 = 32;
/// The most turns of one worker.
pub const MOST_TURNS: u32 = 1_000_000;
/// The most labels that may be active at once in a pricing.
pub const MOST_LABELS: u32 = 100_000_000;
/// The greatest gap that may be enough, in tenths of a percent of the cost.
pub const MOST_GAP: u32 = 1_000;

/// How much work goes into a plan and a bound. Any numbers can stand in it:
/// `is_within` says whether they are within the limits.
#[derive(Clone, Copy, Debug, PartialEq, Eq)]
pub struct Settings {
    /// How many threads look for a plan: 1 to `MOST_SEARCHERS`, by default 2.
    pub searchers: u32,
    /// How many threads raise the bound: 1 to `MOST_BOUNDERS`, by default 2.
    pub bounders: u32,
    /// How many turns each worker makes: 1 to `MOST_TURNS`, by default 200.
    pub turns: u32,
    /// Where the random numbers start: any number, by default 1.
    pub seed: u32,
    /// How many nearest customers the relaxed routes of a customer remember: 0 to
    /// `MOST_NEIGHBOURS`, by default 8.
    pub neighbours: u32,
    /// How many labels may be active at once in a pricing: 1 to `MOST_LABELS`, by default 1,000,000.
    pub labels: u32,
    /// Once cost and bound are no further apart than this many tenths of a percent of the cost, turns do
    /// nothing: 0 to `MOST_GAP`, by default 0.
    pub gap: u32,
    /// How many sets of customers may have prices in the tree: 0 to `MOST_SETS`, by default 0.
    pub sets: u32,
    /// How many rows of three customers may have prices in the tree: 0 to `MOST_ROWS`, by default 0.
    pub rows: u32,
}

fn is_between(number: u32, least: u32, most: u32) -> bool
    ensures { IsTrue result ↔ ((least ≤ number) × (number ≤ most)) }
{
    least <= number && number <= most
}

impl Settings {
    ghost use Rattle.run_settings.specs.Settings.{IsWithin};

    /// Whether each number is within its limits.
    pub fn is_within(&self) -> bool
        ensures { IsTrue result ↔ IsWithin self.now }
    {
        is_between(self.searchers, 1, MOST_SEARCHERS)
            && is_between(self.bounders, 1, MOST_BOUNDERS)
            && is_between(self.turns, 1, MOST_TURNS)
            && is_between(self.neighbours, 0, MOST_NEIGHBOURS)
            && is_between(self.labels, 1, MOST_LABELS)
            && is_between(self.gap, 0, MOST_GAP)
            && is_between(self.sets, 0, MOST_SETS)
            && is_between(self.rows, 0, MOST_ROWS)
    }
}

impl Default for Settings {
    ghost use Rattle.run_settings.specs.Settings.{default_settings};

    ghost is_default = { λ settings. settings ≡ default_settings };

    fn default() -> Settings {
        Settings {
            searchers: 2,
            bounders: 2,
            turns: 200,
            seed: 1,
            neighbours: 8,
            labels: 1_000_000,
            gap: 0,
            sets: 0,
            rows: 0,
        }
    }
}
