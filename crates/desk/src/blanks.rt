//! The opening tokens of ten ledgers.

ghost use Rattle.std.specs.Prelude.{◌≡◌};
ghost use Rattle.desk.specs.Tally.{each};
ghost use Rattle.desk.specs.Blanks.{parts_of};

use crate::each_ledger::each_ledger;
use std::sync::ledger::Blank;

/// The opening tokens of the ledgers that a desk counts in: of the accepted offers, the better ones,
/// the reprices and the splits, and of six sums.
#[derive(Drop)]
pub struct Blanks {
    /// Of the accepted offers.
    pub accepted: Blank,
    /// Of the better ones.
    pub better: Blank,
    /// Of the reprices.
    pub repriced: Blank,
    /// Of the splits.
    pub split: Blank,
    /// Of the workers' numbers, once for each accepted call.
    pub workers: Blank,
    /// Of the costs of the accepted offers.
    pub costs: Blank,
    /// Of the reprices' values.
    pub values: Blank,
    /// Of the leaves that the reprices named.
    pub repriced_leaves: Blank,
    /// Of the leaves that the splits named.
    pub split_leaves: Blank,
    /// Of the numbers that the splits made.
    pub made: Blank,
}

impl Blanks {
    /// Tokens of ten new ledgers, each cut into a part for each worker.
    #[tactic(auto, unfolding(crate::specs::Tally::each))]
    pub fn new(workers: u16) -> Blanks
        ensures { parts_of result ≡ each workers }
    {
        each_ledger!(new u64::from(workers))
    }
}
