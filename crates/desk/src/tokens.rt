//! Tokens that count what workers did.

ghost use Rattle.std.specs.Prelude.{◌≡◌, ◌+◌, ◌-◌, ◌<◌};
ghost use Rattle.solomon_reader.specs.History.{offered, repriced};
ghost use Rattle.incumbent_book.specs.Contents.{event_of};
ghost use Rattle.desk.specs.Tally.{each, plus, split_tally, tally_of_event};
ghost use Rattle.desk.specs.Blanks.{names_of, parts_of};

use crate::amounts::add_large;
use crate::blanks::Blanks;
use crate::each_ledger::each_ledger;
use crate::ledgers::{
    Accepted, Better, Costs, LedgerOf, Made, Repriced, RepricedLeaves, Split, SplitLeaves, Values,
    Workers,
};
use crate::naming::Naming;
use incumbent_book::Event;
use std::marker::Model;
use std::sync::ledger;

/// The totals of what all shares counted.
#[derive(Drop)]
pub(crate) struct Totals<J: Naming> {
    accepted: ledger::Book<LedgerOf<J, Accepted>>,
    better: ledger::Book<LedgerOf<J, Better>>,
    repriced: ledger::Book<LedgerOf<J, Repriced>>,
    split: ledger::Book<LedgerOf<J, Split>>,
    workers: ledger::Book<LedgerOf<J, Workers>>,
    costs: ledger::Book<LedgerOf<J, Costs>>,
    values: ledger::Book<LedgerOf<J, Values>>,
    repriced_leaves: ledger::Book<LedgerOf<J, RepricedLeaves>>,
    split_leaves: ledger::Book<LedgerOf<J, SplitLeaves>>,
    made: ledger::Book<LedgerOf<J, Made>>,
}

impl<J: Naming> Model for Totals<J> {
    ghost use Rattle.desk.specs.Tally.{Tally};

    ghost Value = { Tally };

    ghost view = { λ t. record {
      accepted = t.accepted.total;
      better = t.better.total;
      repriced = t.repriced.total;
      split = t.split.total;
      workers = t.workers.total;
      costs = t.costs.total;
      values = t.values.total;
      repriced_leaves = t.repriced_leaves.total;
      split_leaves = t.split_leaves.total;
      made = t.made.total;
    } };
}

/// What one share counted.
#[derive(Drop)]
pub(crate) struct Tokens<J: Naming> {
    accepted: ledger::Share<LedgerOf<J, Accepted>>,
    better: ledger::Share<LedgerOf<J, Better>>,
    repriced: ledger::Share<LedgerOf<J, Repriced>>,
    split: ledger::Share<LedgerOf<J, Split>>,
    workers: ledger::Share<LedgerOf<J, Workers>>,
    costs: ledger::Share<LedgerOf<J, Costs>>,
    values: ledger::Share<LedgerOf<J, Values>>,
    repriced_leaves: ledger::Share<LedgerOf<J, RepricedLeaves>>,
    split_leaves: ledger::Share<LedgerOf<J, SplitLeaves>>,
    made: ledger::Share<LedgerOf<J, Made>>,
}

impl<J: Naming> Model for Tokens<J> {
    ghost use Rattle.std.specs.Prelude.{◌≡◌};
    ghost use Rattle.desk.specs.Holding.{Holding};

    ghost Value = { Holding };

    ghost view = { λ t. record {
      parts = t.accepted.parts;
      tally = record {
        accepted = t.accepted.amount;
        better = t.better.amount;
        repriced = t.repriced.amount;
        split = t.split.amount;
        workers = t.workers.amount;
        costs = t.costs.amount;
        values = t.values.amount;
        repriced_leaves = t.repriced_leaves.amount;
        split_leaves = t.split_leaves.amount;
        made = t.made.amount;
      };
    } };

    ghost invariant = { λ t. (t.better.parts ≡ t.accepted.parts)
        × (t.repriced.parts ≡ t.accepted.parts)
        × (t.split.parts ≡ t.accepted.parts)
        × (t.workers.parts ≡ t.accepted.parts)
        × (t.costs.parts ≡ t.accepted.parts)
        × (t.values.parts ≡ t.accepted.parts)
        × (t.repriced_leaves.parts ≡ t.accepted.parts)
        × (t.split_leaves.parts ≡ t.accepted.parts)
        × (t.made.parts ≡ t.accepted.parts) };
}

impl<J: Naming> Totals<J> {
    /// Opens the ledgers: nothing is counted, and the tokens have all parts.
    #[tactic(auto, unfolding(crate::specs::Tally::each))]
    pub(crate) fn open(blanks: Blanks) -> (Totals<J>, Tokens<J>)
        requires { (names_of blanks ≡ J.names) × (parts_of blanks ≡ each J.workers) }
        ensures { (result.0 ≡ each 0) × (result.1 ≡ record { parts = J.workers; tally = each 0 }) }
    {
        each_ledger!(open blanks)
    }

    /// Counts an event.
    pub(crate) fn count(&mut self, mine: &mut Tokens<J>, event: &Event)
        requires { 0 < mine.old.parts }
        ensures totals { self.new ≡ plus self.old (tally_of_event (event_of event.now)) }
        ensures mine { mine.new ≡ record {
          parts = mine.old.parts;
          tally = plus mine.old.tally
              (tally_of_event (event_of event.now));
        } }
    {
        match *event {
            Event::Offered {
                worker,
                cost,
                better,
            } => self.count_offer(mine, worker, cost.get(), better),
            Event::Repriced {
                worker,
                leaf,
                value,
            } => self.count_reprice(mine, worker, leaf, value),
            Event::Split {
                worker,
                leaf,
                arc: _,
                used,
                unused,
                values: _,
            } => self.count_split(mine, worker, leaf, used, unused),
        }
    }

    /// Counts an accepted offer.
    #[tactic(auto, unfolding(crate::specs::Tally::plus))]
    fn count_offer(&mut self, mine: &mut Tokens<J>, worker: u16, cost: u64, better: bool)
        requires { 0 < mine.old.parts }
        ensures totals { self.new ≡ plus self.old (tally_of_event (offered worker cost better)) }
        ensures mine { mine.new ≡ record {
          parts = mine.old.parts;
          tally = plus mine.old.tally
              (tally_of_event (offered worker cost better));
        } }
    {
        self.accepted.add(&mut mine.accepted, 1);
        self.better.add(&mut mine.better, u64::from(better));
        self.workers.add(&mut mine.workers, u64::from(worker));
        self.costs.add(&mut mine.costs, cost);
    }

    /// Counts a reprice.
    #[tactic(auto, unfolding(crate::specs::Tally::plus))]
    fn count_reprice(&mut self, mine: &mut Tokens<J>, worker: u16, leaf: u32, value: u128)
        requires { 0 < mine.old.parts }
        ensures totals { self.new ≡ plus self.old (tally_of_event (repriced worker leaf value)) }
        ensures mine { mine.new ≡ record {
          parts = mine.old.parts;
          tally = plus mine.old.tally
              (tally_of_event (repriced worker leaf value));
        } }
    {
        self.repriced.add(&mut mine.repriced, 1);
        self.workers.add(&mut mine.workers, u64::from(worker));
        self.repriced_leaves
            .add(&mut mine.repriced_leaves, u64::from(leaf));
        add_large(&mut self.values, &mut mine.values, value);
    }

    /// Counts a split.
    #[tactic(auto, unfolding(crate::specs::Tally::plus))]
    fn count_split(&mut self, mine: &mut Tokens<J>, worker: u16, leaf: u32, used: u32, unused: u32)
        requires { 0 < mine.old.parts }
        ensures totals { self.new ≡ plus self.old (split_tally worker leaf used unused) }
        ensures mine { mine.new ≡ record {
          parts = mine.old.parts;
          tally = plus mine.old.tally
              (split_tally worker leaf used unused);
        } }
    {
        self.split.add(&mut mine.split, 1);
        self.workers.add(&mut mine.workers, u64::from(worker));
        self.split_leaves
            .add(&mut mine.split_leaves, u64::from(leaf));
        self.made
            .add(&mut mine.made, u64::from(used) + u64::from(unused));
    }

    /// The tokens with all parts have counted what the totals say.
    pub(crate) fn audit(&mut self, all: &mut Tokens<J>)
        requires { all.old.parts ≡ J.workers }
        ensures totals { self.new ≡ self.old }
        ensures all { all.new ≡ all.old }
        ensures whole { all.old.tally ≡ self.old }
    {
        each_ledger!(audit self, all)
    }
}

impl<J: Naming> Tokens<J> {
    /// Tokens of one part, of tokens that counted nothing.
    #[tactic(auto, unfolding(crate::specs::Tally::each))]
    pub(crate) fn split_off(&mut self) -> Tokens<J>
        requires parts { 0 < self.old.parts }
        requires none { self.old.tally ≡ each 0 }
        ensures one { result ≡ record { parts = 1; tally = each 0 } }
        ensures rest { self.new ≡ record { parts = self.old.parts - 1; tally = each 0 } }
    {
        each_ledger!(split_off self)
    }

    /// Takes other tokens in.
    #[tactic(auto, unfolding(crate::specs::Tally::plus))]
    pub(crate) fn merge(&mut self, other: Tokens<J>)
        ensures { self.new ≡ record {
          parts = self.old.parts + other.parts;
          tally = plus self.old.tally other.tally;
        } }
    {
        each_ledger!(merge self, other)
    }
}
