//! What one worker did at a desk.

ghost use Rattle.std.specs.Prelude.{◌≡◌, ◌≤◌, Some, max};
ghost use Rattle.solomon_reader.specs.Duality.{IsBelowPlans, IsPlanCost};
ghost use Rattle.incumbent_book.specs.Contents.{event_of};
ghost use Rattle.desk.specs.Tally.{plus, tally_of_event};
ghost use Rattle.desk.specs.Account.{IsAtMost, IsSeen, lesser_of, with_event};

use crate::naming::Naming;
use crate::tokens::{Tokens, Totals};
use incumbent_book::{Event, Gap};
use std::marker::Model;
use tenths::Tenths;

/// What one worker did at a desk, and the least cost and the greatest bound that it saw. Contracts
/// see its number, its ten counts and sums, the cost and the bound. The counts and sums stand in
/// proofs alone.
#[derive(Drop)]
pub struct Share<J: Naming> {
    worker: u16,
    tokens: Tokens<J>,
    cost: Option<Tenths>,
    bound: Tenths,
}

impl<J: Naming> Model for Share<J> {
    ghost use Rattle.std.specs.Prelude.{◌≡◌};
    ghost use Rattle.desk.specs.Account.{Account, IsSeen};

    ghost Value = { Account };

    ghost view = { λ s. record {
      worker = s.worker;
      tally = s.tokens.tally;
      cost = s.cost;
      bound = s.bound;
    } };

    ghost invariant = { λ s. (s.tokens.parts ≡ 1) × IsSeen J.problem s.cost s.bound };
}

impl<J: Naming> Share<J> {
    /// The share of a worker that saw this much.
    pub(crate) fn new(worker: u16, tokens: Tokens<J>, seen: &Gap) -> Share<J>
        requires part { tokens.parts ≡ 1 }
        requires seen { IsSeen J.problem seen.now.cost seen.now.bound }
        ensures { result ≡ record {
          worker = worker;
          tally = tokens.tally;
          cost = seen.now.cost;
          bound = seen.now.bound;
        } }
    {
        Share {
            worker,
            tokens,
            cost: seen.cost,
            bound: seen.bound,
        }
    }

    /// The worker's number, from 0.
    pub fn worker(&self) -> u16
        ensures { result ≡ self.now.worker }
    {
        self.worker
    }

    /// The least cost that the worker saw, which is a plan's, if it saw one, and the greatest bound,
    /// which no plan's cost is below, both in tenths.
    pub fn seen(&self) -> Gap
        ensures cost { result.cost ≡ self.now.cost }
        ensures bound { result.bound ≡ self.now.bound }
        ensures seen { IsSeen J.problem self.now.cost self.now.bound }
    {
        Gap {
            cost: self.cost,
            bound: self.bound,
        }
    }

    /// Counts an event.
    pub(crate) fn count(&mut self, totals: &mut Totals<J>, event: &Event)
        ensures totals { totals.new ≡ plus totals.old (tally_of_event (event_of event.now)) }
        ensures counted { self.new ≡ with_event self.old (event_of event.now) }
    {
        totals.count(&mut self.tokens, event);
    }

    /// The lesser of a plan's cost and the one seen. A book's best cost is that cost itself, since
    /// it never rises.
    pub(crate) fn least_cost(&self, cost: Tenths) -> Tenths
        requires { IsPlanCost J.problem cost }
        ensures of_plan { IsPlanCost J.problem result }
        ensures bound { result ≤ cost }
        ensures seen { IsAtMost result self.now.cost }
        ensures least { lesser_of self.now.cost cost ≡ Some result }
    {
        match self.cost {
            Some(seen) if seen.get() < cost.get() => seen,
            _ => cost,
        }
    }

    /// Notes a plan's cost.
    pub(crate) fn see_cost(&mut self, cost: Tenths)
        requires { IsPlanCost J.problem cost }
        ensures { self.new ≡ record {
          worker = self.old.worker;
          tally = self.old.tally;
          cost = lesser_of self.old.cost cost;
          bound = self.old.bound;
        } }
    {
        self.cost = Some(self.least_cost(cost));
    }

    /// Notes a bound that no plan's cost is below. A book's bound is the greatest seen, since it
    /// never falls.
    pub(crate) fn see_bound(&mut self, bound: Tenths)
        requires { IsBelowPlans J.problem bound }
        ensures { self.new ≡ record {
          worker = self.old.worker;
          tally = self.old.tally;
          cost = self.old.cost;
          bound = max self.old.bound bound;
        } }
    {
        if self.bound.get() < bound.get() {
            self.bound = bound;
        }
    }

    /// The tokens of what was counted.
    pub(crate) fn into_tokens(self) -> Tokens<J>
        ensures { result ≡ record { parts = 1; tally = self.tally } }
    {
        self.tokens
    }
}
