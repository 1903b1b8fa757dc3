//! Calls that are accepted, unless memory is refused.

ghost use Rattle.std.specs.Prelude.{◌≡◌, ◌<◌, ◌≤◌, ◌∷◌, Some, MatchOption, IfErr, OnOk, OnErr, vec_len, length};
ghost use Rattle.std.specs.Vec.{vec_capacity};
ghost use Rattle.branching.specs.Arcs.{pair};
ghost use Rattle.solomon_reader.specs.History.{IsBestCost, IsCheaper};
ghost use Rattle.incumbent_book.specs.Contents.{event_of, past_of};
ghost use Rattle.incumbent_book.specs.Faults.{IsAccepted, reprice, split};
ghost use Rattle.incumbent_book.specs.Replies.{Offers, Reprices, Splits, with_offer, with_incumbent};

use crate::book::Book;
use crate::event::Event;
use crate::fault::BookFault;
use crate::growing::list_all;
use crate::offered::Offered;
use crate::room::{make_room, put};
use crate::wanted::Wanted;
use branching::Arc;
use prices::Priced;
use schedule::Feasible;
use std::alloc::AllocError;
use tenths::Tenths;

/// Adds an event, for which there is room.
fn write(history: &mut Vec<Event>, event: Event)
    requires { vec_len history.old < vec_capacity history.old }
    ensures { past_of history.new.items ≡ event_of event ∷ past_of history.old.items }
{
    put(history, event);
}

impl<'i> Book<'i> {
    /// Takes an offer or refuses it.
    pub(crate) fn answer(
        &mut self,
        worker: u16,
        plan: Feasible<'i>,
    ) -> Result<Offered<'i>, (Feasible<'i>, BookFault)>
        ensures { Offers self.old worker plan.entry result self.new }
    {
        if let Some(fault) = self.offer_fault(&plan) {
            return Err((plan, fault));
        }
        let cost = plan.cost();
        if let Some(best) = self.best_within(cost) {
            return match self.keep(worker, cost) {
                Ok(()) => Ok(Offered::NotBetter { best, plan }),
                Err(_) => Err((plan, BookFault::Memory)),
            };
        }
        let before = self.best();
        match self.replace(worker, plan) {
            Ok(()) => Ok(Offered::Better { before }),
            Err(plan) => Err((plan, BookFault::Memory)),
        }
    }

    /// Takes an offer that isn't cheaper than the incumbent.
    fn keep(&mut self, worker: u16, cost: Tenths) -> Result<(), AllocError>
        requires room { length self.old.past < self.old.limits.events }
        requires dearer { ¬ IsCheaper self.old.past cost }
        ensures ok { OnOk result (self.new ≡ with_offer self.old worker cost) }
        ensures err { OnErr result (self.new ≡ self.old) }
    {
        make_room(&mut self.history, 1)?;
        let event = Event::Offered {
            worker,
            cost,
            better: false,
        };
        write(&mut self.history, event);
        Ok(())
    }

    /// Takes a plan that is cheaper than the incumbent in its place, or gives it back where memory
    /// was refused.
    fn replace(&mut self, worker: u16, plan: Feasible<'i>) -> Result<(), Feasible<'i>>
        requires room { length self.old.past < self.old.limits.events }
        requires same { plan.problem ≡ self.old.problem }
        requires cheaper { IsCheaper self.old.past plan.cost }
        ensures ok { OnOk result (self.new ≡ with_incumbent self.old worker plan.entry) }
        ensures err { IfErr result (λ returned. (returned ≡ plan.entry) × (self.new ≡ self.old)) }
    {
        if make_room(&mut self.history, 1).is_err() {
            return Err(plan);
        }
        let event = Event::Offered {
            worker,
            cost: plan.cost(),
            better: true,
        };
        write(&mut self.history, event);
        self.incumbent = Some(plan);
        Ok(())
    }

    /// The best cost offered, if it is at most this one.
    fn best_within(&self, cost: Tenths) -> Option<Tenths>
        ensures { MatchOption result (IsCheaper self.now.past cost)
            (λ best. IsBestCost self.now.past (Some best) × (best ≤ cost)) }
    {
        match self.best() {
            None => None,
            Some(best) => {
                if best.get() <= cost.get() {
                    Some(best)
                } else {
                    None
                }
            }
        }
    }

    /// The best cost offered, in tenths, or none if nothing was.
    pub(crate) fn best(&self) -> Option<Tenths>
        ensures { IsBestCost self.now.past result }
    {
        Some(self.incumbent.as_ref()?.cost())
    }

    /// Gives a leaf new prices that are accepted, unless memory or room for sets or rows is refused.
    pub(crate) fn raise(
        &mut self,
        worker: u16,
        leaf: u32,
        priced: Priced<'i>,
    ) -> Result<(), (Priced<'i>, BookFault)>
        requires { IsAccepted self.old (reprice leaf priced) }
        ensures { Reprices self.old worker leaf priced.entry result self.new }
    {
        if make_room(&mut self.history, 1).is_err() {
            return Err((priced, BookFault::Memory));
        }
        let before = self.listed.len();
        let (rows, wanted) = (self.rows.as_slice(), Wanted::of(&priced));
        let rows = match list_all(&mut self.listed, rows, self.most, wanted, Wanted::none()) {
            Ok(rows) => rows,
            Err(fault) => return Err((priced, fault)),
        };
        let value = priced.tenths();
        match self.arena.reprice(leaf, priced) {
            Ok(()) => {
                let event = Event::Repriced {
                    worker,
                    leaf,
                    value,
                };
                self.rows = rows;
                write(&mut self.history, event);
                Ok(())
            }
            Err(priced) => {
                self.listed.truncate(before);
                Err((priced, BookFault::Memory))
            }
        }
    }

    /// Splits a leaf by an arc where that is accepted, unless memory or room for sets or rows is refused.
    pub(crate) fn take_split(
        &mut self,
        worker: u16,
        leaf: u32,
        arc: Arc,
        used: Priced<'i>,
        unused: Priced<'i>,
    ) -> Result<(u32, u32), (Priced<'i>, Priced<'i>, BookFault)>
        requires { IsAccepted self.old (split leaf (pair arc) used unused) }
        ensures { Splits self.old worker leaf (pair arc) used.entry unused.entry result self.new }
    {
        if make_room(&mut self.history, 1).is_err() {
            return Err((used, unused, BookFault::Memory));
        }
        let before = self.listed.len();
        let (first, second) = (Wanted::of(&used), Wanted::of(&unused));
        let rows = self.rows.as_slice();
        let rows = match list_all(&mut self.listed, rows, self.most, first, second) {
            Ok(rows) => rows,
            Err(fault) => return Err((used, unused, fault)),
        };
        let values = (used.tenths(), unused.tenths());
        match self.arena.split(leaf, arc, used, unused) {
            Ok(made) => {
                let event = Event::Split {
                    worker,
                    leaf,
                    arc,
                    used: made.0,
                    unused: made.1,
                    values,
                };
                self.rows = rows;
                write(&mut self.history, event);
                Ok(made)
            }
            Err((used, unused)) => {
                self.listed.truncate(before);
                Err((used, unused, BookFault::Memory))
            }
        }
    }
}
