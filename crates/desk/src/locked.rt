//! What lies under the lock of a desk.

ghost use Rattle.std.specs.Prelude.{◌≡◌, IfOk, IfErr};
ghost use Rattle.solomon_reader.specs.History.{offered};
ghost use Rattle.branching.specs.Arcs.{pair};
ghost use Rattle.incumbent_book.specs.Contents.{event_of};
ghost use Rattle.desk.specs.Opening.{IsCounted};
ghost use Rattle.desk.specs.Replies.{Offers, Reprices, Splits, Tells, OffersAndTells, RepricesAndTells, SplitsAndTells, IsPricedFor, IsOfNow, GivesBack};

use crate::fault::LookFault;
use crate::naming::Naming;
use crate::share::Share;
use crate::tokens::{Tokens, Totals};
use branching::Arc;
use incumbent_book::{Book, BookFault, Event, Gap, Offered, Outcome};
use prices::Priced;
use schedule::Feasible;
use std::marker::Model;
use tenths::Tenths;

/// What lies under a desk's lock: the book, and what all shares together counted of its history. Contracts see what
/// the book has.
#[derive(Drop)]
pub struct Locked<'i, J: Naming> {
    book: Book<'i>,
    totals: Totals<J>,
}

impl<'i, J: Naming> Model for Locked<'i, J> {
    ghost use Rattle.incumbent_book.specs.Contents.{Contents};
    ghost use Rattle.desk.specs.Opening.{IsCounted};

    ghost Value = { Contents };

    ghost view = { λ l. l.book };

    ghost invariant = { λ l. IsCounted J.problem J.neighbours J.sets J.rows J.opening_cost J.opening_bound l.book l.totals };
}

/// The event of an accepted offer.
fn offer_of(worker: u16, cost: Tenths, better: bool) -> Event
    ensures { event_of result ≡ offered worker cost better }
{
    Event::Offered {
        worker,
        cost,
        better,
    }
}

impl<'i, J: Naming> Locked<'i, J> {
    /// A book whose history the totals have counted.
    pub(crate) fn new(book: Book<'i>, totals: Totals<J>) -> Locked<'i, J>
        requires { IsCounted J.problem J.neighbours J.sets J.rows J.opening_cost J.opening_bound book totals }
    {
        Locked { book, totals }
    }

    /// What the book leaves. The tokens of all shares together have counted its history.
    pub(crate) fn finish(self, mut all: Tokens<J>) -> Outcome<'i>
        requires { all.parts ≡ J.workers }
        ensures { IsCounted J.problem J.neighbours J.sets J.rows J.opening_cost J.opening_bound result all.tally }
    {
        let Locked { book, mut totals } = self;
        totals.audit(&mut all);
        book.finish()
    }

    /// Offers a plan to the book, and counts the event where it is accepted.
    pub(crate) fn offer(
        &mut self,
        mine: &mut Share<J>,
        plan: Feasible<'i>,
    ) -> Result<Offered<'i>, (Feasible<'i>, BookFault)>
        ensures { Offers J.problem mine.old plan.entry result mine.new }
    {
        let worker = mine.worker();
        let cost = plan.cost();
        match self.book.offer(worker, plan)? {
            Offered::Better { before } => {
                mine.count(&mut self.totals, &offer_of(worker, cost, true));
                mine.see_cost(cost);
                Ok(Offered::Better { before })
            }
            Offered::NotBetter { best, plan } => {
                mine.count(&mut self.totals, &offer_of(worker, cost, false));
                let least = mine.least_cost(best);
                mine.see_cost(least);
                Ok(Offered::NotBetter { best: least, plan })
            }
        }
    }

    /// Gives a leaf of the book new prices, and counts the event where they are accepted.
    pub(crate) fn reprice(
        &mut self,
        mine: &mut Share<J>,
        leaf: u32,
        priced: Priced<'i>,
    ) -> Result<(), (Priced<'i>, BookFault)>
        ensures { Reprices J.problem J.neighbours mine.old leaf priced.entry result mine.new }
    {
        let worker = mine.worker();
        let value = priced.tenths();
        self.book.reprice(worker, leaf, priced)?;
        let event = Event::Repriced {
            worker,
            leaf,
            value,
        };
        mine.count(&mut self.totals, &event);
        Ok(())
    }

    /// Splits a leaf of the book, and counts the event where it is accepted.
    pub(crate) fn split(
        &mut self,
        mine: &mut Share<J>,
        leaf: u32,
        arc: Arc,
        used: Priced<'i>,
        unused: Priced<'i>,
    ) -> Result<(u32, u32), (Priced<'i>, Priced<'i>, BookFault)>
        ensures { Splits J.problem J.neighbours mine.old leaf
            (pair arc) used.entry unused.entry result mine.new }
    {
        let worker = mine.worker();
        let values = (used.tenths(), unused.tenths());
        let made = self.book.split(worker, leaf, arc, used, unused)?;
        let event = Event::Split {
            worker,
            leaf,
            arc,
            used: made.0,
            unused: made.1,
            values,
        };
        mine.count(&mut self.totals, &event);
        Ok(made)
    }

    /// What `Desk::offer` does, and cost and bound as they stand then.
    pub fn offer_and_tell(
        &mut self,
        mine: &mut Share<J>,
        plan: Feasible<'i>,
    ) -> Result<(Offered<'i>, Gap), (Feasible<'i>, BookFault)>
        ensures tells { OffersAndTells J.problem mine.old plan.entry self.new result mine.new }
        ensures back { GivesBack plan.entry result }
    {
        let offered = self.offer(mine, plan)?;
        Ok((offered, self.gap(mine)))
    }

    /// What `Desk::reprice` does, and cost and bound as they stand then.
    pub fn reprice_and_tell(
        &mut self,
        mine: &mut Share<J>,
        leaf: u32,
        priced: Priced<'i>,
    ) -> Result<Gap, (Priced<'i>, BookFault)>
        ensures tells { RepricesAndTells J.problem J.neighbours mine.old leaf priced.entry self.new result mine.new }
        ensures back { IfErr result (λ e. e.0 ≡ priced.entry) }
    {
        self.reprice(mine, leaf, priced)?;
        Ok(self.gap(mine))
    }

    /// What `Desk::split` does, and cost and bound as they stand then.
    pub fn split_and_tell(
        &mut self,
        mine: &mut Share<J>,
        leaf: u32,
        arc: Arc,
        used: Priced<'i>,
        unused: Priced<'i>,
    ) -> Result<((u32, u32), Gap), (Priced<'i>, Priced<'i>, BookFault)>
        ensures tells { SplitsAndTells J.problem J.neighbours mine.old leaf
            (pair arc) used.entry unused.entry self.new result mine.new }
        ensures back { IfErr result (λ e. (e.0 ≡ used.entry) × (e.1 ≡ unused.entry)) }
    {
        let made = self.split(mine, leaf, arc, used, unused)?;
        Ok((made, self.gap(mine)))
    }

    /// The best cost and the bound of the book, as it stands.
    pub fn gap(&self, mine: &mut Share<J>) -> Gap
        ensures told { Tells J.problem mine.old result.cost result.bound mine.new }
        ensures now { IsOfNow self.now result }
    {
        let gap = self.book.gap();
        if let Some(cost) = gap.cost {
            mine.see_cost(cost);
        }
        mine.see_bound(gap.bound);
        mine.seen()
    }

    /// A copy of a leaf of the book.
    pub fn look(&self, leaf: u32) -> Result<Priced<'i>, LookFault>
        ensures { IfOk result (λ f. IsPricedFor J.problem J.neighbours f) }
    {
        let Some(priced) = self.book.leaf(leaf) else {
            return Err(LookFault::NotALeaf);
        };
        match priced.try_clone() {
            Ok(copy) => Ok(copy),
            Err(_) => Err(LookFault::Memory),
        }
    }
}
