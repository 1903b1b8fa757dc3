//! A book behind a lock.

ghost use Rattle.std.specs.Prelude.{◌≡◌, ◌<◌, ◌↔◌, IfOk, IfErr, IsOk, vec_len};
ghost use Rattle.branching.specs.Arcs.{pair};
ghost use Rattle.desk.specs.Tally.{each, tally_of};
ghost use Rattle.desk.specs.Blanks.{names_of, parts_of};
ghost use Rattle.desk.specs.Account.{tally_of_shares};
ghost use Rattle.desk.specs.Replies.{Offers, Reprices, Splits, Tells, IsPricedFor};
ghost use Rattle.desk.specs.Opening.{WasOffered, IsDealt};
ghost use Rattle.incumbent_book.specs.Reaching.{IsReached};
ghost use Rattle.desk.specs.declared.fault.DeskFault.TheVariants.{Memory as memory, MissingShare as missing};

use crate::blanks::Blanks;
use crate::dealing::{count_all, deal, gather};
use crate::fault::{DeskFault, LookFault};
use crate::locked::Locked;
use crate::naming::Naming;
use crate::share::Share;
use crate::tokens::Totals;
use branching::Arc;
use incumbent_book::{Book, BookFault, Gap, Offered, Outcome};
use prices::Priced;
use schedule::Feasible;
use std::alloc::Global;
use std::marker::Model;
use std::sync::{Mutex, MutexGuard, Wait};

/// A book that several workers change, each with its share. Contracts see the number of shares.
#[derive(Drop)]
pub struct Desk<'i, J: Naming> {
    locked: Mutex<Locked<'i, J>>,
    workers: u16,
}

impl<'i, J: Naming> Model for Desk<'i, J> {
    ghost use Rattle.std.specs.Prelude.{◌≡◌, ◌<◌, ℕ};

    ghost Value = { ℕ };

    ghost view = { λ d. d.workers };

    ghost invariant = { λ d. (d.workers ≡ J.workers) × (0 < J.workers) };
}

impl<'i, J: Naming> Desk<'i, J> {
    /// A desk over a book, and a share for each worker, in the order of their numbers. The first
    /// share has counted the book's history. `Memory` where a growth was refused; then book and
    /// blanks come back.
    pub fn open(
        alloc: Global,
        book: Book<'i>,
        workers: u16,
        blanks: Blanks,
    ) -> Result<(Desk<'i, J>, Vec<Share<J>>), (Book<'i>, Blanks, DeskFault)>
        requires some { 0 < workers }
        requires problem { book.problem ≡ J.problem }
        requires neighbours { book.neighbours ≡ J.neighbours }
        requires sets { book.most_sets ≡ J.sets }
        requires rows { book.most_rows ≡ J.rows }
        requires offered { WasOffered J.opening_cost book.past }
        requires reached { IsReached J.opening_bound book }
        requires workers { workers ≡ J.workers }
        requires names { names_of blanks ≡ J.names }
        requires parts { parts_of blanks ≡ each J.workers }
        ensures shares { IfOk result (λ r. IsDealt book.entry workers r.1.items) }
        ensures count { IfOk result (λ r. vec_len r.1 ≡ workers) }
        ensures back { IfErr result (λ e. (e.0 ≡ book.entry) × (e.1 ≡ blanks) × (e.2 ≡ memory)) }
    {
        let Ok(shares) = Vec::with_capacity(alloc, usize::from(workers)) else {
            return Err((book, blanks, DeskFault::Memory));
        };
        let seen = book.gap();
        let (mut totals, mut rest) = Totals::<J>::open(blanks);
        let mut first = Share::new(0, rest.split_off(), &seen);
        count_all(&mut totals, &mut first, book.history());
        let desk = Desk {
            locked: Mutex::new(Locked::new(book, totals)),
            workers,
        };
        Ok((desk, deal(shares, first, rest, workers, &seen)))
    }

    /// The book under its lock, for as long as the answer stands: for calls that belong together. No contract: what is
    /// known of a book under a lock, its type says.
    pub fn lock<R: Wait>(&self, rt: &R) -> MutexGuard<'_, Locked<'i, J>> {
        self.locked.lock(rt)
    }

    /// Offers a worker's plan to the book, which takes it as its incumbent where it is cheaper than
    /// every earlier one. A refusal changes nothing and gives the plan back: `ForeignInstance`,
    /// `JournalFull`, or `Memory`.
    pub fn offer<R: Wait>(
        &self,
        rt: &R,
        mine: &mut Share<J>,
        plan: Feasible<'i>,
    ) -> Result<Offered<'i>, (Feasible<'i>, BookFault)>
        ensures { Offers J.problem mine.old plan.entry result mine.new }
    {
        self.locked.lock(rt).offer(mine, plan)
    }

    /// Gives a leaf of the book new prices of a higher value at its region. A refusal changes nothing
    /// and gives the prices back: `ForeignInstance`, `JournalFull`, `NotALeaf`, `WrongRegion`,
    /// `NotHigher`, `SetsFull`, `RowsFull`, or `Memory`.
    pub fn reprice<R: Wait>(
        &self,
        rt: &R,
        mine: &mut Share<J>,
        leaf: u32,
        priced: Priced<'i>,
    ) -> Result<(), (Priced<'i>, BookFault)>
        ensures { Reprices J.problem J.neighbours mine.old leaf priced.entry result mine.new }
    {
        self.locked.lock(rt).reprice(mine, leaf, priced)
    }

    /// Splits a leaf of the book by an arc, with prices of no lower value at both children, and
    /// answers their numbers, that of the used child first. A refusal changes nothing and gives the
    /// prices back: `ForeignInstance`, `JournalFull`, `NotALeaf`, `WrongRegion`, `Lower`,
    /// `LeavesFull`, `TooDeep`, `SetsFull`, `RowsFull`, or `Memory`.
    pub fn split<R: Wait>(
        &self,
        rt: &R,
        mine: &mut Share<J>,
        leaf: u32,
        arc: Arc,
        used: Priced<'i>,
        unused: Priced<'i>,
    ) -> Result<(u32, u32), (Priced<'i>, Priced<'i>, BookFault)>
        ensures { Splits J.problem J.neighbours mine.old leaf
            (pair arc) used.entry unused.entry result mine.new }
    {
        self.locked.lock(rt).split(mine, leaf, arc, used, unused)
    }

    /// The best cost offered, if anything was, and a bound that no plan's cost is below, both in
    /// tenths.
    pub fn gap<R: Wait>(&self, rt: &R, mine: &mut Share<J>) -> Gap
        ensures { Tells J.problem mine.old result.cost result.bound mine.new }
    {
        self.locked.lock(rt).gap(mine)
    }

    /// A copy of a leaf of the book, which no event tells of. `NotALeaf` where the number isn't that
    /// of a leaf, and `Memory`.
    pub fn look<R: Wait>(
        &self,
        rt: &R,
        mine: &mut Share<J>,
        leaf: u32,
    ) -> Result<Priced<'i>, LookFault>
        ensures of { IfOk result (λ f. IsPricedFor J.problem J.neighbours f) }
        ensures same { mine.new ≡ mine.old }
    {
        self.locked.lock(rt).look(leaf)
    }

    /// What the book leaves, once all shares are back: they counted its whole history.
    /// `MissingShare` where they aren't; then desk and shares come back.
    pub fn close(
        self,
        shares: Vec<Share<J>>,
    ) -> Result<Outcome<'i>, (Desk<'i, J>, Vec<Share<J>>, DeskFault)>
        ensures all { IsOk result ↔ (vec_len shares ≡ J.workers) }
        ensures counted { IfOk result (λ o. tally_of o.past ≡ tally_of_shares shares.items) }
        ensures problem { IfOk result (λ o. o.problem ≡ J.problem) }
        ensures neighbours { IfOk result (λ o. o.neighbours ≡ J.neighbours) }
        ensures sets { IfOk result (λ o. o.most_sets ≡ J.sets) }
        ensures rows { IfOk result (λ o. o.most_rows ≡ J.rows) }
        ensures offered { IfOk result (λ o. WasOffered J.opening_cost o.past) }
        ensures reached { IfOk result (IsReached J.opening_bound) }
        ensures back { IfErr result (λ e. (e.1 ≡ shares) × (e.2 ≡ missing)) }
    {
        if shares.len() != usize::from(self.workers) {
            return Err((self, shares, DeskFault::MissingShare));
        }
        let Desk { locked, workers: _ } = self;
        Ok(locked.into_inner().finish(gather(shares)))
    }
}
