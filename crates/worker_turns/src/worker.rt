//! One worker, and all that it reaches the others by.

ghost use Rattle.std.specs.Prelude.{◌≡◌, ◌≤◌, ◌-◌, ◌*◌, ◌↔◌, IsTrue, MatchOption};
ghost use Rattle.ceiling.specs.Seats.{IsSeatOf};

use crate::gate::{Gate, GatePoint};
use crate::hub::Hub;
use crate::leaves_left::LeavesLeft;
use crate::team::Team;
use crate::turn_fault::TurnFault;
use branching::Arc;
use ceiling::{Ceiling, CeilingSeat};
use incumbent_book::{Gap, Offered};
use prices::Priced;
use schedule::Feasible;
use solomon_reader::Instance;
use std::alloc::Global;
use tenths::Tenths;

/// One worker: its hub, the gate that it passes under its number, and its seat at the words for cost and
/// bound, which it moves as what it brings moves the book.
#[derive(Drop)]
pub struct Worker<'a, 'i, H, G> {
    /// Where its lists stand.
    pub alloc: Global,
    /// What is solved.
    pub instance: &'i Instance,
    /// The book, as it reaches it.
    pub hub: H,
    /// What it passes at the points of its turns.
    pub gate: &'a G,
    /// Its number, from 0.
    pub number: u16,
    /// The words for cost and bound.
    pub ceiling: &'a Ceiling,
    /// Its right to move them.
    pub seat: CeilingSeat,
    /// How many leaves all workers have left.
    pub left: &'a LeavesLeft,
    /// What all workers know of each other.
    pub team: &'a Team,
    /// No work is left once cost and bound are no further apart than this many tenths of a percent of the cost.
    pub enough: u32,
    pub ghost own: { IsSeatOf ceiling.now seat },
}

/// Whether a plan is known and the bound is no further below its cost than this many tenths of a percent of the
/// cost.
pub fn is_near(gap: &Gap, enough: u32) -> bool
    ensures { IsTrue result ↔ MatchOption gap.now.cost ⊥
        (λ cost. (cost - gap.now.bound) * 1000 ≤ cost * enough) }
{
    let Some(cost) = gap.cost else {
        return false;
    };
    let apart = cost.get().saturating_sub(gap.bound.get()) * 1_000;
    apart <= cost.get().saturating_mul(u64::from(enough))
}

impl<'i, H: Hub<'i>, G: Gate> Worker<'_, 'i, H, G> {
    /// Passes a point of a turn.
    pub(crate) fn pass(&self, point: GatePoint) {
        self.gate.pass(self.number, point);
    }

    /// The least cost known in tenths; where no plan is known one more than any costs.
    pub(crate) fn target(&mut self) -> u64
        ensures { self.new.ceiling ≡ self.old.ceiling }
    {
        self.ceiling.cost(&mut self.seat)
    }

    /// What the words know of the least cost.
    pub(crate) fn gap(&mut self) -> Gap
        ensures { self.new.ceiling ≡ self.old.ceiling }
    {
        let most = self.instance.ceiling().get();
        let cost = Tenths::new(self.target()).filter(|cost| cost.get() <= most);
        let bound = Tenths::new(self.ceiling.floor(&mut self.seat));
        Gap {
            cost,
            bound: bound.unwrap_or(Tenths::from(0)),
        }
    }

    /// Whether cost and bound have met, or are as near as is enough, or no leaf of the part is left, so that no work is.
    pub(crate) fn is_closed(&mut self) -> bool
        ensures { self.new.ceiling ≡ self.old.ceiling }
    {
        let (target, gap) = (self.target(), self.gap());
        self.left.are_gone() || target <= gap.bound.get() || is_near(&gap, self.enough)
    }

    /// Ends a turn.
    pub(crate) fn end_turn(&mut self)
        ensures { self.new.ceiling ≡ self.old.ceiling }
    {
        let gap = self.gap();
        self.gate.tell(&gap);
        self.pass(GatePoint::End);
    }

    /// Offers a plan, which the gate meets before. Answers whether it became the incumbent.
    pub(crate) fn offer(&mut self, plan: Feasible<'i>) -> Result<bool, TurnFault>
        ensures { self.new.ceiling ≡ self.old.ceiling }
    {
        self.gate.meet(&plan);
        match self.hub.offer(plan) {
            Ok((offered, gap)) => {
                self.move_words(gap);
                Ok(matches!(offered, Offered::Better { .. }))
            }
            Err((_, fault)) => Err(TurnFault::from(fault)),
        }
    }

    /// Moves the words to what the book has.
    fn move_words(&mut self, gap: Gap)
        ensures { self.new.ceiling ≡ self.old.ceiling }
    {
        if let Some(cost) = gap.cost {
            let _ = self.ceiling.offer(&mut self.seat, cost.get());
        }
        let _ = self.ceiling.raise(&mut self.seat, gap.bound.get());
    }

    /// Gives a leaf its higher prices.
    pub(crate) fn reprice(&mut self, leaf: u32, priced: Priced<'i>) -> Result<(), TurnFault>
        ensures { self.new.ceiling ≡ self.old.ceiling }
    {
        let gap = match self.hub.reprice(leaf, priced) {
            Ok(gap) => gap,
            Err((_, fault)) => return Err(TurnFault::from(fault)),
        };
        self.move_words(gap);
        Ok(())
    }

    /// Splits a leaf by an arc, and answers the numbers of the child that uses it and of the other.
    pub(crate) fn split(
        &mut self,
        leaf: u32,
        arc: Arc,
        used: Priced<'i>,
        unused: Priced<'i>,
    ) -> Result<(u32, u32), TurnFault>
        ensures { self.new.ceiling ≡ self.old.ceiling }
    {
        let (numbers, gap) = match self.hub.split(leaf, arc, used, unused) {
            Ok(made) => made,
            Err((_, _, fault)) => return Err(TurnFault::from(fault)),
        };
        self.move_words(gap);
        Ok(numbers)
    }
}
