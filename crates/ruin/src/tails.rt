//! Tails of two routes that change places (2-opt*; Potvin and Rousseau 1995).

use crate::drawing::below;
use crate::order::Removed;
use crate::plan::{Plan, Slot};
use crate::side::Stop;
use rand_core::Rng;

/// Of a thousand trials of a whole plan this many change tails, for each customer that a route has in the mean.
const TAILS: usize = 10;

/// At most this many of a thousand do.
const MOST_TAILS: usize = 300;

/// None does where routes have fewer customers than this in the mean.
const TAILS_FROM: usize = 12;

/// A trial that changes tails is judged as if it took this many more customers out.
pub(crate) const TAILS_CUSTOMERS: usize = 4;

/// Of the customers near the first one, one in this many is tried as the other.
const TRIED: usize = 3;

/// Fewer customers than this go out at the first seam where all would fit.
pub(crate) const OUT_AT_FIRST: usize = 3;

/// Fewer customers than this go out at the second seam where all would fit.
pub(crate) const OUT_AT_SECOND: usize = 4;

/// At most this many customers go out at a seam.
const MOST_OUT: usize = 40;

/// Where a stop stands.
#[derive(Clone, Copy)]
pub(crate) struct Place {
    pub(crate) slot: usize,
    pub(crate) position: usize,
}

/// Where a head of one route and a tail of another become a route.
#[derive(Clone, Copy)]
pub(crate) struct Seam {
    /// The last stop of the head.
    pub(crate) last: Place,
    /// The first stop of the tail.
    pub(crate) first: Place,
}

/// This many trials of a thousand change tails where routes have this many customers in the mean.
pub(crate) fn tails_of_thousand(mean: usize) -> usize {
    if mean < TAILS_FROM {
        return 0;
    }
    mean.saturating_mul(TAILS).min(MOST_TAILS)
}

impl Seam {
    /// A random seam, at which a customer and one near it become neighbours, in time; nothing where no such one is
    /// met.
    pub(crate) fn draw<R: Rng>(random: &mut R, plan: &Plan, customer: u16) -> Option<Seam> {
        let here = plan.place_of(customer)?;
        let is_first = below(random, 2) == 0;
        for near in plan.tables.nearest.get(usize::from(customer))? {
            let slot = plan.slot_of(*near);
            let is_apart = slot.is_some_and(|slot| slot != here.slot);
            if !is_apart || below(random, TRIED) > 0 {
                continue;
            }
            let there = plan.place_of(*near)?;
            let (last, first) = if is_first {
                (there, here)
            } else {
                (here, there)
            };
            let seam = Seam { last, first };
            if seam.is_in_time(plan) {
                return Some(seam);
            }
        }
        None
    }

    /// The stops of the head and of the tail.
    pub(crate) fn parts(self, slots: &[Slot]) -> Option<(&[Stop], &[Stop])> {
        let head = slots.get(self.last.slot)?.held.stops.as_slice();
        let tail = slots.get(self.first.slot)?.held.stops.as_slice();
        let end = self.last.position.saturating_add(1);
        Some((head.get(..end)?, tail.get(self.first.position..)?))
    }

    /// The load of both.
    fn load(self, plan: &Plan) -> Option<i32> {
        let (head, tail) = self.parts(plan.slots.as_slice())?;
        let load = plan.tables.load_of(head);
        Some(load.saturating_add(plan.tables.load_of(tail)))
    }

    /// Whether a vehicle can go on from the head to the tail, in time at all its stops.
    fn is_in_time(self, plan: &Plan) -> bool {
        match (plan.stop(self.last), plan.stop(self.first)) {
            (Some(last), Some(first)) => last.reaches(&plan.tables, first),
            _ => false,
        }
    }

    /// The other seam of the same two routes, where what is left of both becomes a route.
    pub(crate) fn other(self) -> Seam {
        let last = Place {
            slot: self.first.slot,
            position: self.first.position.saturating_sub(1),
        };
        let first = Place {
            slot: self.last.slot,
            position: self.last.position.saturating_add(1),
        };
        Seam { last, first }
    }

    /// The seam without the stop on one of its sides.
    fn without(self, is_last: bool) -> Seam {
        let mut seam = self;
        if is_last {
            seam.last.position = seam.last.position.saturating_sub(1);
        } else {
            seam.first.position = seam.first.position.saturating_add(1);
        }
        seam
    }

    /// The seam without this many customers, drawn from either side, and then without as many as it takes until
    /// load and times are right; they go out. Nothing where that is too many.
    pub(crate) fn take_out<R: Rng>(
        self,
        random: &mut R,
        plan: &Plan,
        least: usize,
        out: &mut Vec<Removed>,
    ) -> Option<Seam> {
        let mut seam = self;
        let mut load = seam.load(plan)?;
        for taken in 0..=MOST_OUT {
            let last = plan.stop(seam.last)?.customer;
            let first = plan.stop(seam.first)?.customer;
            let is_bare = last == 0 && first == 0;
            let fits = load <= plan.tables.capacity() && seam.is_in_time(plan);
            if fits && (is_bare || taken >= least) {
                return Some(seam);
            }
            if is_bare {
                return None;
            }
            // The depot stays on both sides.
            let is_last = last > 0 && (first == 0 || below(random, 2) == 0);
            let gone = if is_last { last } else { first };
            out.push(Removed::new(gone)).ok()?;
            load = load.saturating_sub(plan.tables.visit(gone).demand);
            seam = seam.without(is_last);
        }
        None
    }
}
