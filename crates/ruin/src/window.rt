//! Strings of stops that are taken out of a route.

use crate::drawing::below;
use crate::order::Removed;
use crate::side::Stop;
use rand_core::Rng;

/// A string leaves a middle of one stop, or more: one more each time with this many tenths of chance.
const KEPT_TENTHS: usize = 9;

/// A string of stops, of which a middle stays.
#[derive(Clone, Copy)]
pub(crate) struct Window {
    /// The position of the first stop.
    first: usize,
    /// How many stops it covers.
    size: usize,
    /// The position of the first stop that stays.
    middle: usize,
    /// How many stops stay.
    kept: usize,
}

/// How many stops stay in the middle of a string that takes this many of a route's customers.
fn draw_kept<R: Rng>(random: &mut R, customers: usize, taken: usize) -> usize {
    if taken <= 1 {
        return 0;
    }
    let most = customers.saturating_sub(taken);
    for kept in 1..most {
        if below(random, 10) >= KEPT_TENTHS {
            return kept;
        }
    }
    most
}

impl Window {
    /// A random string around a customer of a route that takes at most this many; all where there is no limit.
    pub(crate) fn around<R: Rng>(
        random: &mut R,
        stops: &[Stop],
        customer: u16,
        longest: Option<usize>,
    ) -> Window {
        let customers = stops.len().saturating_sub(2);
        let taken = match longest {
            Some(longest) => below(random, longest.min(customers)).saturating_add(1),
            None => customers,
        };
        let kept = draw_kept(random, customers, taken);
        let size = taken.saturating_add(kept);
        let position = stops.iter().position(|stop| stop.customer == customer);
        let position = position.unwrap_or(1);
        let lowest = position.saturating_add(1).saturating_sub(size).max(1);
        let highest = customers
            .saturating_add(1)
            .saturating_sub(size)
            .min(position);
        let span = highest.saturating_add(1).saturating_sub(lowest);
        let first = lowest.saturating_add(below(random, span));
        let before = below(random, taken.saturating_sub(1)).saturating_add(1);
        Window {
            first,
            size,
            middle: first.saturating_add(before),
            kept,
        }
    }

    /// Adds the customers that are taken out to others.
    pub(crate) fn take(self, stops: &[Stop], out: &mut Vec<Removed>) {
        for (position, stop) in stops.iter().enumerate() {
            if self.takes(position) {
                let _ = out.push(Removed::new(stop.customer));
            }
        }
    }

    /// Whether the stop at a position is taken out.
    pub(crate) fn takes(self, position: usize) -> bool {
        let is_covered = position >= self.first && position - self.first < self.size;
        let stays = position >= self.middle && position - self.middle < self.kept;
        is_covered && !stays
    }
}
