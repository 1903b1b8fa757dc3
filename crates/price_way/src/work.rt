//! How much work pricings are.
//!
//! No contract speaks of it: it is a rule of search, and any prices are sound.

/// How many pricings count as the last ones.
const LAST_PRICINGS: u64 = 20;

/// Pricings are dear where the last ones took this part of all work, or more.
const DEAR_PART: u64 = 25;

/// How much work was done. A unit is a bound on what may follow at one customer, a label held against those of one
/// memory, or a step that others spare; a step from a label counts four, and so does a route that prices are
/// projected onto.
#[derive(Clone, Copy)]
pub(crate) struct Work {
    /// That of pricings, projections, trials and searches for sets.
    pub(crate) done: u64,
    /// That of the last pricings: each one lets a part of those before go.
    last: u64,
    /// What there is to be in all.
    pub(crate) worth: u64,
}

impl Work {
    /// None yet, of no end.
    pub(crate) fn none() -> Work {
        Work {
            done: 0,
            last: 0,
            worth: u64::MAX,
        }
    }

    /// Counts any work.
    pub(crate) fn count(&mut self, work: u64) {
        self.done = self.done.saturating_add(work);
    }

    /// Counts those of a pricing.
    pub(crate) fn count_pricing(&mut self, work: u64) {
        self.count(work);
        let gone = self.last / LAST_PRICINGS;
        self.last = self.last.saturating_sub(gone).saturating_add(work);
    }

    /// Whether pricings are dear beside all work: there will be few of them, and what spares some pays.
    pub(crate) fn is_dear(&self) -> bool {
        self.last.saturating_mul(DEAR_PART) >= self.worth
    }
}
