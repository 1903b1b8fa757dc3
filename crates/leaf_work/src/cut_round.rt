//! Rounds of cuts: sets that the routes of the pool, weighted, enter less often than they need, and behind them rows of
//! three customers by which they are charged more often than a plan can be.
//!
//! No contract speaks of when: it is a rule of search, any set that is needed may have a price, and so may any row.

use price_way::{Ascent, Goal, PricingState, RoutePool};
use prices::Priced;
use row_finding::find_rows;
use std::alloc::AllocError;

/// Cuts are looked for at least so many pricings after each other.
const PRICINGS_BETWEEN: u32 = 5;

/// They are looked for where a trial promised less than this part of the merit: before, flows say little.
const PART_OF_MERIT: i128 = 200;

/// The most sets of a round.
const SETS_OF_ROUND: usize = 5;

/// The most rows of a round.
const ROWS_OF_ROUND: usize = 30;

/// No more rows are looked for where so many have a price: each is a bit of the labels.
const MOST_PRICED_ROWS: usize = 250;

/// The same where pricings are dear.
const MOST_DEAR_ROWS: usize = 60;

/// When cuts are looked for in an ascent.
#[derive(Drop)]
pub(crate) struct CutRounds {
    /// The most sets and the most rows that the worker may find in all; none below the root.
    most_sets: usize,
    most_rows: usize,
    /// How many pricings there were since.
    since: u32,
    /// How many were added.
    pub(crate) added: usize,
}

impl CutRounds {
    /// The rounds of an ascent at a leaf.
    pub(crate) fn new(leaf: &Priced<'_>, goal: &Goal) -> CutRounds {
        let is_root = leaf.region().is_root();
        CutRounds {
            most_sets: if is_root { goal.sets } else { 0 },
            most_rows: if is_root { goal.rows } else { 0 },
            since: 0,
            added: 0,
        }
    }

    /// Looks for cuts before a pricing, where some were made and the last trial promised little.
    pub(crate) fn before_pricing(
        &mut self,
        pool: &mut RoutePool,
        state: &mut PricingState<'_>,
        ascent: &mut Ascent,
    ) -> Result<(), AllocError> {
        self.since = self.since.saturating_add(1);
        let is_near = ascent.promise() <= ascent.centre.merit / PART_OF_MERIT;
        if self.since > PRICINGS_BETWEEN && is_near {
            self.add(pool, state, ascent)?;
        }
        Ok(())
    }

    /// Looks for cuts after the last pricing.
    pub(crate) fn at_end(
        &mut self,
        pool: &mut RoutePool,
        state: &mut PricingState<'_>,
        ascent: &mut Ascent,
    ) -> Result<(), AllocError> {
        if self.since > 1 {
            self.add(pool, state, ascent)?;
        }
        Ok(())
    }

    /// Looks for sets, and where there are none for rows, and adds what it finds.
    fn add(
        &mut self,
        pool: &mut RoutePool,
        state: &mut PricingState<'_>,
        ascent: &mut Ascent,
    ) -> Result<(), AllocError> {
        self.since = 0;
        let mut added = self.add_sets(pool, state)?;
        if added == 0 {
            added = self.add_rows(pool, state, ascent)?;
        }
        if added > 0 {
            ascent.take_cuts(pool)?;
            self.added = self.added.saturating_add(added);
        }
        Ok(())
    }

    /// Adds sets of which more is lacking than a twentieth of a route to the pool, and answers how many.
    fn add_sets(
        &self,
        pool: &mut RoutePool,
        state: &mut PricingState<'_>,
    ) -> Result<usize, AllocError> {
        let left = self.most_sets.saturating_sub(pool.cuts.found_sets());
        if left == 0 {
            return Ok(0);
        }
        let (arcs, known) = (pool.flows()?, pool.cuts.members(true)?);
        let search = state.set_search()?;
        let most = left.min(SETS_OF_ROUND);
        let found = search.find(arcs.as_slice(), pool.rise(), known.as_slice(), most)?;
        state.count_work(found.work);
        pool.add_sets(state.nearness.instance, found.sets.as_slice())?;
        Ok(found.sets.len())
    }

    /// How many more rows may be found.
    fn rows_left(&self, pool: &RoutePool, state: &PricingState<'_>, ascent: &Ascent) -> usize {
        let most_priced = if state.are_pricings_dear() {
            MOST_DEAR_ROWS
        } else {
            MOST_PRICED_ROWS
        };
        let room = most_priced.saturating_sub(ascent.priced_rows());
        let left = self.most_rows.saturating_sub(pool.cuts.found_rows());
        left.min(room).min(ROWS_OF_ROUND)
    }

    /// Adds rows by which routes are charged too often, by more than a twentieth of a route, to the pool, and answers how
    /// many.
    fn add_rows(
        &self,
        pool: &mut RoutePool,
        state: &mut PricingState<'_>,
        ascent: &Ascent,
    ) -> Result<usize, AllocError> {
        let most = self.rows_left(pool, state, ascent);
        if most == 0 {
            return Ok(0);
        }
        let (alloc, known) = (state.alloc, pool.cuts.members(false)?);
        let found = find_rows(
            alloc,
            state.nearness,
            pool.weighted()?.as_slice(),
            pool.rise(),
            known.as_slice(),
            most,
        )?;
        state.count_work(found.work);
        let rows = found.rows.iter().map(|row| row.members);
        let rows: Vec<[u16; 3]> = rows.collect(alloc)?;
        pool.add_rows(state.nearness, rows.as_slice())?;
        Ok(rows.len())
    }
}
