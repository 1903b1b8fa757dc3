//! What pricings hand on from one to the next, and how much work they were.
//!
//! No contract speaks of it: it is a rule of search, and any prices are sound.

use crate::ascent::Ascent;
use crate::child_start::ChildStart;
use crate::quick_way::QuickWay;
use crate::work::Work;
use fronts::Nearness;
use labelling::Kept;
use pooled_routes::Pseudocosts;
use set_finding::SetSearch;
use std::alloc::{AllocError, Global};

/// What pricings hand on from one to the next, whatever the leaf, beside the routes that they met.
#[derive(Drop)]
pub struct PricingState<'n> {
    /// Where lists stand.
    pub alloc: Global,
    /// The tables of the instance.
    pub nearness: &'n Nearness<'n>,
    /// What the last pricing handed on to the next one.
    pub kept: Kept,
    /// How an ascent by quick searches goes on, where one was made.
    pub quick: Option<QuickWay>,
    /// The search for sets, where one was made.
    set_search: Option<SetSearch<'n>>,
    /// The rises of merit that were seen.
    pub pseudocosts: Pseudocosts,
    work: Work,
}

impl<'n> PricingState<'n> {
    /// What the first pricing by these tables begins with. No contract: any prices are sound, whatever was handed on.
    pub fn new(alloc: Global, nearness: &'n Nearness<'n>) -> PricingState<'n> {
        PricingState {
            alloc,
            nearness,
            kept: Kept::nothing(alloc),
            quick: None,
            set_search: None,
            pseudocosts: Pseudocosts::new(alloc),
            work: Work::none(),
        }
    }

    /// How much work the pricings, the projections and the trials were: that of pricings, and
    /// some for a route that prices are projected onto. No contract: it only measures.
    pub fn work(&self) -> u64 {
        self.work.done
    }

    /// Whether pricings are dear beside all work: there will be few of them. No contract: it only measures.
    pub fn are_pricings_dear(&self) -> bool {
        self.work.is_dear()
    }

    /// Learns how much work there is to be in all. No contract: it only measures.
    pub fn expect(&mut self, work: u64) {
        self.work.worth = work;
    }

    /// The search for sets, which knows which are needed. `AllocError` where memory was refused.
    pub fn set_search(&mut self) -> Result<&mut SetSearch<'n>, AllocError> {
        if self.set_search.is_none() {
            self.set_search = Some(SetSearch::new(self.alloc, self.nearness.instance)?);
        }
        match &mut self.set_search {
            Some(search) => Ok(search),
            None => unreachable!(),
        }
    }

    /// Counts work.
    pub fn count_work(&mut self, work: u64) {
        self.work.count(work);
    }

    /// Counts the work of the last pricing.
    pub(crate) fn count_pricing(&mut self) {
        self.work.count_pricing(self.kept.work);
    }

    /// Learns from the ascent of a child how far its merit rose, where its value came to this many
    /// tenths. Where memory is refused, it doesn't.
    pub fn learn(&mut self, start: &ChildStart, ascent: &Ascent, value: i128) {
        let rise = ascent.rise_since(start.merit, value);
        let _ = self.pseudocosts.note(start.arc, start.child, rise);
    }
}
