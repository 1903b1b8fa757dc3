//! A hub in memory: one leaf, and what was called.

use branching::Arc;
use desk::LookFault;
use incumbent_book::{BookFault, Gap, Offered};
use prices::Priced;
use schedule::Feasible;
use search_workers::{Gate, GatePoint, Hub};
use std::sync::atomic::{AtomicUsize, Ordering};
use tenths::Tenths;

/// A hub in memory, which counts calls and answers them as it was told.
#[derive(Drop)]
pub(crate) struct Fake<'l, 'i> {
    pub(crate) leaf: &'l Priced<'i>,
    pub(crate) offers: u32,
    /// How often prices were given, to a leaf or to both its children.
    pub(crate) raises: u32,
    /// From this offer on each is refused so.
    pub(crate) refusal: (u32, BookFault),
    /// How each split is refused, if it is.
    pub(crate) split_refusal: Option<BookFault>,
    /// Whether no number is a leaf's.
    pub(crate) is_bare: bool,
}

impl<'l, 'i> Fake<'l, 'i> {
    pub(crate) fn new(leaf: &'l Priced<'i>) -> Fake<'l, 'i> {
        Fake {
            leaf,
            offers: 0,
            raises: 0,
            refusal: (u32::MAX, BookFault::Memory),
            split_refusal: None,
            is_bare: false,
        }
    }
}

impl<'i> Hub<'i> for Fake<'_, 'i> {
    fn offer(
        &mut self,
        plan: Feasible<'i>,
    ) -> Result<(Offered<'i>, Gap), (Feasible<'i>, BookFault)> {
        self.offers = self.offers.saturating_add(1);
        let (first, fault) = self.refusal;
        if self.offers >= first {
            return Err((plan, fault));
        }
        let best = plan.cost();
        let gap = Gap {
            cost: Some(best),
            ..self.gap()
        };
        Ok((Offered::NotBetter { best, plan }, gap))
    }

    fn reprice(&mut self, _leaf: u32, _priced: Priced<'i>) -> Result<Gap, (Priced<'i>, BookFault)> {
        self.raises = self.raises.saturating_add(1);
        Ok(self.gap())
    }

    fn split(
        &mut self,
        _leaf: u32,
        _arc: Arc,
        used: Priced<'i>,
        unused: Priced<'i>,
    ) -> Result<((u32, u32), Gap), (Priced<'i>, Priced<'i>, BookFault)> {
        self.raises = self.raises.saturating_add(1);
        match self.split_refusal {
            Some(fault) => Err((used, unused, fault)),
            None => Ok(((1, 2), self.gap())),
        }
    }

    fn look(&mut self, _leaf: u32) -> Result<Priced<'i>, LookFault> {
        if self.is_bare {
            return Err(LookFault::NotALeaf);
        }
        self.leaf.try_clone().map_err(|_| LookFault::Memory)
    }

    fn gap(&mut self) -> Gap {
        Gap {
            cost: None,
            bound: Tenths::from(0u32),
        }
    }
}

/// How often points were passed.
#[derive(Default, Drop)]
pub(crate) struct Counts {
    pub(crate) offered: AtomicUsize,
    pub(crate) looked: AtomicUsize,
    pub(crate) stolen: AtomicUsize,
    pub(crate) ended: AtomicUsize,
}

impl Gate for Counts {
    fn pass(&self, _worker: u16, point: GatePoint) {
        let count = match point {
            GatePoint::Offered => &self.offered,
            GatePoint::Looked => &self.looked,
            GatePoint::Stolen => &self.stolen,
            GatePoint::End => &self.ended,
            _ => return,
        };
        count.fetch_add(1, Ordering::SeqCst);
    }
}
