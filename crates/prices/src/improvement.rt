//! Steps of the prices, one after the other.

ghost use Rattle.std.specs.Prelude.{◌≡◌, IfOk, IfErr};
ghost use Rattle.prices.specs.Improvements.{last_of, IsOneOn};

use crate::priced::Priced;
use crate::stepping::step_from;
use std::alloc::Global;

/// The best prices of an improvement, and its last ones where they are others.
#[derive(Drop)]
pub(crate) struct Improvement<'i> {
    best: Priced<'i>,
    last: Option<Priced<'i>>,
}

impl<'i> Improvement<'i> {
    /// The improvement that has made no step.
    pub(crate) fn new(priced: Priced<'i>) -> Improvement<'i>
        ensures best { result.best ≡ priced.entry }
        ensures last { last_of result ≡ priced.entry }
    {
        Improvement {
            best: priced,
            last: None,
        }
    }

    /// The prices that the improvement has come to.
    fn last(&self) -> &Priced<'i>
        ensures { result.now ≡ last_of self.now }
    {
        match &self.last {
            Some(last) => last,
            None => &self.best,
        }
    }

    /// The best prices of the improvement.
    pub(crate) fn into_best(self) -> Priced<'i>
        ensures { result ≡ self.entry.best }
    {
        self.best
    }

    /// The improvement after one more step of this many grains, or its best prices where memory or labels
    /// ran out. Of equal values the first stays the best.
    pub(crate) fn step(
        self,
        alloc: Global,
        step: i64,
        limit: Option<usize>,
    ) -> Result<Improvement<'i>, Priced<'i>>
        ensures one_on { IfOk result (λ a. IsOneOn self.entry step a) }
        ensures best { IfErr result (λ f. f ≡ self.entry.best) }
    {
        let next = match step_from(alloc, self.last(), step, limit) {
            Ok(next) => next,
            Err(_) => return Err(self.best),
        };
        if next.value() > self.best.value() {
            Ok(Improvement {
                best: next,
                last: None,
            })
        } else {
            Ok(Improvement {
                best: self.best,
                last: Some(next),
            })
        }
    }
}
