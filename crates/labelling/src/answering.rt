//! What a search answers.

ghost use Rattle.std.specs.Prelude.{◌≡◌, ◌≢◌, ℕ, ◌<◌, length, IfOk, IfErr, None};
ghost use Rattle.labelling.specs.Answer.{IsLeastOf};
ghost use Rattle.labels.specs.Arena.{label_in, trace, IsInList, IsAnswer};
ghost use Rattle.labelling.specs.Search.{pricing_in, LosesNothing};
ghost use Rattle.labelling.specs.declared.fault.LabelFault.TheVariants.{LabelLimit};

use crate::fault::LabelFault;
use crate::kept::Kept;
use crate::labeller::Labeller;
use crate::least_cost::Least;
use crate::route_ends::cheapest;
use labels::{Best, Label};
use std::alloc::{AllocError, Global};

/// A step takes about as long as this many units of work.
const WORK_OF_STEP: u64 = 4;

/// This many open steps, looked at before they are made, take about as long as one unit of work.
const SCANNED_OF_UNIT: u64 = 2;

/// The stops up to a label, by its parents.
fn route_to(alloc: Global, labels: &[Label], index: usize) -> Result<Vec<u16>, AllocError>
    requires index { index < length labels.now }
    requires parents { (m : ℕ) → m < length labels.now
        → (label_in labels.now m).parent < length labels.now }
    ensures { IfOk result (λ r. r.items ≡ trace labels.now (label_in labels.now index).stops
        (label_in labels.now index)) }
{
    let mut route = Vec::new(alloc);
    let mut label = labels[index];
    for taken in 0..label.stops {
        route.push(label.front.last)?;
        label = labels[label.parent];
    }
    route.as_mut_slice().reverse();
    Ok(route)
}

/// The answer for the best of a search.
fn answer(alloc: Global, labels: &[Label], best: Best) -> Result<Least, AllocError>
    requires index { IsInList labels.now best }
    requires parents { (m : ℕ) → m < length labels.now
        → (label_in labels.now m).parent < length labels.now }
    ensures { IfOk result (λ l. IsAnswer labels.now best l.value l.route.items) }
{
    match best.value {
        Some(value) => Ok(Least {
            value: Some(i128::from(value)),
            route: route_to(alloc, labels, best.index)?,
        }),
        None => Ok(Least {
            value: None,
            route: Vec::new(alloc),
        }),
    }
}

impl<'t, 'i> Labeller<'t, 'i> {
    /// How much work the search was: the steps taken, four times each, those that others spared, half of the open
    /// steps, the customers that bounds looked at, and how often a label looked at others.
    fn work(&self) -> u64 {
        let taken = self.taken.saturating_mul(WORK_OF_STEP);
        let left_out = self.spared.saturating_add(self.scanned / SCANNED_OF_UNIT);
        let steps = taken.saturating_add(left_out);
        let work = steps.saturating_add(self.completions.work());
        work.saturating_add(self.lookup.work())
    }

    /// Tells further routes that were met, the cheapest ones.
    fn tell(&self, kept: &mut Kept) -> Result<(), AllocError>
        requires { LosesNothing self.now }
    {
        let alloc = self.completions.task.alloc;
        let ends = self.cheap_ends()?;
        for end in &cheapest(alloc, ends.as_slice())? {
            if end.index < self.labels.len() && end.index != self.best.index {
                let route = route_to(alloc, self.labels.as_slice(), end.index)?;
                kept.met.push(route)?;
            }
        }
        Ok(())
    }

    /// Extends all labels, the most promising first, and answers the least reduced cost with its route.
    fn extend_all(&mut self, kept: &mut Kept) -> Result<Least, LabelFault>
        requires { LosesNothing self.old }
        ensures least { IfOk result (IsLeastOf (pricing_in self.old)) }
        ensures unlimited { IfErr result (λ e. e ≡ LabelLimit → self.old.limit ≢ None) }
    {
        self.dive_often()?;
        self.extend_by_time(usize::MAX)?;
        self.extend_rest()?;
        let alloc = self.completions.task.alloc;
        let least = answer(alloc, self.labels.as_slice(), self.best)?;
        self.tell(kept)?;
        Ok(least)
    }

    /// Extends all labels, answers the least reduced cost with its route, and hands on what serves later
    /// searches: where there were more labels than this many, the next one begins with bounds.
    pub(crate) fn finish(mut self, few: usize, kept: &mut Kept) -> Result<Least, LabelFault>
        requires { LosesNothing self }
        ensures least { IfOk result (IsLeastOf (pricing_in self.entry)) }
        ensures unlimited { IfErr result (λ e. e ≡ LabelLimit → self.entry.limit ≢ None) }
    {
        let found = self.extend_all(kept);
        kept.work = self.work();
        let Labeller { labels, lookup, .. } = self;
        kept.are_many = labels.len() > few;
        kept.lookup = Some(lookup);
        found
    }
}
