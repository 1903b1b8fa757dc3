//! The order in which labels are extended.

ghost use Rattle.std.specs.Prelude.{◌≡◌, length, OnOk};
ghost use Rattle.labels.specs.Arena.{IsOnward, NonePending};
ghost use Rattle.labelling.specs.Search.{Continues, GoesOn, LosesNothing};

use crate::fault::LabelFault;
use crate::labeller::Labeller;
use crate::route_ends::RouteEnd;
use std::alloc::AllocError;

/// How often the search dives for a cheap route before it goes on by time.
const DIVES: usize = 10;

/// After this many slots of time the search looks how many routes it met that cost less than the known one, and
/// with more than this many it asks for cheaper ones.
const SLOTS_BETWEEN: usize = 100;

const ENOUGH_ENDS: usize = 40;

impl<'t, 'i> Labeller<'t, 'i> {
    /// The index of a pending label from an index on after which the least may follow, as far as the
    /// bounds tell.
    fn most_promising(&self, from: usize) -> Option<usize> {
        let mut promising = None;
        let mut least = i128::MAX;
        for index in from..self.labels.len() {
            let label = self.labels[index];
            let bound = self.completions.at(label.front.last, label.front.time);
            let value = i128::from(label.front.cost) + i128::from(bound.least);
            if label.active && !label.extended && value < least {
                promising = Some(index);
                least = value;
            }
        }
        promising
    }

    /// Extends the label at an index, then the most promising one of those that this adds, and so on: so
    /// that a cheap route is met early.
    fn dive(&mut self, index: usize) -> Result<(), LabelFault>
        requires { LosesNothing self.old }
        ensures { GoesOn self.old self.new result }
    {
        let mut next = Some(index);
        for _stop in 0..u16::MAX {
            let Some(index) = next else {
                break;
            };
            let count = self.labels.len();
            self.extend(index)?;
            next = self.most_promising(count);
        }
        Ok(())
    }

    /// Dives from the most promising labels, unless a route is known.
    pub(crate) fn dive_often(&mut self) -> Result<(), LabelFault>
        requires { LosesNothing self.old }
        ensures { GoesOn self.old self.new result }
    {
        for _dive in 0..DIVES {
            if self.cut != i64::MIN {
                break;
            }
            let Some(index) = self.most_promising(0) else {
                break;
            };
            self.dive(index)?;
        }
        Ok(())
    }

    /// What a route has to cost less than, in grains, so that it is told.
    fn most(&self) -> i64 {
        if self.cut == i64::MIN { 0 } else { self.cut }
    }

    /// Notes the end of the route after a pending label, which is about to be extended, if it is cheap.
    fn note_end(&mut self, index: usize) -> Result<(), AllocError>
        requires { LosesNothing self.old }
        ensures kept { Continues self.old self.new }
        ensures labels { self.new.labels ≡ self.old.labels }
    {
        if !self.is_pending(index) {
            return Ok(());
        }
        let label = self.labels[index];
        if let Some(value) = self.end_cost(&label)
            && value < self.most()
        {
            let last = label.front.last;
            self.ends.push(RouteEnd { value, last, index })?;
        }
        Ok(())
    }

    /// Extends the label at an index, if it is pending, and notes its end.
    fn extend(&mut self, index: usize) -> Result<(), LabelFault>
        requires { LosesNothing self.old }
        ensures on { GoesOn self.old self.new result }
        ensures onward { OnOk result (IsOnward self.old.labels.items self.new.labels.items index) }
    {
        self.note_end(index)?;
        self.extend_at(index)
    }

    /// The ends of routes that are to be told, the cheapest first.
    pub(crate) fn cheap_ends(&self) -> Result<Vec<RouteEnd>, AllocError> {
        let mut ends = self.ends.clone()?;
        let most = self.most();
        ends.retain(|end| end.value < most);
        ends.sort_by_key(|end| end.index)?;
        ends.sort_by_key(|end| end.value)?;
        Ok(ends)
    }

    /// Asks for cheaper routes alone, where more than enough were met that cost less than the known one.
    fn tighten(&mut self) -> Result<(), AllocError>
        requires { LosesNothing self.old }
        ensures { Continues self.old self.new }
    {
        if self.ends.len() <= ENOUGH_ENDS {
            return Ok(());
        }
        let ends = self.cheap_ends()?;
        if let Some(end) = ends.get(ENOUGH_ENDS)
            && self.cut > end.value
        {
            self.cut = end.value;
        }
        Ok(())
    }

    /// Extends the labels of a slot of time, until there are more than this many.
    fn extend_slot(&mut self, slot: usize, most: usize) -> Result<(), LabelFault>
        requires { LosesNothing self.old }
        ensures { GoesOn self.old self.new result }
    {
        for _label in 0..usize::MAX {
            if self.labels.len() > most {
                break;
            }
            let Some(index) = self.lookup.take(slot) else {
                break;
            };
            self.extend(index)?;
        }
        Ok(())
    }

    /// Extends the labels in the order of their times, until there are more than this many.
    pub(crate) fn extend_by_time(&mut self, most: usize) -> Result<(), LabelFault>
        requires { LosesNothing self.old }
        ensures { GoesOn self.old self.new result }
    {
        for slot in 0..self.lookup.slots() {
            self.extend_slot(slot, most)?;
            if slot % SLOTS_BETWEEN == 0 {
                self.tighten()?;
            }
        }
        Ok(())
    }

    /// Extends what is still pending: after the work by time nothing is, so that this makes sure alone.
    pub(crate) fn extend_rest(&mut self) -> Result<(), LabelFault>
        requires { LosesNothing self.old }
        ensures on { GoesOn self.old self.new result }
        ensures none { OnOk result (NonePending self.new.labels.items
            (length self.new.labels.items)) }
    {
        for index in 0..usize::MAX {
            if index >= self.labels.len() {
                break;
            }
            self.extend(index)?;
        }
        Ok(())
    }
}
