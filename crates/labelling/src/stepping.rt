//! Steps from labels.

ghost use Rattle.std.specs.Prelude.{◌≡◌, ◌<◌, length, OnOk, IfOk, IsTrue, IsFalse};
ghost use Rattle.solomon_reader.specs.States.{CanStep};
ghost use Rattle.labels.specs.Arena.{label_in, state_at, IsArena, CountsEnd, IsPending, IsOnward, IsSparedStep};
ghost use Rattle.fronts.specs.Fronts.{IsBounded};
ghost use Rattle.fronts.specs.Steps.{IsOpenStep};
ghost use Rattle.labelling.specs.Search.{pricing_in, IsSameTask, KeepsBest, GoesOn, StandsAt, TakesStepTo, TakesEachStep, EndsFor, LosesNothing};
ghost use Rattle.labels.specs.Cover.{IsStepDear};
ghost use Rattle.labels.specs.Sparing.{IsSparing};
ghost use Rattle.std.specs.List.{All};
ghost use Rattle.completions.specs.Completions.{AreVisitBounds};

use crate::fault::LabelFault;
use crate::labeller::{Labeller, is_at_most};
use fronts::{Memory, Step};
use labels::{Best, Label};
use std::alloc::AllocError;

/// With no more steps a label than this many it doesn't pay to look for those that others spare.
const FEW_STEPS: u64 = 40;

impl<'t, 'i> Labeller<'t, 'i> {
    /// Takes a step from the label at an index that a route may take, if it may cost less than the best.
    #[inline(never)]
    fn go_on(
        &mut self,
        label: &Label,
        index: usize,
        best: Option<i64>,
        step: &Step,
    ) -> Result<(), LabelFault>
        requires labels { IsArena (pricing_in self.old) self.old.labels.items }
        requires index { StandsAt self.old.labels.items index label.now }
        requires step { IsOpenStep (pricing_in self.old) label.now.front.last step.now }
        requires can { CanStep (pricing_in self.old)
            (state_at (pricing_in self.old) label.now) step.now.customer }
        ensures stepped { OnOk result (TakesStepTo self.old self.new best label.now step.now.customer) }
        ensures kept { KeepsBest self.old self.new result }
    {
        let task = self.completions.task;
        self.taken = self.taken.saturating_add(1);
        let front = task.charged_after(&label.front, label.bits, step);
        let bound = self.completions.at(front.last, front.time);
        if self.is_passed(&front, &bound, best) {
            return Ok(());
        }
        if self.is_passed_by_load(&front, best) {
            return Ok(());
        }
        let newer = label.extend(task, index, front, step.customer);
        self.add_label(&newer, u32::from(bound.room))?;
        Ok(())
    }

    /// Takes a step from the label at an index, if a route may take it and cost less than the best.
    #[inline(always)]
    pub(crate) fn take_step(
        &mut self,
        label: &Label,
        index: usize,
        best: Option<i64>,
        step: &Step,
    ) -> Result<(), LabelFault>
        requires labels { IsArena (pricing_in self.old) self.old.labels.items }
        requires index { StandsAt self.old.labels.items index label.now }
        requires step { IsOpenStep (pricing_in self.old) label.now.front.last step.now }
        ensures stepped { OnOk result (TakesStepTo self.old self.new best label.now step.now.customer) }
        ensures kept { KeepsBest self.old self.new result }
    {
        let task = self.completions.task;
        if !task.can_take(&label.front, label.memory, step) {
            return Ok(());
        }
        self.go_on(label, index, best, step)
    }

    /// Whether nothing that may come after a step from a label costs less than the best, as far as it is known what
    /// follows on a visit of each row that ends when the label does or later.
    #[inline(always)]
    fn is_step_passed(&self, label: &Label, best: Option<i64>, step: &Step, leasts: &[i64]) -> bool
        requires bounded { IsBounded (pricing_in self.now).problem label.now.front }
        requires step { IsOpenStep (pricing_in self.now) label.now.front.last step.now }
        requires leasts { AreVisitBounds (pricing_in self.now) label.now.front.time leasts.now }
        ensures { let q = pricing_in self.now in
            IsTrue result → IsStepDear q best (state_at q label.now) step.now.customer }
    {
        let row = usize::from(step.customer);
        if row >= leasts.len() {
            return false;
        }
        let value = label.front.cost + step.cost + leasts[row];
        value >= self.cut && is_at_most(best, value)
    }

    /// Whether one of some memories spares a label a step: on the way all is forgotten that it has beside what the
    /// label remembers.
    #[inline(always)]
    fn is_spared(&self, label: &Label, step: &Step, memories: &[Memory]) -> bool
        requires bounded { IsBounded (pricing_in self.now).problem label.now.front }
        requires step { IsOpenStep (pricing_in self.now) label.now.front.last step.now }
        requires memories { All (IsSparing (pricing_in self.now) self.now.labels.items label.now)
            memories.now }
        ensures { let q = pricing_in self.now in
            IsTrue result → IsSparedStep q self.now.labels.items (state_at q label.now) step.now.customer }
    {
        if memories.is_empty() {
            return false;
        }
        let v = label.front.last;
        let task = self.completions.task;
        let common = task.remember(step.customer, Memory::full(), v);
        for memory in memories {
            if memory.is_subset_within(label.memory, common) {
                return true;
            }
        }
        false
    }

    /// Takes a step from the label at an index, unless it shows before it is made that nothing after it costs less
    /// than the best.
    #[inline(always)]
    fn try_step(
        &mut self,
        label: &Label,
        index: usize,
        best: Option<i64>,
        step: &Step,
        leasts: &[i64],
        memories: &[Memory],
    ) -> Result<(), LabelFault>
        requires labels { IsArena (pricing_in self.old) self.old.labels.items }
        requires index { StandsAt self.old.labels.items index label.now }
        requires step { IsOpenStep (pricing_in self.old) label.now.front.last step.now }
        requires leasts { AreVisitBounds (pricing_in self.old) label.now.front.time leasts.now }
        requires memories { All (IsSparing (pricing_in self.old) self.old.labels.items label.now)
            memories.now }
        ensures stepped { OnOk result (TakesStepTo self.old self.new best label.now step.now.customer) }
        ensures kept { KeepsBest self.old self.new result }
    {
        if self.is_step_passed(label, best, step, leasts) {
            return Ok(());
        }
        if self.is_spared(label, step, memories) {
            self.spared = self.spared.saturating_add(1);
            return Ok(());
        }
        self.take_step(label, index, best, step)
    }

    /// Counts the steps from a label that aren't late: all of them are looked at.
    fn note_scanned(&mut self, label: &Label)
        requires { IsBounded (pricing_in self.old).problem label.now.front }
        ensures { self.new ≡ record self.old { scanned = self.new.scanned } }
    {
        let steps = self.completions.task.steps_from(label.front.last);
        let count = steps.partition_point(|step| !step.is_late(label.front.time));
        self.scanned = self.scanned.saturating_add(count as u64);
    }

    /// Whether this many steps a label were taken or spared that it pays to look for those that others spare.
    fn are_many_steps(&self) -> bool {
        let steps = self.taken.saturating_add(self.spared);
        steps > self.extended.saturating_mul(FEW_STEPS)
    }

    /// Memories that spare a label some of its steps, where these are many.
    fn sparing(&mut self, label: &Label) -> Result<Vec<Memory>, AllocError>
        requires { IsBounded (pricing_in self.old).problem label.now.front }
        ensures memories { let w = self.new in
            IfOk result (λ memories. All (IsSparing (pricing_in w) w.labels.items label.now) memories.items) }
        ensures labels { self.new.labels ≡ self.old.labels }
        ensures best { self.new.best ≡ self.old.best }
        ensures same { IsSameTask self.old self.new }
    {
        let completions = self.completions;
        self.note_scanned(label);
        self.extended = self.extended.saturating_add(1);
        if !self.are_many_steps() {
            return Ok(Vec::new(completions.task.alloc));
        }
        let most = label.most_load(completions);
        self.lookup
            .sparing(completions, self.labels.as_slice(), label, most)
    }

    /// Takes each step from the label at an index that may lead below the best and that none of some memories spares.
    fn take_others(
        &mut self,
        label: &Label,
        index: usize,
        best: Option<i64>,
        memories: &[Memory],
    ) -> Result<(), LabelFault>
        requires labels { IsArena (pricing_in self.old) self.old.labels.items }
        requires index { StandsAt self.old.labels.items index label.now }
        requires memories { All (IsSparing (pricing_in self.old) self.old.labels.items label.now)
            memories.now }
        ensures stepped { OnOk result (TakesEachStep self.old self.new best label.now) }
        ensures kept { KeepsBest self.old self.new result }
    {
        let completions = self.completions;
        let leasts = completions.leasts_from(label.front.time);
        for step in completions.task.steps_from(label.front.last) {
            if step.is_late(label.front.time) {
                return Ok(());
            }
            self.try_step(label, index, best, step, leasts, memories)?;
        }
        Ok(())
    }

    /// Takes each step from the label at an index that may lead below the best.
    fn take_steps(
        &mut self,
        label: &Label,
        index: usize,
        best: Option<i64>,
    ) -> Result<(), LabelFault>
        requires labels { IsArena (pricing_in self.old) self.old.labels.items }
        requires index { StandsAt self.old.labels.items index label.now }
        ensures stepped { OnOk result (TakesEachStep self.old self.new best label.now) }
        ensures kept { KeepsBest self.old self.new result }
    {
        let memories = self.sparing(label)?;
        self.take_others(label, index, best, memories.as_slice())
    }

    /// The reduced cost of the route that ends after a label, in grains, if a route may end there.
    pub(crate) fn end_cost(&self, label: &Label) -> Option<i64>
        requires bounded { IsBounded (pricing_in self.now).problem label.now.front }
        ensures { EndsFor (pricing_in self.now) label.now result }
    {
        let task = self.completions.task;
        if !task.rows_from(label.front.last).contains(0) {
            return None;
        }
        if !label.front.is_back_in_time(task.instance) {
            return None;
        }
        Some(label.front.end_cost(task.instance))
    }

    /// The best with the return to the depot after the label at an index.
    pub(crate) fn best_with(&self, label: &Label, index: usize) -> Best
        requires bounded { IsBounded (pricing_in self.now).problem label.now.front }
        ensures { CountsEnd (pricing_in self.now) label.now index self.now.best result }
    {
        match self.end_cost(label) {
            Some(value) if !is_at_most(self.best.value, value) => Best {
                value: Some(value),
                index,
            },
            _ => self.best,
        }
    }

    /// Whether the label at an index is active and its steps are still to be taken.
    pub(crate) fn is_pending(&self, index: usize) -> bool
        ensures within { IsTrue result → index < length self.now.labels.items }
        ensures yes { IsTrue result → IsPending (label_in self.now.labels.items index) }
        ensures no { IsFalse result → index < length self.now.labels.items
            → ¬ IsPending (label_in self.now.labels.items index) }
    {
        if index >= self.labels.len() {
            return false;
        }
        let label = self.labels[index];
        label.active && !label.extended
    }

    /// Extends the label at an index, if it is pending.
    pub(crate) fn extend_at(&mut self, index: usize) -> Result<(), LabelFault>
        requires { LosesNothing self.old }
        ensures on { GoesOn self.old self.new result }
        ensures onward { OnOk result (IsOnward self.old.labels.items self.new.labels.items index) }
    {
        if !self.is_pending(index) {
            return Ok(());
        }
        let label = self.labels[index];
        if self.leads_nowhere(&label) {
            self.labels[index].extended = true;
            return Ok(());
        }
        let best = self.best_with(&label, index);
        self.take_steps(&label, index, best.value)?;
        self.labels[index].extended = true;
        self.best = best;
        Ok(())
    }
}
