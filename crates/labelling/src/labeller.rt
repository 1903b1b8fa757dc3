//! A search for the least reduced cost: its labels, and which of them may be left out.

ghost use Rattle.std.specs.Prelude.{◌≡◌, ◌≢◌, ◌≤◌, OnOk, IfOk, IsTrue, IsFalse, None, ℤ, ◌≤ℤ◌};
ghost use Rattle.solomon_reader.specs.States.{IsAtMost};
ghost use Rattle.labels.specs.Arena.{state_at, IsFirst};
ghost use Rattle.labels.specs.Cover.{IsPassed};
ghost use Rattle.solomon_reader.specs.Covering.{IsDear};
ghost use Rattle.completions.specs.Completions.{IsBound};
ghost use Rattle.fronts.specs.Fronts.{IsBounded};
ghost use Rattle.labelling.specs.Search.{task_of, pricing_in, KeepsBest, Continues, IsAddedTo, Recalls, AddsAtLeast, LosesNothing};

use crate::fault::LabelFault;
use crate::route_ends::RouteEnd;
use completions::{Bound, Completions};
use fronts::{Front, LIST_SIZE, Memory};
use labels::{Best, Entry, Label, Lookup};
use row_charges::RowBits;
use solomon_reader::Instance;
use std::alloc::{AllocError, Global};

/// A search for the least reduced cost: bounds on what may follow, its labels, where they are looked up,
/// and the best so far.
#[derive(Drop)]
pub(crate) struct Labeller<'t, 'i> {
    pub(crate) completions: &'t Completions<'t, 'i>,
    pub(crate) limit: Option<usize>,
    pub(crate) labels: Vec<Label>,
    pub(crate) lookup: Lookup,
    pub(crate) best: Best,
    /// No label is left out after which a route may cost less, in grains: the reduced cost of the known
    /// route, so that others that cost less than that one are met, too.
    pub(crate) cut: i64,
    /// The ends of routes after extended labels that cost less than that, or where none is known, less than
    /// nothing.
    pub(crate) ends: Vec<RouteEnd>,
    /// How many steps were taken.
    pub(crate) taken: u64,
    /// How many open steps were looked at.
    pub(crate) scanned: u64,
    /// How many others were left out since other labels spare them.
    pub(crate) spared: u64,
    /// From how many labels steps were taken.
    pub(crate) extended: u64,
}

/// The list of the empty beginning at the depot.
fn first_labels(alloc: Global, instance: &Instance) -> Result<Vec<Label>, AllocError>
    ensures { IfOk result (λ labels. IsFirst instance.now labels.items) }
{
    let mut labels = Vec::new(alloc);
    labels.push(Label {
        front: Front::start(instance),
        memory: Memory::empty(),
        bits: RowBits::none(),
        parent: 0,
        stops: 0,
        active: true,
        extended: false,
    })?;
    Ok(labels)
}

/// Whether the best so far is at most a value.
pub(crate) fn is_at_most(best: Option<i64>, value: i64) -> bool
    ensures yes { IsTrue result → IsAtMost best value }
    ensures no { IsFalse result → (y : ℤ) → IsAtMost best y → value ≤ℤ y }
{
    match best {
        Some(least) => least <= value,
        None => false,
    }
}

impl<'t, 'i> Labeller<'t, 'i> {
    /// The labeller of a task, with the empty beginning alone. Where an earlier search looked labels up it does,
    /// too.
    pub(crate) fn new(
        completions: &'t Completions<'t, 'i>,
        limit: Option<usize>,
        former: Option<Lookup>,
    ) -> Result<Labeller<'t, 'i>, AllocError>
        ensures task { IfOk result (λ w. task_of w ≡ completions.now.task.now) }
        ensures limit { IfOk result (λ w. w.limit ≡ limit) }
        ensures complete { IfOk result LosesNothing }
    {
        let task = completions.task;
        let labels = first_labels(task.alloc, task.instance)?;
        let lookup = Lookup::again(task.alloc, task.instance, former)?;
        Ok(Labeller {
            completions,
            limit,
            labels,
            lookup,
            best: Best {
                value: None,
                index: 0,
            },
            cut: i64::MIN,
            ends: Vec::new(task.alloc),
            taken: 0,
            scanned: 0,
            spared: 0,
            extended: 0,
        })
    }

    /// The labeller with other bounds on what may follow.
    pub(crate) fn with(self, completions: &'t Completions<'t, 'i>) -> Labeller<'t, 'i>
        requires task { completions.now.task.now ≡ task_of self }
        requires complete { LosesNothing self }
        ensures { Continues self.entry result }
    {
        Labeller {
            completions,
            limit: self.limit,
            labels: self.labels,
            lookup: self.lookup,
            best: self.best,
            cut: self.cut,
            ends: self.ends,
            taken: self.taken,
            scanned: self.scanned,
            spared: self.spared,
            extended: self.extended,
        }
    }

    /// Whether as many labels are active as the caller allowed. The empty beginning isn't counted.
    fn is_full(&self) -> bool
        ensures { IsTrue result → self.now.limit ≢ None }
    {
        match self.limit {
            Some(most) => self.lookup.active() >= most,
            None => false,
        }
    }

    /// Whether nothing that may come after a front, which this bounds, costs less than the best.
    pub(crate) fn is_passed(&self, front: &Front, bound: &Bound, best: Option<i64>) -> bool
        requires front { IsBounded (pricing_in self.now).problem front.now }
        requires bound { let f = front.now in
            IsBound (pricing_in self.now) f.last f.time f.load bound.now }
        ensures { IsTrue result → IsPassed (pricing_in self.now) best front.now }
    {
        if front.cost + bound.least < self.cut {
            return false;
        }
        is_at_most(best, front.cost + bound.least)
    }

    /// Whether nothing that may come after a front costs less than the best, as far as bounds by load tell.
    pub(crate) fn is_passed_by_load(&self, front: &Front, best: Option<i64>) -> bool
        requires { IsBounded (pricing_in self.now).problem front.now }
        ensures { IsTrue result → IsPassed (pricing_in self.now) best front.now }
    {
        match self.completions.at_load(front.last, front.time, front.load) {
            Some(bound) => self.is_passed(front, &bound, best),
            None => false,
        }
    }

    /// Whether a label may not visit a customer next, as far as it remembers it.
    fn recalls(&self, label: &Label, customer: u16) -> bool
        requires { IsBounded (pricing_in self.now).problem label.now.front }
        ensures { IsTrue result → Recalls (pricing_in self.now) label.now customer }
    {
        let places = self.completions.task.places[usize::from(label.front.last)].as_slice();
        if usize::from(customer) >= places.len() {
            return false;
        }
        let place = places[usize::from(customer)];
        place < LIST_SIZE && label.memory.contains(place)
    }

    /// The least that what may come after a label adds to its reduced cost, in grains, where it remembers
    /// its last stop: the customer that comes next where the least is added may be one that it remembers.
    fn least_after(&self, label: &Label, bound: &Bound) -> i64
        requires bounded { IsBounded (pricing_in self.now).problem label.now.front }
        requires remembered { Recalls (pricing_in self.now) label.now label.now.front.last }
        requires bound { let f = label.now.front in
            IsBound (pricing_in self.now) f.last f.time f.load bound.now }
        ensures { AddsAtLeast (pricing_in self.now) label.now result }
    {
        if self.recalls(label, bound.next) {
            return bound.other;
        }
        bound.least
    }

    /// Whether nothing that may come after a label, which this bounds and which remembers its last stop, costs less
    /// than the best so far.
    fn is_dear(&self, label: &Label, bound: &Bound) -> bool
        requires bounded { IsBounded (pricing_in self.now).problem label.now.front }
        requires remembered { Recalls (pricing_in self.now) label.now label.now.front.last }
        requires bound { let f = label.now.front in
            IsBound (pricing_in self.now) f.last f.time f.load bound.now }
        ensures { let q = pricing_in self.now in
            IsTrue result → IsDear q self.now.best.value (state_at q label.now) }
    {
        let value = label.front.cost + self.least_after(label, bound);
        value >= self.cut && is_at_most(self.best.value, value)
    }

    /// Whether nothing that may come after a label costs less than the best so far.
    pub(crate) fn leads_nowhere(&self, label: &Label) -> bool
        requires { IsBounded (pricing_in self.now).problem label.now.front }
        ensures { let q = pricing_in self.now in
            IsTrue result → IsDear q self.now.best.value (state_at q label.now) }
    {
        if !self.recalls(label, label.front.last) {
            return false;
        }
        let front = &label.front;
        if self.is_dear(label, &self.completions.at(front.last, front.time)) {
            return true;
        }
        match self.completions.at_load(front.last, front.time, front.load) {
            Some(bound) => self.is_dear(label, &bound),
            None => false,
        }
    }

    /// Adds a label, after which at most this much may be loaded, and drops those that it dominates, unless
    /// an active one dominates it.
    pub(crate) fn add_label(&mut self, newer: &Label, room: u32) -> Result<(), LabelFault>
        ensures added { OnOk result (IsAddedTo self.old self.new newer.now) }
        ensures kept { KeepsBest self.old self.new result }
    {
        let completions = self.completions;
        let index = self.labels.len();
        let capacity = completions.task.instance.capacity();
        let entry = Entry::new(newer, u32::from(capacity).saturating_sub(room), index);
        if self
            .lookup
            .is_dominated(completions, self.labels.as_slice(), newer, &entry)
        {
            return Ok(());
        }
        self.lookup
            .drop_dominated(completions, self.labels.as_mut_slice(), newer, &entry);
        if self.is_full() {
            return Err(LabelFault::LabelLimit);
        }
        self.lookup
            .add(completions.task.alloc, newer, &entry, index)?;
        self.labels.push(*newer)?;
        Ok(())
    }
}
