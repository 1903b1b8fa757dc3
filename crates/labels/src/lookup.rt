//! Where labels are looked up.
//!
//! What has no contract decides only how fast a search is.

ghost use Rattle.std.specs.Prelude.{IsTrue, IfOk};
ghost use Rattle.std.specs.List.{All};
ghost use Rattle.labels.specs.Sparing.{HasRoomIn, IsSparingIn};
ghost use Rattle.labels.specs.Domination.{IsDominatedIn, IsPrunedIn};

use crate::buckets::Buckets;
use crate::customer_labels::{CustomerLabels, Entry};
use crate::label::Label;
use completions::Completions;
use fronts::Memory;
use solomon_reader::Instance;
use std::alloc::{AllocError, Global};

/// Where labels are looked up by customer and by time, and how many are active, the empty beginning
/// not counted.
#[derive(Drop)]
pub struct Lookup {
    customers: Vec<CustomerLabels>,
    buckets: Buckets,
    active: usize,
}

impl Lookup {
    /// The lookup of the empty beginning alone: a former one of as many customers, or a new one.
    pub fn again(
        alloc: Global,
        instance: &Instance,
        former: Option<Lookup>,
    ) -> Result<Lookup, AllocError> {
        let rows = usize::from(instance.customer_count()) + 1;
        match former {
            Some(mut lookup) if lookup.customers.len() == rows => {
                lookup.clear(instance)?;
                Ok(lookup)
            }
            _ => Lookup::new(alloc, instance),
        }
    }

    /// Leaves the empty beginning alone.
    fn clear(&mut self, instance: &Instance) -> Result<(), AllocError> {
        instance.law_of_limits();
        for labels in &mut self.customers {
            labels.clear()?;
        }
        self.buckets.clear(instance.due(0));
        self.buckets.add(instance.ready(0), 0)?;
        self.active = 0;
        Ok(())
    }

    /// The lookup of the empty beginning alone.
    fn new(alloc: Global, instance: &Instance) -> Result<Lookup, AllocError> {
        instance.law_of_limits();
        let mut customers = Vec::new(alloc);
        for _ in 0..instance.customer_count() + 1 {
            customers.push(CustomerLabels::new(alloc))?;
        }
        let mut buckets = Buckets::new(alloc, instance.due(0))?;
        buckets.add(instance.ready(0), 0)?;
        Ok(Lookup {
            customers,
            buckets,
            active: 0,
        })
    }

    /// How many labels are active.
    pub fn active(&self) -> usize {
        self.active
    }

    /// The number of slots of time.
    pub fn slots(&self) -> usize {
        self.buckets.slots()
    }

    /// Takes the index of a label out of a slot of time.
    pub fn take(&mut self, slot: usize) -> Option<usize> {
        self.buckets.take(slot)
    }

    /// How often a newer label looked at labels of its customer, and at those together that remember the same.
    pub fn work(&self) -> u64 {
        let mut work: u64 = 0;
        for labels in &self.customers {
            work = work.saturating_add(labels.work());
        }
        work
    }

    /// Whether an active label dominates a newer one.
    pub fn is_dominated(
        &mut self,
        completions: &Completions<'_, '_>,
        labels: &[Label],
        label: &Label,
        newer: &Entry,
    ) -> bool
        ensures { IsTrue result → IsDominatedIn completions.now labels.now label.now }
    {
        let customer = label.front.last as usize;
        if customer >= self.customers.len() {
            return false;
        }
        self.customers[customer].is_dominated(completions, labels, label, newer)
    }

    /// Memories that spare a label some of its steps: others whose steps were taken have what may come after it,
    /// but for stops that they remember.
    pub fn sparing(
        &mut self,
        completions: &Completions<'_, '_>,
        labels: &[Label],
        label: &Label,
        most: u32,
    ) -> Result<Vec<Memory>, AllocError>
        requires { HasRoomIn completions.now label.now most }
        ensures { IfOk result (λ memories. All (IsSparingIn completions.now labels.now label.now)
            memories.items) }
    {
        let customer = label.front.last as usize;
        if customer >= self.customers.len() {
            return Ok(Vec::new(completions.task.alloc));
        }
        self.customers[customer].sparing(completions, labels, label, most)
    }

    /// Drops the labels that a newer one dominates.
    pub fn drop_dominated(
        &mut self,
        completions: &Completions<'_, '_>,
        labels: &mut [Label],
        label: &Label,
        newer: &Entry,
    )
        ensures { IsPrunedIn completions.now labels.old labels.new label.now }
    {
        let customer = label.front.last as usize;
        if customer < self.customers.len() {
            let dropped = self.customers[customer].drop_dominated(
                completions,
                labels,
                label,
                newer,
            );
            self.active = self.active.saturating_sub(dropped);
        }
    }

    /// Adds a label, which stands at an index.
    pub fn add(
        &mut self,
        alloc: Global,
        label: &Label,
        newer: &Entry,
        index: usize,
    ) -> Result<(), AllocError> {
        let customer = label.front.last as usize;
        if customer < self.customers.len() {
            self.customers[customer].add(alloc, newer)?;
        }
        self.buckets.add(label.front.time, index)?;
        self.active = self.active.saturating_add(1);
        Ok(())
    }
}
