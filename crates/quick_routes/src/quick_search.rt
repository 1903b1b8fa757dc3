//! The search.

use crate::likely::{Likely, LikelyStep, grains};
use crate::quick_label::QuickLabel;
use crate::stairs::Stairs;
use crate::width::Width;
use fronts::{Memory, Task};
use std::alloc::{AllocError, Global};

/// The slots of time but the last one.
const SLOTS: u64 = 1_000;

/// The most labels.
const MOST_LABELS: usize = 1_000_000;

/// The most routes that a search tells, and the most of them with one last customer, so that they differ.
const MOST_ROUTES: usize = 20;

const MOST_OF_CUSTOMER: usize = 2;

/// This many labels of a customer, which stand side by side, are one unit of work.
const LABELS_OF_UNIT: u64 = 4;

/// A relaxed route.
#[derive(Drop)]
pub struct QuickRoute {
    /// In grains.
    pub reduced_cost: i64,
    /// The customers, in order.
    pub stops: Vec<u16>,
}

/// What a quick search found.
#[derive(Drop)]
pub struct QuickRoutes {
    /// The cheapest first.
    pub routes: Vec<QuickRoute>,
    /// How much work it was: steps, twice those that were taken, and how often a label looked at others.
    pub work: u64,
}

/// A label after which a route may end.
#[derive(Clone, Copy)]
struct QuickEnd {
    /// The reduced cost of the route, in grains.
    value: i64,
    index: usize,
}

/// The labels so far.
#[derive(Drop)]
struct QuickSearch<'t, 'i> {
    task: &'t Task<'i>,
    width: Width,
    labels: Vec<QuickLabel>,
    /// The labels of each row.
    stairs: Vec<Stairs>,
    /// How long a slot is, in tenths.
    slot_width: u64,
    /// The labels to be extended, by slots of time.
    waiting: Vec<Vec<usize>>,
    /// The cheapest ends at each row, the cheapest first.
    ends: Vec<Vec<QuickEnd>>,
    work: u64,
}

/// This many empty lists.
fn lists<T: Drop>(alloc: Global, count: usize) -> Result<Vec<Vec<T>>, AllocError> {
    let mut lists = Vec::new(alloc);
    for _list in 0..count {
        lists.push(Vec::new(alloc))?;
    }
    Ok(lists)
}

/// This many rows without labels.
fn empty_stairs(alloc: Global, count: usize) -> Result<Vec<Stairs>, AllocError> {
    let mut stairs = Vec::new(alloc);
    for _row in 0..count {
        stairs.push(Stairs::new(alloc))?;
    }
    Ok(stairs)
}

impl<'t, 'i> QuickSearch<'t, 'i> {
    /// The search with the empty beginning at the depot.
    fn new(task: &'t Task<'i>, width: Width) -> Result<QuickSearch<'t, 'i>, AllocError> {
        let (alloc, instance) = (task.alloc, task.instance);
        let rows = usize::from(instance.customer_count()).saturating_add(1);
        let beginning = QuickLabel {
            last: 0,
            time: instance.ready(0),
            load: 0,
            cost: 0,
            memory: Memory::empty(),
            parent: 0,
            stops: 0,
            is_active: true,
        };
        let mut search = QuickSearch {
            task,
            width,
            labels: Vec::new(alloc),
            stairs: empty_stairs(alloc, rows)?,
            slot_width: (instance.due(0) / SLOTS).saturating_add(1),
            waiting: lists(alloc, SLOTS as usize + 1)?,
            ends: lists(alloc, rows)?,
            work: 0,
        };
        search.labels.push(beginning)?;
        search.wait(beginning.time, 0)?;
        Ok(search)
    }

    /// Lets the label at an index wait for its time.
    fn wait(&mut self, time: u64, index: usize) -> Result<(), AllocError> {
        let slot = time.checked_div(self.slot_width).unwrap_or(0).min(SLOTS) as usize;
        if let Some(waiting) = self.waiting.get_mut(slot) {
            waiting.push(index)?;
        }
        Ok(())
    }

    /// Counts work.
    fn count(&mut self, work: u64) {
        self.work = self.work.saturating_add(work);
    }

    /// Takes a step from the label at an index.
    fn take(
        &mut self,
        label: &QuickLabel,
        index: usize,
        step: &LikelyStep,
    ) -> Result<(), AllocError> {
        let load = label.load.saturating_add(step.demand);
        let task = self.task;
        let last = task.instance.customer_count();
        self.count(1);
        if label.memory.contains(step.place.min(16)) || load > u32::from(task.instance.capacity()) {
            return Ok(());
        }
        if label.last > last || step.customer > last {
            return Ok(());
        }
        let next = QuickLabel {
            last: step.customer,
            time: step.leaves(label.time),
            load,
            cost: label.cost.saturating_add(step.cost),
            memory: task.remember(label.last, label.memory, step.customer),
            parent: index,
            stops: label.stops.saturating_add(1),
            is_active: true,
        };
        let Some(stairs) = self.stairs.get_mut(usize::from(step.customer)) else {
            return Ok(());
        };
        let count = self.labels.len();
        let (is_added, met) = stairs.add(&mut self.labels, &next, self.width.labels)?;
        self.count((met / LABELS_OF_UNIT).saturating_add(2));
        if is_added {
            self.wait(next.time, count)?;
        }
        Ok(())
    }

    /// Notes the route that ends after the label at an index, where it is one of the cheapest ones.
    fn end(&mut self, label: &QuickLabel, index: usize) -> Result<(), AllocError> {
        let instance = self.task.instance;
        if label.last == 0 || label.last > instance.customer_count() {
            return Ok(());
        }
        let way = instance.distance(label.last, 0).get();
        if label.time.saturating_add(way) > instance.due(0) {
            return Ok(());
        }
        let value = label.cost.saturating_add(grains(way));
        if let Some(ends) = self.ends.get_mut(usize::from(label.last)) {
            let place = ends.partition_point(|end| end.value <= value);
            if place < MOST_OF_CUSTOMER {
                ends.insert(place, QuickEnd { value, index })?;
                ends.truncate(MOST_OF_CUSTOMER);
            }
        }
        Ok(())
    }

    /// Takes the likely steps from the label at an index.
    fn extend(&mut self, likely: &[Vec<LikelyStep>], index: usize) -> Result<(), AllocError> {
        let Some(label) = self.labels.get(index).copied() else {
            return Ok(());
        };
        let Some(steps) = likely.get(usize::from(label.last)) else {
            return Ok(());
        };
        if !label.is_active {
            return Ok(());
        }
        self.end(&label, index)?;
        for step in steps {
            if step.latest < label.time {
                return Ok(());
            }
            self.take(&label, index, step)?;
        }
        Ok(())
    }

    /// Extends the labels of a slot, and those that steps add to it.
    fn extend_slot(&mut self, likely: &[Vec<LikelyStep>], slot: usize) -> Result<(), AllocError> {
        for _taken in 0..MOST_LABELS {
            let index = match self.waiting.get_mut(slot) {
                Some(waiting) => waiting.pop(),
                None => None,
            };
            let Some(index) = index else {
                return Ok(());
            };
            if self.labels.len() < MOST_LABELS {
                self.extend(likely, index)?;
            }
        }
        Ok(())
    }

    /// Extends all labels.
    fn extend_all(&mut self, likely: &[Vec<LikelyStep>]) -> Result<(), AllocError> {
        for slot in 0..self.waiting.len() {
            self.extend_slot(likely, slot)?;
        }
        Ok(())
    }

    /// The route that ends after a label.
    fn route_to(&self, end: &QuickEnd) -> Result<QuickRoute, AllocError> {
        let mut stops = Vec::new(self.task.alloc);
        let mut label = self.labels.get(end.index);
        for _stop in 0..label.map_or(0, |label| label.stops) {
            if let Some(known) = label {
                stops.push(known.last)?;
                label = self.labels.get(known.parent);
            }
        }
        stops.as_mut_slice().reverse();
        Ok(QuickRoute {
            reduced_cost: end.value,
            stops,
        })
    }

    /// The cheapest ends of all rows, the cheapest first.
    fn cheapest_ends(&self) -> Result<Vec<QuickEnd>, AllocError> {
        let mut cheapest: Vec<QuickEnd> = Vec::new(self.task.alloc);
        for ends in &self.ends {
            cheapest.extend_from_slice(ends.as_slice())?;
        }
        cheapest.sort_by_key(|end| end.value)?;
        cheapest.truncate(MOST_ROUTES);
        Ok(cheapest)
    }

    /// The routes to be told.
    fn routes(&self) -> Result<Vec<QuickRoute>, AllocError> {
        let mut routes = Vec::new(self.task.alloc);
        for end in &self.cheapest_ends()? {
            routes.push(self.route_to(end)?)?;
        }
        Ok(routes)
    }
}

/// Relaxed routes of low reduced cost at the prices of a task, as far as a search of this width finds them, by
/// labels in order of time. It looks at all arcs, whatever the region allows.
/// No contract: a rule of search; any prices are sound.
pub fn quick_routes(
    task: &Task<'_>,
    likely: &Likely,
    width: Width,
) -> Result<QuickRoutes, AllocError> {
    let mut search = QuickSearch::new(task, width)?;
    let likely = likely.choose(task, width)?;
    let customers = u64::from(task.instance.customer_count());
    search.count(customers.saturating_mul(customers));
    search.extend_all(likely.as_slice())?;
    Ok(QuickRoutes {
        routes: search.routes()?,
        work: search.work,
    })
}
