//! The search for sets.

use crate::clusters::{Cluster, add_clusters};
use crate::flow_table::FlowTable;
use crate::found_sets::{FoundSet, choose};
use crate::growing::{grow, improve};
use crate::inside::Inside;
use crate::starts::group_starts;
use crate::timed_sets::TimedSets;
use pooled_routes::ArcFlow;
use priced_sets::NeededSets;
use solomon_reader::Instance;
use std::alloc::{AllocError, Global};

/// The most sets that are changed one by one, and the most changes of each.
const MOST_CHANGED: usize = 20;

const MOST_CHANGES: usize = 60;

/// So many customers that a search goes over are one unit of work, as it is counted of pricings.
const STEPS_OF_UNIT: u64 = 2;

/// A set may grow to so many customers.
const MOST_GROWN: usize = 110;

/// A set counts where more than this part of a route is lacking.
const PART_LACKING: i64 = 20;

/// A search for sets of an instance, which remembers which sets one vehicle can serve in time.
#[derive(Drop)]
pub struct SetSearch<'i> {
    alloc: Global,
    needed: NeededSets<'i>,
    timed: TimedSets,
}

/// What a search found.
#[derive(Drop)]
pub struct SetFinds {
    /// Those first that lack most.
    pub sets: Vec<FoundSet>,
    /// How much work it was.
    pub work: u64,
}

/// The groups of the flow, those first that lack most, at most so many.
fn best_starts<'f, 'i>(
    alloc: Global,
    instance: &'i Instance,
    flow: &'f FlowTable,
    least: i64,
    found: &mut Vec<FoundSet>,
) -> Result<Vec<Inside<'f, 'i>>, AllocError> {
    let mut starts = Vec::new(alloc);
    for group in &group_starts(alloc, flow)? {
        let inside = Inside::of(alloc, flow, instance, group.as_slice())?;
        inside.note(found, least)?;
        starts.push(inside)?;
    }
    starts.sort_by_key(|inside| i64::MAX.saturating_sub(inside.lack()))?;
    starts.truncate(MOST_CHANGED);
    Ok(starts)
}

/// Sets that grow from one customer each.
fn grown(
    alloc: Global,
    instance: &Instance,
    flow: &FlowTable,
    least: i64,
    found: &mut Vec<FoundSet>,
) -> Result<u64, AllocError> {
    let customers = flow.customers;
    let most = MOST_GROWN.min(usize::from(customers).saturating_sub(1));
    let mut work: u64 = 0;
    for first in 1..flow.end() {
        let inside = Inside::of(alloc, flow, instance, &[first])?;
        work = work.saturating_add(grow(inside, customers, most, least, found)?);
    }
    Ok(work)
}

/// Sets whose load needs more than flows into them.
fn by_load(
    alloc: Global,
    instance: &Instance,
    flow: &FlowTable,
    least: i64,
    found: &mut Vec<FoundSet>,
) -> Result<u64, AllocError> {
    let customers = flow.customers;
    let mut work: u64 = 0;
    for inside in best_starts(alloc, instance, flow, least, found)? {
        let changes = improve(alloc, inside, customers, MOST_CHANGES, least, found)?;
        work = work.saturating_add(changes);
    }
    Ok(work.saturating_add(grown(alloc, instance, flow, least, found)?))
}

/// What customers have to be delivered together.
fn load_of(instance: &Instance, members: &[u16]) -> u32 {
    let mut load: u32 = 0;
    for member in members {
        if *member <= instance.customer_count() {
            load = load.saturating_add(u32::from(instance.demand(*member)));
        }
    }
    load
}

impl<'i> SetSearch<'i> {
    /// A search of an instance that knows nothing yet. `AllocError` where memory was refused. No contract: what is found
    /// is asked again where it gets a price.
    pub fn new(alloc: Global, instance: &'i Instance) -> Result<SetSearch<'i>, AllocError> {
        Ok(SetSearch {
            alloc,
            needed: NeededSets::new(alloc, instance)?,
            timed: TimedSets::new(alloc),
        })
    }

    /// The sets that are known to be needed. No contract: they say themselves what they need.
    pub fn needed(&mut self) -> &mut NeededSets<'i> {
        &mut self.needed
    }

    /// Small sets of customers of one place in the list, each once, that less than two routes enter.
    fn clusters(&self, flow: &FlowTable) -> Result<(Vec<Cluster>, u64), AllocError> {
        let mut clusters: Vec<Cluster> = Vec::new(self.alloc);
        let mut work: u64 = 0;
        for first in 1..flow.end() {
            work = work.saturating_add(add_clusters(self.alloc, flow, first, &mut clusters)?);
        }
        clusters.sort_by_key(|cluster| cluster.hash)?;
        Ok((clusters, work))
    }

    /// Notes a set that less than two routes enter where no vehicle can serve it in time, though it can carry its load.
    fn note_timed(
        &mut self,
        flow: &FlowTable,
        cluster: &Cluster,
        found: &mut Vec<FoundSet>,
    ) -> Result<u64, AllocError> {
        let members = cluster.members.as_slice();
        let instance = self.needed.instance();
        if load_of(instance, members) > u32::from(instance.capacity()) {
            return Ok(0);
        }
        let answer = self.timed.needs_two(&mut self.needed, members)?;
        if answer.needs_two {
            found.push(FoundSet {
                members: Vec::from_slice(self.alloc, members)?,
                need: 2,
                lack: flow.whole.saturating_mul(2).saturating_sub(cluster.inflow),
            })?;
        }
        Ok(answer.work)
    }

    /// Sets that less than two routes enter, and no vehicle can serve in time.
    fn by_time(&mut self, flow: &FlowTable, found: &mut Vec<FoundSet>) -> Result<u64, AllocError> {
        let (clusters, mut work) = self.clusters(flow)?;
        let mut last: &[u16] = &[];
        for cluster in &clusters {
            if cluster.members.as_slice() != last {
                work = work.saturating_add(self.note_timed(flow, cluster, found)?);
                last = cluster.members.as_slice();
            }
        }
        Ok(work)
    }

    /// Sets that routes enter less often than each plan has to, by more than a twentieth: of those that are found at
    /// most so many, and none of the known ones. This much is one route in what flows on the arcs. No contract: what is
    /// found is asked again where it gets a price.
    pub fn find(
        &mut self,
        arcs: &[ArcFlow],
        whole: i64,
        known: &[Vec<u16>],
        most: usize,
    ) -> Result<SetFinds, AllocError> {
        let (alloc, instance) = (self.alloc, self.needed.instance());
        let flow = FlowTable::new(alloc, instance.customer_count(), arcs, whole)?;
        let least = flow.whole / PART_LACKING;
        let mut found = Vec::new(alloc);
        let by_load = by_load(alloc, instance, &flow, least, &mut found)?;
        let by_time = self.by_time(&flow, &mut found)?;
        Ok(SetFinds {
            sets: choose(alloc, found, known, most)?,
            work: by_load.saturating_add(by_time) / STEPS_OF_UNIT,
        })
    }
}
