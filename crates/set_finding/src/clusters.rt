//! Small sets that less than two routes enter.

use crate::flow_table::FlowTable;
use std::alloc::{AllocError, Global};

/// The most sets of one size from one customer, and the most customers that each grows by.
const BEAM: usize = 25;

const BRANCHES: usize = 5;

/// The most customers of a set.
const MOST_MEMBERS: usize = 10;

/// A set that less than two routes enter.
#[derive(Drop)]
pub(crate) struct Cluster {
    /// In increasing order.
    pub(crate) members: Vec<u16>,
    pub(crate) inflow: i64,
    /// By which sets with the same members are found.
    pub(crate) hash: u64,
}

/// A number that few sets have in common.
pub(crate) fn hash_of(members: &[u16]) -> u64 {
    let mut hash: u64 = 0xcbf2_9ce4_8422_2325;
    for member in members {
        hash = (hash ^ u64::from(*member)).wrapping_mul(0x0000_0100_0000_01b3);
        hash ^= hash >> 29;
    }
    hash
}

impl Cluster {
    /// The set of these customers, which stand in increasing order.
    fn of(members: Vec<u16>, inflow: i64) -> Cluster {
        let hash = hash_of(members.as_slice());
        Cluster {
            members,
            inflow,
            hash,
        }
    }
}

/// The set with one more customer.
fn with(alloc: Global, members: &[u16], v: u16) -> Result<Vec<u16>, AllocError> {
    let mut more = Vec::from_slice(alloc, members)?;
    let place = more.partition_point(|member| *member < v);
    more.insert(place, v)?;
    Ok(more)
}

/// What flows between a customer and those of a set.
fn near(flow: &FlowTable, members: &[u16], v: u16) -> i64 {
    let mut much: i64 = 0;
    for member in members {
        much = much.saturating_add(flow.between(*member, v));
    }
    much
}

/// Adds the customers to whom something flows from one of a set.
fn add_followers(
    flow: &FlowTable,
    members: &[u16],
    u: u16,
    followers: &mut Vec<(u16, i64)>,
) -> Result<(), AllocError> {
    for w in flow.linked(u) {
        let is_new = !members.contains(w) && !followers.iter().any(|(other, _)| other == w);
        if is_new {
            followers.push((*w, near(flow, members, *w)))?;
        }
    }
    Ok(())
}

/// The customers to whom most flows from a set, with how much.
fn followers(
    alloc: Global,
    flow: &FlowTable,
    members: &[u16],
) -> Result<Vec<(u16, i64)>, AllocError> {
    let mut followers = Vec::new(alloc);
    for u in members {
        add_followers(flow, members, *u, &mut followers)?;
    }
    followers.sort_by_key(|(_, much)| i64::MAX.saturating_sub(*much))?;
    followers.truncate(BRANCHES);
    Ok(followers)
}

/// Adds a set, unless it is there.
fn add_new(clusters: &mut Vec<Cluster>, cluster: Cluster) -> Result<(), AllocError> {
    let is_it = |other: &Cluster| other.hash == cluster.hash && other.members == cluster.members;
    if !clusters.iter().any(is_it) {
        clusters.push(cluster)?;
    }
    Ok(())
}

/// Adds the sets that a set leads to by one customer more, where less flows into them than so much.
fn add_larger(
    alloc: Global,
    flow: &FlowTable,
    set: &Cluster,
    below: i64,
    next: &mut Vec<Cluster>,
) -> Result<(), AllocError> {
    let members = set.members.as_slice();
    for (v, much) in &followers(alloc, flow, members)? {
        let change = flow.into_row(*v).saturating_sub(*much);
        let inflow = set.inflow.saturating_add(change);
        if inflow < below {
            add_new(next, Cluster::of(with(alloc, members, *v)?, inflow))?;
        }
    }
    Ok(())
}

/// The sets of one customer more, those first into which least flows.
fn next_beam(
    alloc: Global,
    flow: &FlowTable,
    beam: &[Cluster],
    below: i64,
) -> Result<Vec<Cluster>, AllocError> {
    let mut next = Vec::new(alloc);
    for set in beam {
        add_larger(alloc, flow, set, below, &mut next)?;
    }
    next.sort_by_key(|set| set.inflow)?;
    next.truncate(BEAM);
    Ok(next)
}

/// Adds the sets of two customers or more.
fn add_all(clusters: &mut Vec<Cluster>, beam: Vec<Cluster>) -> Result<(), AllocError> {
    for set in beam {
        if set.members.len() > 1 {
            clusters.push(set)?;
        }
    }
    Ok(())
}

/// Adds sets from one customer on that less than two routes enter, with what flows into them; answers how often a customer
/// was looked at.
pub(crate) fn add_clusters(
    alloc: Global,
    flow: &FlowTable,
    first: u16,
    clusters: &mut Vec<Cluster>,
) -> Result<u64, AllocError> {
    let below = (flow.whole / 20).saturating_mul(39);
    let mut work: u64 = 0;
    let mut beam = Vec::new(alloc);
    let alone = Vec::from_slice(alloc, &[first])?;
    beam.push(Cluster::of(alone, flow.into_row(first)))?;
    for size in 1..MOST_MEMBERS {
        let next = next_beam(alloc, flow, beam.as_slice(), below)?;
        work = work.saturating_add((beam.len().saturating_mul(size) as u64).saturating_mul(6));
        add_all(clusters, beam)?;
        beam = next;
    }
    add_all(clusters, beam)?;
    Ok(work)
}
