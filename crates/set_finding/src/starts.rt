//! Sets from which a search starts.

use crate::flow_table::FlowTable;
use std::alloc::{AllocError, Global};

/// Parts of a route, in hundredths: customers between whom as much flows belong together.
const PARTS: [i64; 6] = [0, 10, 30, 50, 70, 95];

/// Adds the customers to a group between whom and one of it at least so much flows, and that are in none yet.
fn join(
    flow: &FlowTable,
    u: u16,
    least: i64,
    is_seen: &mut [bool],
    group: &mut Vec<u16>,
) -> Result<(), AllocError> {
    for w in flow.linked(u) {
        if let Some(seen) = is_seen.get_mut(usize::from(*w)) {
            if !*seen && flow.between(u, *w) >= least {
                *seen = true;
                group.push(*w)?;
            }
        }
    }
    Ok(())
}

/// The group of a customer that is in none yet.
fn group_of(
    alloc: Global,
    flow: &FlowTable,
    v: u16,
    least: i64,
    is_seen: &mut [bool],
) -> Result<Vec<u16>, AllocError> {
    let mut group = Vec::new(alloc);
    group.push(v)?;
    for place in 0..usize::from(flow.customers) {
        let Some(u) = group.get(place).copied() else {
            return Ok(group);
        };
        join(flow, u, least, is_seen, &mut group)?;
    }
    Ok(group)
}

/// Adds the groups of two customers or more, where those are of one between whom at least so much flows.
fn add_groups(
    alloc: Global,
    flow: &FlowTable,
    least: i64,
    starts: &mut Vec<Vec<u16>>,
) -> Result<(), AllocError> {
    let mut is_seen = vec![in alloc; false; usize::from(flow.customers).saturating_add(1)]?;
    for v in 1..flow.end() {
        match is_seen.get_mut(usize::from(v)) {
            Some(seen) if !*seen => *seen = true,
            _ => continue,
        }
        let group = group_of(alloc, flow, v, least, is_seen.as_mut_slice())?;
        if group.len() > 1 {
            starts.push(group)?;
        }
    }
    Ok(())
}

/// The groups of the flow, each of two customers or more.
pub(crate) fn group_starts(alloc: Global, flow: &FlowTable) -> Result<Vec<Vec<u16>>, AllocError> {
    let mut starts = Vec::new(alloc);
    for part in PARTS {
        let least = (flow.whole / 100).saturating_mul(part).max(1);
        add_groups(alloc, flow, least, &mut starts)?;
    }
    Ok(starts)
}
