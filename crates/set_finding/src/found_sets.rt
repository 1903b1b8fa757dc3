//! Sets that are entered too seldom.

use std::alloc::{AllocError, Global};

/// A set of customers that is entered less often than it needs.
#[derive(Drop)]
pub struct FoundSet {
    /// The customers, in increasing order.
    pub members: Vec<u16>,
    /// How often each plan enters the set, at least.
    pub need: u32,
    /// How much is lacking, in grains.
    pub lack: i64,
}

/// How many customers are in both of two sets.
fn common_count(one: &[u16], other: &[u16]) -> usize {
    one.iter().filter(|member| other.contains(*member)).count()
}

/// Whether two sets have more than half of the smaller one in common.
fn are_near(one: &[u16], other: &[u16]) -> bool {
    common_count(one, other) > one.len().min(other.len()) / 2
}

/// Whether a set is near one of these.
fn is_near_one(sets: &[FoundSet], members: &[u16]) -> bool {
    sets.iter()
        .any(|set| are_near(set.members.as_slice(), members))
}

/// Of these sets those that lack most, at most so many, none near another one, and none of the known ones.
pub(crate) fn choose(
    alloc: Global,
    mut found: Vec<FoundSet>,
    known: &[Vec<u16>],
    most: usize,
) -> Result<Vec<FoundSet>, AllocError> {
    found.sort_by_key(|set| (i64::MAX.saturating_sub(set.lack), set.members.len()))?;
    let mut chosen: Vec<FoundSet> = Vec::new(alloc);
    for set in found {
        let members = set.members.as_slice();
        let is_known = known.iter().any(|other| other.as_slice() == members);
        if chosen.len() < most && !is_known && !is_near_one(chosen.as_slice(), members) {
            chosen.push(set)?;
        }
    }
    Ok(chosen)
}
