//! Rows that charge routes too often.

use std::alloc::{AllocError, Global};

/// Three customers by whom routes are charged more often than a plan can be.
#[derive(Clone, Copy)]
pub struct FoundRow {
    /// The customers, in increasing order.
    pub members: [u16; 3],
    /// By how much more, in grains.
    pub lack: i64,
}

/// The most rows of a round with one customer in common.
const ROWS_OF_CUSTOMER: u32 = 5;

/// Whether each of three customers is in fewer rows than it may be.
fn have_room(counts: &[u32], members: [u16; 3]) -> bool {
    members.iter().all(|member| {
        let count = counts.get(usize::from(*member)).copied();
        count.unwrap_or(ROWS_OF_CUSTOMER) < ROWS_OF_CUSTOMER
    })
}

/// Counts a row at each of its customers.
fn count(counts: &mut [u32], members: [u16; 3]) {
    for member in members {
        if let Some(count) = counts.get_mut(usize::from(member)) {
            *count = count.saturating_add(1);
        }
    }
}

/// Of these rows of so many customers those that lack most, at most so many, and few with one customer in common.
pub(crate) fn choose(
    alloc: Global,
    customers: u16,
    mut found: Vec<FoundRow>,
    most: usize,
) -> Result<Vec<FoundRow>, AllocError> {
    found.sort_by_key(|row| (i64::MAX.saturating_sub(row.lack), row.members))?;
    let mut counts: Vec<u32> = vec![in alloc; 0; usize::from(customers).saturating_add(1)]?;
    let mut chosen: Vec<FoundRow> = Vec::new(alloc);
    for row in &found {
        if chosen.len() < most && have_room(counts.as_slice(), row.members) {
            count(counts.as_mut_slice(), row.members);
            chosen.push(*row)?;
        }
    }
    Ok(chosen)
}
