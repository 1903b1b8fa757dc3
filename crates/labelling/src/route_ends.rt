//! The ends of routes that a search met.

use std::alloc::{AllocError, Global};

/// The most further routes that a search tells.
const MOST_ROUTES: usize = 20;

/// The most of them with one last customer, so that they differ.
const MOST_OF_CUSTOMER: usize = 2;

/// A label after which a route may end.
#[derive(Clone, Copy)]
pub(crate) struct RouteEnd {
    /// The reduced cost of the route, in grains.
    pub(crate) value: i64,
    pub(crate) last: u16,
    /// Where the label stands.
    pub(crate) index: usize,
}

/// The ends to be told: the cheapest, which stand first.
pub(crate) fn cheapest(alloc: Global, ends: &[RouteEnd]) -> Result<Vec<RouteEnd>, AllocError> {
    let mut chosen: Vec<RouteEnd> = Vec::new(alloc);
    for end in ends {
        let same = chosen.iter().filter(|other| other.last == end.last);
        if chosen.len() < MOST_ROUTES && same.count() < MOST_OF_CUSTOMER {
            chosen.push(*end)?;
        }
    }
    Ok(chosen)
}
