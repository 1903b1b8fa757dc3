//! How much of the routes' multipliers the arcs carry.
//!
//! No contract speaks of it: it is a rule of search, and any prices are sound.

use branching::Arc;
use std::alloc::AllocError;

/// How much of the routes' multipliers an arc carries, in grains; the rise stands for one route.
#[derive(Clone, Copy)]
pub struct ArcFlow {
    /// The arc.
    pub arc: Arc,
    /// How much it carries.
    pub flow: i64,
}

impl ArcFlow {
    /// Whether the arc carries more than a fiftieth of a route, and less than all but a fiftieth.
    pub fn is_divided(self, rise: i64) -> bool {
        let part = rise / 50;
        self.flow > part && self.flow < rise.saturating_sub(part)
    }

    /// How far the arc is from one half of a route, in grains; somewhat more for an arc of the depot. An
    /// arc that is nearer serves better for a split.
    pub fn distance_from_half(self, rise: i64) -> u64 {
        let from_half = self.flow.abs_diff(rise / 2);
        if self.arc.from == 0 || self.arc.to == 0 {
            from_half.saturating_add(rise.unsigned_abs() / 10)
        } else {
            from_half
        }
    }
}

/// Each arc once, with all that it carries.
pub fn merge(mut arcs: Vec<ArcFlow>, mut merged: Vec<ArcFlow>) -> Result<Vec<ArcFlow>, AllocError> {
    arcs.sort_by_key(|flow| (flow.arc.from, flow.arc.to))?;
    for flow in &arcs {
        match merged.last_mut() {
            Some(last) if last.arc == flow.arc => last.flow = last.flow.saturating_add(flow.flow),
            _ => merged.push(*flow)?,
        }
    }
    Ok(merged)
}
