//! Where the ascent at a child starts.

use branching::Arc;
use pooled_routes::{Child, RouteShare, Trial};

/// What is known of a child when its leaf is split: the prices of its trial and the multipliers of the
/// leaf's routes, from which its ascent starts, and from where its merit rises. Any child may go without
/// one, since any prices are sound.
#[derive(Drop)]
pub struct ChildStart {
    pub arc: Arc,
    pub child: Child,
    /// The merit of the split leaf's centre, in grains.
    pub merit: i128,
    /// Nothing where the child wasn't tried.
    pub trial: Option<Trial>,
    /// The numbers of the cuts whose prices the trial has, in their order.
    pub cuts: Vec<u64>,
    /// What the routes of the leaf had as multipliers.
    pub shares: Vec<RouteShare>,
}
