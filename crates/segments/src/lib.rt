//! Segments of routes, and lists of items that may be joined.
#![tactic(auto)]

mod fault;
mod laws;
mod levels;
mod linked;
mod plan_trees;
mod segment;
mod stretch;
mod tree;

pub use fault::TreeFault;
pub use laws::{laws_of_segments, laws_of_trees};
pub use linked::Linked;
pub use plan_trees::PlanTrees;
pub use segment::Segment;
pub use tree::RouteTree;
