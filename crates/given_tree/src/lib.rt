//! The tree of a certificate grown in a fresh book: the book splits its leaves by the same arcs, and takes the prices
//! of the leaves, so its bound is at least the bound of the tree.
#![tactic(auto)]

mod child;
mod fault;
mod given;
mod growing;
mod handed_on;
mod leaf;
mod leaf_rows;
mod leaf_sets;
mod pricing;
mod replaying;
mod splitting;

pub use fault::ReplayFault;
pub use replaying::replay;
