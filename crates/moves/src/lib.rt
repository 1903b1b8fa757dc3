//! Five kinds of moves of a plan, what they change of its cost, and the best of a kind.
#![tactic(auto)]

mod applying;
mod candidate;
mod change;
mod changing;
mod choosing;
mod costing;
mod fault;
mod first_chain;
mod flanks;
mod parallel;
mod ranges;
mod second_route;
mod sizes;
mod trees;
mod valuing;

pub use applying::{apply, moved};
pub use candidate::{Chain, KINDS, Kind, Move, Place};
pub use choosing::{best, best_under};
pub use fault::MoveFault;
pub use parallel::{best_parallel, best_under_parallel};
pub use sizes::MOST_CHAIN;
pub use trees::trees_of;
pub use valuing::value;
