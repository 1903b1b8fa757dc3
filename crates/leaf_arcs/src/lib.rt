//! What the pricing of a leaf of a certificate's tree stands on: the arcs that its decisions leave allowed,
//! what is remembered of a route by neighbour lists, and floors under what may follow.
#![tactic(auto)]

mod arcs;
mod bits;
mod decision;
mod departures;
mod entries;
mod floor;
mod free_arcs;
mod leaf;
mod memory;
mod neighbours;
mod network;
mod priced_set;
mod rows;
mod slots;
mod task;

pub use arcs::{AllowedArc, ArcRow};
pub use decision::Decision;
pub use floor::Floor;
pub use leaf::Leaf;
pub use memory::{contains, is_subset};
pub use network::Network;
pub use priced_set::PricedSet;
pub use task::Task;
