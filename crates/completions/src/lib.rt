//! Bounds on what may follow on the first stops of a relaxed route.
#![tactic(auto)]

mod bound;
mod brink;
mod grid;
mod part;
mod table;

pub use bound::{Bound, RowBound};
pub use table::Completions;
