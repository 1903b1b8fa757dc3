//! Sets of customers that have a price at a leaf: each needs as many entries as it is said to, and what steps are paid
//! for entering them.
#![tactic(auto)]

mod entering;
mod needed_sets;
mod priced_set;
mod priced_sets;

pub use entering::entry_prices;
pub use needed_sets::NeededSets;
pub use priced_set::{ListedSet, PricedSet};
pub use priced_sets::PricedSets;
