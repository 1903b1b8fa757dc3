//! A quick search for relaxed routes of low reduced cost: few steps from each customer, and few labels of
//! each. It may miss the cheapest ones, and nobody relies on what it finds: any prices are sound, whatever
//! routes they were moved by.
#![tactic(auto)]

mod likely;
mod quick_label;
mod quick_search;
mod stairs;
mod width;

pub use likely::Likely;
pub use quick_search::{QuickRoute, QuickRoutes, quick_routes};
pub use width::Width;
