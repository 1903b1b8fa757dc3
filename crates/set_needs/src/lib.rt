//! What sets of customers need: whether each plan enters a set at least so many times, by its load or since one vehicle
//! can't serve it in time.
#![tactic(auto)]

mod deciding;
mod latest;
mod serving;
mod ways;

pub use deciding::is_needed;
pub use ways::QuickestWays;
