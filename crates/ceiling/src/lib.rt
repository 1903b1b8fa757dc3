//! Two words that many threads move without waiting: a cost that only falls, and a bound that only
//! rises.
#![tactic(auto)]

mod closing;
mod fault;
mod law;
mod seat;
mod shared;

pub use fault::CeilingFault;
pub use seat::CeilingSeat;
pub use shared::Ceiling;
