//! Deques of node numbers, first in first out, from which other workers steal.
#![tactic(auto)]

mod audit;
mod fault;
mod hand;
mod law;
mod pass;
mod pool;
mod thief;

pub use fault::PoolFault;
pub use hand::Hand;
pub use law::{Known, Law, Pushed, Taken};
pub use pass::Pass;
pub use pool::Pool;
pub use thief::{Stolen, Thief};
