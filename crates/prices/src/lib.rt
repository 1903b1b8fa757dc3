//! Prices of the customers at a leaf, the lower bound that they give, and steps that raise it.
#![tactic(auto)]

mod fault;
mod high;
mod improvement;
mod improving;
mod narrowing;
mod priced;
mod range;
mod stepping;
mod valuing;

pub use fault::PriceFault;
pub use high::{high_price, high_prices};
pub use improving::improve;
pub use narrowing::{allows_route, child_regions};
pub use priced::Priced;
