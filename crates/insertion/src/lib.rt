//! Plans built by sequential insertion (Solomon 1987, heuristic I1).
#![tactic(auto)]

mod building;
mod built;
mod fault;
mod opening;
mod place;
mod proposal;
mod route;
mod weights;

pub use building::{build, build_whole};
pub use built::Built;
pub use fault::InsertFault;
pub use weights::Weights;
