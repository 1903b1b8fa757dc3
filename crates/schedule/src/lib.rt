//! Walks of routes, and the plans of an instance.
#![tactic(auto)]

mod cheaper_plan;
mod finding;
mod marks;
mod plan;
mod summary;
mod walking;

pub use cheaper_plan::cheaper;
pub use plan::Feasible;
pub use solomon_reader::PlanFault;
pub use summary::Walk;
pub use walking::walk;
