//! The least reduced cost of a relaxed route (the ng-routes of Baldacci, Mingozzi and Roberti), by
//! labels: the first stops of routes, with what the further ones depend on.
#![tactic(auto)]

mod answering;
mod extending;
mod fault;
mod following;
mod hints;
mod kept;
mod labeller;
mod least_cost;
mod pricing;
mod pricing_task;
mod route_ends;
mod stepping;

pub use fault::LabelFault;
pub use hints::Hints;
pub use kept::Kept;
pub use least_cost::Least;
pub use pricing::{least, least_by_hints};
pub use pricing_task::PricingTask;
