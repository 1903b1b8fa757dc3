//! Closing of small instances: a plan with the proof that no plan is cheaper, or the proof that there is
//! no plan.
#![tactic(auto)]

mod bare;
mod close;
mod fault;
mod first;
mod found;
mod growing;
mod growth;
mod laws;

pub use close::{close_alone, close_from};
pub use fault::{CloseAloneFault, MOST_CLOSED};
pub use found::Found;
pub use laws::depth_holds;
