//! A checker of certificates and solutions, apart from the solver: it shares no code with it but the instance, the
//! readers of the texts and what decides whether a set needs so many entries, each of which is proved to do exactly what
//! its definition says.
#![tactic(auto)]

mod checking;
mod fault;
mod judging;
mod needs;
mod serving;
mod verdict;
mod walking;

pub use checking::{accepted, check};
pub use fault::CheckFault;
pub use solomon_reader::PlanFault as PlanWhy;
pub use verdict::Verdict;
