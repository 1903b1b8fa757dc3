//! Workers that look for plans and raise bounds, each in a thread of its own, at one book.
#![tactic(auto)]

mod at_desk;
mod begun;
mod crew;
mod fault;
mod opening;
mod post;
mod regrown;
mod running;

pub use begun::{Begun, GivenTree};
pub use closing::{CloseAloneFault, Found, close_alone};
pub use fault::RunFault;
pub use fronts::Nearness;
pub use run_settings::{MOST_PARTS, Part, Settings, generator};
pub use running::{run, run_from};
pub use worker_turns::{
    Gate, GatePoint, Hub, LeavesLeft, NoGate, Nodes, Team, Worker, bound_worker, lending_worker,
    search_worker,
};
