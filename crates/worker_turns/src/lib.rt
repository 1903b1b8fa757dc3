//! The turns of one worker: it looks for plans or raises bounds, and brings what it finds to a hub.
#![tactic(auto)]

mod bounding;
mod gate;
mod hub;
mod leaves_left;
mod nodes;
mod pricing;
mod searching;
mod team;
mod trade;
mod turn_fault;
mod turns;
mod worker;

pub use gate::{Gate, GatePoint, NoGate};
pub use hub::Hub;
pub use leaves_left::LeavesLeft;
pub use nodes::Nodes;
pub use pricing::pricing_labels;
pub use team::Team;
pub use turns::{bound_worker, lending_worker, search_worker};
pub use worker::{Worker, is_near};
