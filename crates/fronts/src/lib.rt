//! Where a vehicle stands after the first stops of a relaxed route (the ng-routes of Baldacci, Mingozzi
//! and Roberti), what it remembers, and where it may go.
#![tactic(auto)]

mod customer_set;
mod front;
mod memory;
mod nearness;
mod neighbours;
mod open_steps;
mod payment;
mod slots;
mod step;
mod tables;
mod task;

pub use customer_set::CustomerSet;
pub use front::Front;
pub use memory::Memory;
pub use nearness::Nearness;
pub use neighbours::LIST_SIZE;
pub use payment::Payment;
pub use slots::Slots;
pub use step::Step;
pub use tables::allowed_rows;
pub use task::Task;
