//! Search for routes with time windows by ruin and recreate (Schrimpf et al. 2000), with the string removals
//! of Christiaens and Vanden Berghe (2020), and with changes of tails (Potvin and Rousseau 1995). Whoever takes
//! its routes checks them, so no function has a contract but that it is safe and ends.
#![tactic(auto)]

mod absence;
mod cooling;
mod drawing;
mod order;
mod plan;
mod ruin_search;
mod rule;
mod side;
mod tables;
mod tails;
mod trials;
mod window;

pub use cooling::Progress;
pub use ruin_search::{RuinSearch, STEPS_OF_CUSTOMER};
