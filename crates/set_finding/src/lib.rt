//! Sets of customers that routes, weighted, enter less often than each plan has to: by their load (Laporte and Nobert
//! 1983), or since no vehicle can serve them in time (Kohl, Desrosiers, Madsen, Solomon and Soumis 1999). No contract
//! speaks of it: whether a set is needed is asked again where it gets a price, and that more could be found is nobody's
//! claim.
#![tactic(auto)]

mod clusters;
mod flow_table;
mod found_sets;
mod growing;
mod inside;
mod order_check;
mod set_search;
mod starts;
mod timed_sets;

pub use found_sets::FoundSet;
pub use set_search::{SetFinds, SetSearch};
