//! Rows of three customers that routes, weighted, are charged by more often than a plan can be (Jepsen, Petersen,
//! Spoorendonk and Pisinger 2008). No contract speaks of it: a row holds for every plan, and that more could be found is
//! nobody's claim.
#![tactic(auto)]

mod candidates;
mod found_rows;
mod pair_weights;
mod row_search;
mod visits;

pub use found_rows::FoundRow;
pub use row_search::{RowFinds, find_rows};
