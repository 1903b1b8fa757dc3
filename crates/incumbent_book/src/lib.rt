//! The book of a search: its incumbent plan, the tree of its splits, and the history of what
//! was accepted.
#![tactic(auto)]

mod arena;
mod book;
mod bounded;
mod event;
mod fault;
mod gap;
mod growing;
mod index;
mod judging;
mod laws;
mod limits;
mod listing;
mod node;
mod offered;
mod outcome;
mod room;
mod row_list;
mod set_list;
mod subset_row;
mod taking;
mod wanted;

pub use book::Book;
pub use event::Event;
pub use fault::{BookFault, OpenFault};
pub use gap::{Gap, Steps};
pub use laws::laws_of_histories;
pub use limits::Limits;
pub use offered::Offered;
pub use outcome::{Outcome, OutcomeParts};
pub use subset_row::SubsetRow;
