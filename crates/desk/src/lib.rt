//! The book of a search behind a lock, for many workers, and the share of each.
#![tactic(auto)]

mod amounts;
mod blanks;
mod dealing;
mod each_ledger;
mod fault;
mod ledgers;
mod locked;
mod naming;
mod share;
mod shared;
mod tokens;

pub use blanks::Blanks;
pub use fault::{DeskFault, LookFault};
pub use locked::Locked;
pub use naming::Naming;
pub use share::Share;
pub use shared::Desk;
