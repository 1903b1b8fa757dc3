//! Labels, the first stops of relaxed routes: what each is, which it dominates, and where they are looked up.
#![tactic(auto)]

mod best;
mod buckets;
mod customer_labels;
mod label;
mod lookup;
mod sparing;

pub use best::Best;
pub use customer_labels::Entry;
pub use label::Label;
pub use lookup::Lookup;
