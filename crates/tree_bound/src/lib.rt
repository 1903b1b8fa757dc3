//! The bound of a certificate's tree: the least of all leaves' values, by a fold. Whether a leaf's value is
//! less than the least so far is found by a table of labels over last customer, load and memory.
#![tactic(auto)]

mod bucket;
mod difference;
mod dive;
mod fault;
mod label;
mod leaf_rows;
mod leaf_sets;
mod setting;
mod steps;
mod table;
mod tree;
mod value;
mod work;

pub use fault::BoundFault;
pub use tree::bound;
