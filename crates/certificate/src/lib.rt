//! Certificates of a lower bound: their parts, and their texts written and read.
#![tactic(auto)]

mod cert;
mod fault;
mod head;
mod laws;
mod leaf;
mod line;
mod lists;
mod node;
mod nodes;
mod parts;
mod placed;
mod placed_prices;
mod reading;
mod row_lines;
mod rows;
mod set_lines;
mod sets;
mod shape;
mod tree;
mod version;
mod words;
mod writing;

pub use cert::Cert;
pub use fault::{CertFault, ShapeFault, WriteFault};
pub use laws::{first_fault_stays, texts_differ};
pub use node::CertNode;
pub use parts::CertParts;
pub use reading::read;
pub use rows::{RowPrice, SubsetRow};
pub use sets::{ListedSet, SetPrice};
pub use tree::CertTree;
pub use version::Version;
pub use writing::write;
