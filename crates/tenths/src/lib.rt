//! Whole tenths, distances between points, the sinks that texts are written to, and texts cut into
//! parts, with the numbers in them.
#![tactic(auto)]

mod failure_count;
mod laws;
mod lines;
mod numbers;
mod parts;
mod places;
mod sink;
mod sinks;
mod table;
mod value;
mod writing;

pub use failure_count::FailureCount;
pub use laws::texts_differ;
pub use lines::Lines;
pub use numbers::{NUMBER_CAP, number, read_tenths, signed};
pub use parts::Parts;
pub use places::{Point, distance, root};
pub use sink::{Sink, SinkFault};
pub use sinks::{MemorySink, StdSink};
pub use table::{Table, TableFault};
pub use value::{MOST_TENTHS, Tenths};
pub use writing::{
    Device, write_number_line, write_pieces, write_tenths, write_tenths_line, write_text,
};
