//! Solutions as they are read.

use tenths::Tenths;

/// A solution as its text has it: routes of customers' numbers, and a cost in tenths. Whether it is
/// a plan, and what it costs, isn't known.
#[derive(Debug, Drop)]
pub struct Sol {
    pub routes: Vec<Vec<u16>>,
    pub cost: Tenths,
}
