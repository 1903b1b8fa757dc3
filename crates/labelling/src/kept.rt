//! What searches hand on.

use labels::Lookup;
use std::alloc::Global;

/// What a search for the least reduced cost tells beside its answer, and hands on to the next one. No contract speaks
/// of it: it decides only how fast an answer is found, and who takes a route from it has to check it.
#[derive(Drop)]
pub struct Kept {
    /// Further routes that the last search met, by their customers: where a route of low reduced cost was known,
    /// those that cost less than it does.
    pub met: Vec<Vec<u16>>,
    /// How much work the last search was, in units: the steps from labels to customers, four times each, those that
    /// other labels spared, half of the open steps, the customers that bounds looked at, and how often a label
    /// looked at the labels that remember the same customers. Where it was much, bounds by load pay in the next.
    pub work: u64,
    /// Where it looked its labels up: the memory serves again.
    pub(crate) lookup: Option<Lookup>,
    /// Whether its labels were many, so that bounds on what may follow pay from the beginning.
    pub(crate) are_many: bool,
}

impl Kept {
    /// What the first search has. It takes no memory. No contract: it decides only how fast an answer is found.
    pub fn nothing(alloc: Global) -> Kept {
        Kept {
            met: Vec::new(alloc),
            work: 0,
            lookup: None,
            are_many: false,
        }
    }
}
