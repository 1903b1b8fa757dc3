//! What a search goes by beside its task.

use fronts::Nearness;
use std::alloc::Global;

/// What a search for the least reduced cost goes by beside its task. No contract speaks of it: it decides only how
/// fast the answer is found.
#[derive(Drop)]
pub struct Hints<'n> {
    /// The tables of the instance, lent: others are made where these are of another instance, or for another
    /// number of neighbours.
    pub nearness: Option<&'n Nearness<'n>>,
    /// The customers, in order, of a route that may be a relaxed one of low reduced cost; empty where none
    /// is known.
    pub known: Vec<u16>,
}

impl<'n> Hints<'n> {
    /// Nothing is known. It takes no memory. No contract: it decides only how fast an answer is found.
    pub fn none(alloc: Global) -> Hints<'n> {
        Hints {
            nearness: None,
            known: Vec::new(alloc),
        }
    }

    /// The tables are known. It takes no memory. No contract: as for `none`.
    pub fn near(alloc: Global, nearness: &'n Nearness<'n>) -> Hints<'n> {
        Hints {
            nearness: Some(nearness),
            known: Vec::new(alloc),
        }
    }
}
