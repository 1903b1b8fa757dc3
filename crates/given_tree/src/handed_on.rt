//! What the pricings of a tree hand on from one to the next.

use labelling::Kept;
use priced_sets::NeededSets;
use solomon_reader::Instance;
use std::alloc::{AllocError, Global};

/// What the pricings of a tree hand on from one to the next: it spares work, and any answers are the same.
#[derive(Drop)]
pub(crate) struct HandedOn<'i> {
    /// The sets that are known to be needed.
    pub(crate) needed: NeededSets<'i>,
    /// How pricings went.
    pub(crate) kept: Kept,
}

impl<'i> HandedOn<'i> {
    /// What the first pricing begins with.
    pub(crate) fn nothing(
        alloc: Global,
        instance: &'i Instance,
    ) -> Result<HandedOn<'i>, AllocError> {
        Ok(HandedOn {
            needed: NeededSets::new(alloc, instance)?,
            kept: Kept::nothing(alloc),
        })
    }
}
