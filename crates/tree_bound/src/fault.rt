//! Why there is no bound.

ghost use Rattle.std.specs.Prelude.{◌≡◌};
ghost use Rattle.tree_bound.specs.declared.fault.BoundFault.TheVariants.{Memory};

use std::alloc::{AllocError, AllocFailed};
use thiserror::Error;

/// Why no bound was found.
#[derive(Clone, Copy, Debug, PartialEq, Eq, Error)]
pub enum BoundFault {
    /// A growth was refused.
    #[error("Memory")]
    Memory,
    /// As many pairs stand for one leaf as the caller allowed, and one more has to be kept.
    #[error("StateLimit")]
    StateLimit,
}

impl From<AllocError> for BoundFault {
    ghost from_gives = { λ _ e. e ≡ Memory };

    fn from(_e: AllocError) -> BoundFault {
        BoundFault::Memory
    }
}

impl<T: Drop> From<AllocFailed<T>> for BoundFault {
    ghost from_gives = { λ _ e. e ≡ Memory };

    fn from(_e: AllocFailed<T>) -> BoundFault {
        BoundFault::Memory
    }
}
