//! Why a ceiling refuses.

ghost use Rattle.std.specs.Prelude.{◌≡◌};
ghost use Rattle.ceiling.specs.declared.fault.CeilingFault.TheVariants.{Memory};

use std::alloc::{AllocError, AllocFailed};
use thiserror::Error;

/// Why no ceiling was made, or why it wasn't closed.
#[derive(Clone, Copy, Debug, PartialEq, Eq, Error)]
pub enum CeilingFault {
    /// Memory was refused.
    #[error("Memory")]
    Memory,
    /// Not all seats came back.
    #[error("MissingSeat")]
    MissingSeat,
}

impl From<AllocError> for CeilingFault {
    ghost from_gives = { λ _ e. e ≡ Memory };

    fn from(_e: AllocError) -> CeilingFault {
        CeilingFault::Memory
    }
}

impl<T: Drop> From<AllocFailed<T>> for CeilingFault {
    ghost from_gives = { λ _ e. e ≡ Memory };

    fn from(_e: AllocFailed<T>) -> CeilingFault {
        CeilingFault::Memory
    }
}
