//! Why a build ends without an answer.

ghost use Rattle.std.specs.Prelude.{◌≡◌};
ghost use Rattle.insertion.specs.declared.fault.InsertFault.TheVariants as refusal;

use std::alloc::AllocError;
use thiserror::Error;

/// Why a build has no answer.
#[derive(Clone, Copy, Debug, PartialEq, Eq, Error)]
pub enum InsertFault {
    /// Memory was refused.
    #[error("Memory")]
    Memory,
}

impl From<AllocError> for InsertFault {
    ghost from_gives = { λ _ e. e ≡ refusal.Memory };

    fn from(_e: AllocError) -> InsertFault {
        InsertFault::Memory
    }
}
