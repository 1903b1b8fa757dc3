//! Why a pool refuses.

ghost use Rattle.std.specs.Prelude.{◌≡◌};
ghost use Rattle.node_pool.specs.declared.fault.PoolFault.TheVariants as refusal;

use std::alloc::AllocError;
use thiserror::Error;

/// Why a pool refuses.
#[derive(Clone, Copy, Debug, PartialEq, Eq, Error)]
pub enum PoolFault {
    /// Memory was refused.
    #[error("Memory")]
    Memory,
    /// The deque has taken as many numbers in its life as it has room for.
    #[error("Full")]
    Full,
    /// Not all passes of the deque came back.
    #[error("MissingPass")]
    MissingPass,
}

impl From<AllocError> for PoolFault {
    ghost from_gives = { λ _ e. e ≡ refusal.Memory };

    fn from(_e: AllocError) -> PoolFault {
        PoolFault::Memory
    }
}
