//! Why a run gives no outcome.

ghost use Rattle.std.specs.Prelude.{◌≡◌};
ghost use Rattle.search_workers.specs.declared.fault.RunFault.TheVariants.{Memory};

use search::SearchFault;
use std::alloc::AllocError;
use thiserror::Error;

/// Why a run gives no outcome.
#[derive(Clone, Copy, Debug, PartialEq, Eq, Error)]
pub enum RunFault {
    /// Memory was refused before the workers began.
    #[error("Memory")]
    Memory,
    /// A setting is outside its range.
    #[error("BadSettings")]
    BadSettings,
    /// As many labels stand as the settings allow, before a first bound was found.
    #[error("LabelLimit")]
    LabelLimit,
    /// A thread was refused.
    #[error("NoThread")]
    NoThread,
}

impl From<AllocError> for RunFault {
    ghost from_gives = { λ _ e. e ≡ Memory };

    fn from(_e: AllocError) -> RunFault {
        RunFault::Memory
    }
}

impl From<SearchFault> for RunFault {
    ghost from_gives = { λ _ e. e ≡ Memory };

    fn from(_e: SearchFault) -> RunFault {
        RunFault::Memory
    }
}
