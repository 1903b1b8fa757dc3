//! Why a tree wasn't grown.

ghost use Rattle.std.specs.Prelude.{◌≡◌, ◌≢◌};
ghost use Rattle.given_tree.specs.declared.fault.ReplayFault.TheVariants.{Memory, LabelLimit};

use incumbent_book::BookFault;
use labelling::LabelFault;
use std::alloc::{AllocError, AllocFailed};
use thiserror::Error;

/// Why a tree wasn't grown, or only in part.
#[derive(Clone, Copy, Debug, PartialEq, Eq, Error)]
pub enum ReplayFault {
    /// A growth was refused.
    #[error("Memory")]
    Memory,
    /// A pricing takes more labels than the caller allowed.
    #[error("LabelLimit")]
    LabelLimit,
    /// The book has no room for the tree, or the sets of a leaf can't have their prices as they stand.
    #[error("Unfit")]
    Unfit,
}

impl From<AllocError> for ReplayFault {
    ghost from_gives = { λ _ e. e ≡ Memory };

    fn from(_e: AllocError) -> ReplayFault {
        ReplayFault::Memory
    }
}

impl<T: Drop> From<AllocFailed<T>> for ReplayFault {
    ghost from_gives = { λ _ e. e ≡ Memory };

    fn from(_e: AllocFailed<T>) -> ReplayFault {
        ReplayFault::Memory
    }
}

impl From<LabelFault> for ReplayFault {
    ghost use Rattle.given_tree.specs.Faults.{fault_of};

    ghost from_gives = { λ l e. e ≡ fault_of l };

    fn from(fault: LabelFault) -> ReplayFault {
        match fault {
            LabelFault::Memory => ReplayFault::Memory,
            LabelFault::LabelLimit => ReplayFault::LabelLimit,
        }
    }
}

impl From<BookFault> for ReplayFault {
    ghost from_gives = { λ _ e. e ≢ LabelLimit };

    fn from(fault: BookFault) -> ReplayFault {
        match fault {
            BookFault::Memory => ReplayFault::Memory,
            _ => ReplayFault::Unfit,
        }
    }
}
