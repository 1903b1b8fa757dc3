//! What a refusal ends.

use desk::LookFault;
use incumbent_book::BookFault;
use search::SearchFault;
use std::alloc::AllocError;

/// What a refusal ends.
#[derive(Clone, Copy, Debug, PartialEq, Eq)]
pub(crate) enum TurnFault {
    /// The turn.
    EndsTurn,
    /// The worker's work.
    EndsWork,
}

impl From<AllocError> for TurnFault {
    fn from(_e: AllocError) -> TurnFault {
        TurnFault::EndsWork
    }
}

impl From<SearchFault> for TurnFault {
    fn from(_fault: SearchFault) -> TurnFault {
        TurnFault::EndsWork
    }
}

impl From<BookFault> for TurnFault {
    fn from(fault: BookFault) -> TurnFault {
        match fault {
            BookFault::Memory
            | BookFault::JournalFull
            | BookFault::LeavesFull
            | BookFault::SetsFull
            | BookFault::RowsFull => TurnFault::EndsWork,
            _ => TurnFault::EndsTurn,
        }
    }
}

impl From<LookFault> for TurnFault {
    fn from(fault: LookFault) -> TurnFault {
        match fault {
            LookFault::Memory => TurnFault::EndsWork,
            LookFault::NotALeaf => TurnFault::EndsTurn,
        }
    }
}
