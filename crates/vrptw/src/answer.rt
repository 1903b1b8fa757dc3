//! What the solver answers.

ghost use Rattle.std.specs.Prelude.{◌≡◌};
ghost use Rattle.vrptw.specs.declared.answer.SolveFault.TheVariants as fault;

use closing::CloseAloneFault;
use search::SearchFault;
use search_workers::RunFault;
use solomon_reader::ReadFault;
use std::alloc::AllocError;
use tenths::Tenths;
use thiserror::Error;

/// The answer for an instance; costs and bounds are tenths of a unit.
#[derive(Clone, Copy, Debug, PartialEq, Eq)]
pub enum Answer {
    /// A plan whose cost equals the bound: no plan is cheaper.
    Best { cost: Tenths },
    /// A plan, and a lower bound of every plan's cost that isn't its cost.
    Gap { cost: Tenths, bound: Tenths },
    /// The bound is above what any plan can cost, so there is no plan.
    NoPlan,
    /// No plan was found.
    Open { bound: Tenths },
}

/// Why the solver gives no answer.
#[derive(Clone, Copy, Debug, PartialEq, Eq, Error)]
pub enum SolveFault {
    /// Memory was refused; nothing was written.
    #[error("Memory")]
    Memory,
    /// The text is no instance; nothing was written.
    #[error("Instance: {0}")]
    Instance(ReadFault),
    /// A setting is outside its range; nothing was written.
    #[error("BadSettings")]
    BadSettings,
    /// As many labels stand as the settings allow, before a first bound was found; nothing was
    /// written.
    #[error("LabelLimit")]
    LabelLimit,
    /// A thread was refused; nothing was written.
    #[error("NoThread")]
    NoThread,
    /// The tree has as many leaves as the caller allowed, and cost and bound are still apart; nothing was written.
    #[error("LeafLimit")]
    LeafLimit,
    /// There are more customers than can be closed; nothing was written.
    #[error("TooLarge")]
    TooLarge,
    /// A sink failed: the first holds a beginning and the second nothing, or the first all and the
    /// second a beginning.
    #[error("Device")]
    Device,
}

impl From<AllocError> for SolveFault {
    ghost from_gives = { λ _ e. e ≡ fault.Memory };

    fn from(_e: AllocError) -> SolveFault {
        SolveFault::Memory
    }
}

impl From<RunFault> for SolveFault {
    ghost use Rattle.vrptw.specs.Answers.{IsFaultOfRun};

    ghost from_gives = { IsFaultOfRun };

    fn from(fault: RunFault) -> SolveFault {
        match fault {
            RunFault::Memory => SolveFault::Memory,
            RunFault::BadSettings => SolveFault::BadSettings,
            RunFault::LabelLimit => SolveFault::LabelLimit,
            RunFault::NoThread => SolveFault::NoThread,
        }
    }
}

impl From<CloseAloneFault> for SolveFault {
    ghost use Rattle.vrptw.specs.Closing.{IsFaultOfClosing};

    ghost from_gives = { IsFaultOfClosing };

    fn from(fault: CloseAloneFault) -> SolveFault {
        match fault {
            CloseAloneFault::Memory => SolveFault::Memory,
            CloseAloneFault::LeafLimit { .. } => SolveFault::LeafLimit,
            CloseAloneFault::TooLarge => SolveFault::TooLarge,
        }
    }
}

impl From<SearchFault> for SolveFault {
    ghost from_gives = { λ _ e. e ≡ fault.Memory };

    fn from(_e: SearchFault) -> SolveFault {
        SolveFault::Memory
    }
}
