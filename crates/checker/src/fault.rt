//! Why texts are refused.

ghost use Rattle.std.specs.Prelude.{◌≡◌};
ghost use Rattle.checker.specs.declared.fault.CheckFault.TheVariants.{Memory};

use certificate::CertFault;
use sol_writer::SolFault;
use solomon_reader::{PlanFault, ReadFault};
use std::alloc::{AllocError, AllocFailed};
use tenths::Tenths;
use thiserror::Error;

/// Why the checker gives no verdict. The first is told in the order instance, certificate, solution,
/// name, size, needs, bound, plan, cost; `Memory` where a growth was refused, and `StateLimit` before the
/// bound is known. Costs and bounds are tenths of a unit.
#[derive(Clone, Copy, Debug, PartialEq, Eq, Error)]
pub enum CheckFault {
    /// Memory was refused.
    #[error("Memory")]
    Memory,
    /// The first text is no instance.
    #[error("Instance: {0}")]
    Instance(ReadFault),
    /// The second text is no certificate.
    #[error("Certificate: {0}")]
    Certificate(CertFault),
    /// The third text is no solution.
    #[error("Solution: {0}")]
    Solution(SolFault),
    /// The certificate names another instance.
    #[error("OtherName")]
    OtherName,
    /// The certificate is for another number of customers.
    #[error("OtherSize")]
    OtherSize,
    /// A set isn't known to need so many entries as its line says: neither its demands fill so many
    /// vehicles, nor, for a need of two, is it too much for one vehicle in time.
    #[error("NeedTooGreat line {line}")]
    NeedTooGreat { line: u64 },
    /// The printed bound isn't that of the tree.
    #[error("BoundDiffers")]
    BoundDiffers { printed: Tenths, derived: Tenths },
    /// The routes are no plan.
    #[error("PlanRefused: {0}")]
    PlanRefused(PlanFault),
    /// The printed cost isn't that of the plan.
    #[error("CostDiffers")]
    CostDiffers { printed: Tenths, real: Tenths },
    /// As many pairs of time and cost as the limit allows stand at once for a leaf, and one more has
    /// to be kept.
    #[error("StateLimit")]
    StateLimit,
}

impl From<AllocError> for CheckFault {
    ghost from_gives = { λ _ e. e ≡ Memory };

    fn from(_e: AllocError) -> CheckFault {
        CheckFault::Memory
    }
}

impl<T: Drop> From<AllocFailed<T>> for CheckFault {
    ghost from_gives = { λ _ e. e ≡ Memory };

    fn from(_e: AllocFailed<T>) -> CheckFault {
        CheckFault::Memory
    }
}

impl From<ReadFault> for CheckFault {
    ghost use Rattle.checker.specs.Checking.{IsFaultOfReader};

    ghost from_gives = { IsFaultOfReader };

    fn from(fault: ReadFault) -> CheckFault {
        match fault {
            ReadFault::Memory => CheckFault::Memory,
            fault => CheckFault::Instance(fault),
        }
    }
}
