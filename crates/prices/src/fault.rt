//! Why prices give no value.

ghost use Rattle.std.specs.Prelude.{◌≡◌};
ghost use Rattle.prices.specs.declared.fault.PriceFault.TheVariants as price;

use labelling::LabelFault;
use std::alloc::AllocError;
use thiserror::Error;

/// Why prices give no value.
#[derive(Clone, Copy, Debug, PartialEq, Eq, Error)]
pub enum PriceFault {
    /// A growth was refused.
    #[error("Memory")]
    Memory,
    /// As many labels stand as the caller allowed.
    #[error("LabelLimit")]
    LabelLimit,
    /// A price is outside the range of prices.
    #[error("PriceRange")]
    PriceRange,
}

impl From<AllocError> for PriceFault {
    ghost from_gives = { λ _ e. e ≡ price.Memory };

    fn from(_e: AllocError) -> PriceFault {
        PriceFault::Memory
    }
}

impl From<LabelFault> for PriceFault {
    ghost use Rattle.prices.specs.Faults.{fault_of};

    ghost from_gives = { λ l e. e ≡ fault_of l };

    fn from(fault: LabelFault) -> PriceFault {
        match fault {
            LabelFault::Memory => PriceFault::Memory,
            LabelFault::LabelLimit => PriceFault::LabelLimit,
        }
    }
}
