//! Why an instance isn't closed.

ghost use Rattle.std.specs.Prelude.{◌≡◌};
ghost use Rattle.closing.specs.declared.fault.CloseAloneFault.TheVariants as fault;

use branching::TreeNode;
use std::alloc::AllocError;
use tenths::Tenths;
use thiserror::Error;

/// The most customers of an instance that is closed.
pub const MOST_CLOSED: u16 = 24;

/// Why an instance isn't closed.
#[derive(Debug, Drop, Error)]
pub enum CloseAloneFault {
    /// A growth was refused.
    #[error("Memory")]
    Memory,
    /// The tree has as many leaves as the caller allowed, and its bound is below the cost.
    #[error("LeafLimit")]
    LeafLimit {
        /// The cost of a plan, the cheapest found; told where one was, and so where there is a vehicle
        /// for each customer and each can be served alone.
        cost: Option<Tenths>,
        /// The bound of the tree.
        bound: Tenths,
        /// The tree, in preorder.
        nodes: Vec<TreeNode>,
    },
    /// There are more customers than `MOST_CLOSED`.
    #[error("TooLarge")]
    TooLarge,
}

impl From<AllocError> for CloseAloneFault {
    ghost from_gives = { λ _ e. e ≡ fault.Memory };

    fn from(_e: AllocError) -> CloseAloneFault {
        CloseAloneFault::Memory
    }
}
