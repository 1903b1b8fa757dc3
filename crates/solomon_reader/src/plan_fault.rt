//! Why routes are no plan.

use thiserror::Error;

/// Why a list of routes is no plan. Of several faults that hold, the first in this order is told.
#[derive(Clone, Copy, Debug, PartialEq, Eq, Error)]
pub enum PlanFault {
    /// A route serves nobody.
    #[error("EmptyRoute")]
    EmptyRoute,
    /// A route visits a number that is no customer's.
    #[error("UnknownCustomer")]
    UnknownCustomer,
    /// A customer stands twice or more in the routes taken together.
    #[error("Twice")]
    Twice,
    /// A customer stands in no route.
    #[error("Missing")]
    Missing,
    /// The demands of a route are more than a vehicle holds.
    #[error("OverCapacity")]
    OverCapacity,
    /// A route comes too late to a customer, or back to the depot.
    #[error("Late")]
    Late,
    /// There are more routes than vehicles.
    #[error("FleetExceeded")]
    FleetExceeded,
}
