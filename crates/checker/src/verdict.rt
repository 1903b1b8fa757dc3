//! What the checker says of texts that are right.

use tenths::Tenths;

/// What an accepted certificate, and a plan where a solution was handed in, say of every plan of the
/// instance. Costs and bounds are tenths of a unit.
#[derive(Clone, Copy, Debug, PartialEq, Eq)]
pub enum Verdict {
    /// The plan costs exactly the bound: no plan is cheaper.
    Best { cost: Tenths },
    /// The plan costs more than the bound, which no plan's cost is below.
    Gap { cost: Tenths, bound: Tenths },
    /// No plan was handed in, and the bound is above what any plan can cost: there is none.
    NoPlan,
    /// No plan was handed in; no plan costs less than the bound.
    BoundOnly { bound: Tenths },
}
