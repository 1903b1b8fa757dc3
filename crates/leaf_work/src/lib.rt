//! How a leaf is worked at, as closing and bound workers do it: its prices come near the best bound that it can have, by
//! projection onto the routes met so far; those routes may be a plan; and it is split by an arc, or has its value where
//! no arc is left open. Such a region leaves at most one route from each customer, so prices are told at which the
//! leaf's value is the cost of its one plan, or above the ceiling where it has none.
#![tactic(auto)]

mod chain;
mod child;
mod cut_round;
mod dear;
mod decided_prices;
mod effort;
mod fee;
mod first;
mod gathering;
mod leaf;
mod pool_plan;
mod pricing;
mod quick_round;
mod raising;
mod refuting;
mod row_prices;
mod serving;
mod starting;
mod tasks;
mod trying;

pub use child::Children;
pub use effort::{Effort, goal_of};
pub use first::{FirstLimits, first_leaf};
pub use leaf::{SplitOrDecided, split_or_decide};
pub use pool_plan::met_plan;
pub use price_way::{
    Ascent, ChildStart, Goal, PricingState, RoutePool, counted_routes, first_rise,
};
pub use raising::{Raised, raise};
