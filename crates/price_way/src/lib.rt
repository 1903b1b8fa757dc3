//! The way of prices from one centre to the next, and the pool of routes that it goes by.
#![tactic(auto)]

mod ascent;
mod centre;
mod child_start;
mod cut_pool;
mod cut_prices;
mod goal;
mod leaf_cuts;
mod pool_trial;
mod pricing_state;
mod quick_way;
mod rises;
mod route_pool;
mod work;

pub use ascent::Ascent;
pub use child_start::ChildStart;
pub use cut_pool::CutPool;
pub use goal::{Goal, IDLE_PRICINGS, counted_routes};
pub use leaf_cuts::LeafCuts;
pub use pool_trial::{ChildTrial, PoolTrial};
pub use pricing_state::PricingState;
pub use quick_way::{QuickWay, WHOLE, WIDEST};
pub use rises::{first_rise, rise_at};
pub use route_pool::RoutePool;
