//! Routes met in pricings: what each says of prices, and the projection of prices onto it; the arcs that
//! the routes use; and how far splits by arcs have raised prices. Any prices are sound, whatever stands
//! in a pool, so only the range of the prices that come out has a contract.
#![tactic(auto)]

mod arc_flow;
mod binding;
mod cut_part;
mod fours;
mod half_space;
mod merit;
mod noted;
mod pooled_cut;
mod pooled_route;
mod projection;
mod pseudocosts;
mod step;
mod sweeps;
mod trial;
mod vehicle_price;

pub use arc_flow::{ArcFlow, merge};
pub use cut_part::{CutPart, Side};
pub use fours::Four;
pub use half_space::HalfSpace;
pub use merit::Merit;
pub use pooled_cut::{CutKind, PooledCut};
pub use pooled_route::{
    GRAINS_OF_TENTH, PooledRoute, RouteShare, WeightedRoute, arc_cost, cost_of,
};
pub use projection::Projection;
pub use pseudocosts::{Child, Pseudocosts};
pub use trial::Trial;
pub use vehicle_price::{VehiclePrice, scaled};
