//! What a run is given beside an instance: how much work goes into it, at which open leaves of a tree, and
//! where its random words start.
#![tactic(auto)]

mod part;
mod random;
mod settings;

pub use part::{MOST_PARTS, Part};
pub use random::generator;
pub use settings::{MOST_BOUNDERS, MOST_GAP, MOST_LABELS, MOST_SEARCHERS, MOST_TURNS, Settings};
