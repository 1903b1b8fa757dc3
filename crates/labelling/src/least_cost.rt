//! What the labeller answers.

/// The least reduced cost over all relaxed routes in grains, and a route that has it; `None` and an
/// empty route where there is no relaxed route.
#[derive(Debug, Drop)]
pub struct Least {
    /// The least reduced cost, in grains.
    pub value: Option<i128>,
    /// The customers of a relaxed route that has it, in order.
    pub route: Vec<u16>,
}
