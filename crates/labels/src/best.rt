//! The best so far.

/// The least reduced cost of the routes that end at an extended label, and where such a label stands.
#[derive(Clone, Copy)]
pub struct Best {
    /// The least reduced cost in grains; none before the first route.
    pub value: Option<i64>,
    /// The index of a label that ends at it.
    pub index: usize,
}
