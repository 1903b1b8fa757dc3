//! How widely a quick search looks.

/// How widely a quick search looks.
#[derive(Clone, Copy)]
pub struct Width {
    /// To how many customers it steps from each at most.
    pub steps: usize,
    /// How many of them are the nearest ones; the others are those that the prices make near.
    pub nearest: usize,
    /// A label is dropped where this many of its customer are no later and no dearer, or one that also
    /// remembers no more.
    pub labels: usize,
}
