//! Numbers of grains as differences.

/// A number of grains, as a difference.
#[derive(Clone, Copy)]
pub(crate) struct Difference {
    pub(crate) above: u64,
    pub(crate) below: u64,
}
