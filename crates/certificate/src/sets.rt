//! Sets of customers, and their prices at a leaf.

/// A set of customers, and how often each plan is said to enter it.
#[derive(Debug, Drop)]
pub struct ListedSet {
    /// The customers, at least two, in increasing order.
    pub members: Vec<u16>,
    /// How often each plan enters the set, at least.
    pub need: u32,
}

/// What a route is paid at a leaf each time that it enters a set.
#[derive(Clone, Copy, Debug, PartialEq, Eq)]
pub struct SetPrice {
    /// The set's place in the certificate's list, from 1.
    pub set: u16,
    /// The price in grains, a thousand to a tenth.
    pub price: u64,
}
