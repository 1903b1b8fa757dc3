//! Sets of customers that have a price at a leaf.

/// A set of customers with its price at a leaf.
#[derive(Clone, Copy)]
pub struct PricedSet<'a> {
    /// The customers, in increasing order.
    pub members: &'a [u16],
    /// How often each plan is said to enter the set.
    pub need: u32,
    /// What a route is paid each time that it enters the set, in grains.
    pub price: u64,
}
