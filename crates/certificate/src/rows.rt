//! Rows of three customers, and their prices at a leaf.

/// Three customers. At most one route of a plan serves two of them.
#[derive(Clone, Copy, Debug, PartialEq, Eq)]
pub struct SubsetRow {
    /// The first customer.
    pub first: u16,
    /// The second, above the first.
    pub second: u16,
    /// The third, above both.
    pub third: u16,
}

/// What a route pays at a leaf each time that a row charges it.
#[derive(Clone, Copy, Debug, PartialEq, Eq)]
pub struct RowPrice {
    /// The row's place in the certificate's list, from 1.
    pub row: u16,
    /// The price in grains, a thousand to a tenth.
    pub price: u64,
}
