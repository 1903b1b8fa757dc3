//! The arcs that a leaf allows.

/// An arc to a customer, with what a step over it needs.
#[derive(Clone, Copy)]
pub struct AllowedArc {
    /// The customer.
    pub to: u16,
    /// The customer's bit in memories of the row that the arc leaves.
    pub bit: u8,
    /// The customer's demand.
    pub demand: u16,
    /// How long the way takes, in tenths.
    pub travel: u64,
    /// When service may begin.
    pub ready: u64,
    /// When it has to begin at the latest.
    pub due: u64,
    /// How long it takes.
    pub service: u64,
    /// What the arc adds to the reduced cost, in grains.
    pub value: i64,
}

/// Where a route may go from a row.
#[derive(Drop)]
pub struct ArcRow {
    /// To customers.
    pub arcs: Vec<AllowedArc>,
    /// Whether to the depot.
    pub ends: bool,
    /// How long the way to the depot takes, in tenths.
    pub back: u64,
    /// When a vehicle leaves the row at the earliest, in tenths.
    pub earliest: u64,
}
