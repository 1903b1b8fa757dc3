//! Bounds on what may follow from a row.

/// Bounds on what may follow from a row at a time or later, whatever was visited before.
#[derive(Clone, Copy)]
pub struct Bound {
    /// The most that may still be loaded.
    pub room: u16,
    /// The customer that comes next where the least is added; 0 where none does.
    pub next: u16,
    /// The least that is added to the reduced cost, in grains.
    pub least: i64,
    /// The least that is added where another customer comes next, or none, in grains.
    pub other: i64,
}

/// Bounds on what may follow from a row. With times of 32 bits it takes 32 bytes: a table has many of them.
#[derive(Clone, Copy)]
pub struct RowBound {
    /// The bounds.
    pub bound: Bound,
    /// The time from which on they hold, in tenths.
    pub from: u32,
    /// The row.
    pub row: u16,
    /// The load from which on they hold.
    pub load: u16,
}
