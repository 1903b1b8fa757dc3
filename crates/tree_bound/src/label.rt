//! The labels that the table keeps.

ghost use Rattle.std.specs.Prelude.{IsTrue, pos, ◌+ℤ◌, ◌≤ℤ◌};
ghost use Rattle.solomon_reader.specs.SubsetRows.{debt};
ghost use Rattle.row_charges.specs.Bits.{bit_of};
ghost use Rattle.row_charges.specs.Rows.{rows_of};
ghost use Rattle.tree_bound.specs.Labels.{Dominates};

use leaf_arcs::is_subset;
use row_charges::{RowBits, RowTable};

/// A pair of time and cost with a last customer, a memory, and bits of rows. Its load is that of the bucket in
/// which it stands.
#[derive(Clone, Copy)]
pub struct Label {
    /// The last stop.
    pub customer: u16,
    /// The customers that are remembered, as bits by the neighbour list of the last stop.
    pub memory: u16,
    /// When the vehicle may leave the last stop, in tenths.
    pub time: u64,
    /// The reduced cost, in grains.
    pub cost: i64,
    /// The bits of the rows that have a price.
    pub bits: RowBits,
    /// Whether it stands.
    pub active: bool,
}

impl Label {
    /// Whether it costs no more than another one, with the prices of the rows that may charge it alone.
    fn is_as_cheap(&self, rows: &RowTable<'_>, other: &Label) -> bool
        ensures { IsTrue result → (self.now.cost +ℤ pos (debt (rows_of rows.now.rows.items)
            (bit_of self.now.bits) (bit_of other.now.bits))) ≤ℤ other.now.cost }
    {
        if rows.rows.is_empty() {
            return self.cost <= other.cost;
        }
        let debt = rows.debt(self.bits, other.bits);
        match self.cost.checked_add(debt as i64) {
            Some(cost) => cost <= other.cost,
            None => false,
        }
    }

    /// Whether it dominates another one of its load: it has the same last customer, remembers nothing
    /// more, and neither its time nor its cost is greater, with the prices of the rows that may charge it alone.
    pub(crate) fn dominates(&self, rows: &RowTable<'_>, other: &Label) -> bool
        ensures { IsTrue result → Dominates (rows_of rows.now.rows.items) self.now other.now }
    {
        self.customer == other.customer
            && is_subset(self.memory, other.memory)
            && self.time <= other.time
            && self.is_as_cheap(rows, other)
    }
}
