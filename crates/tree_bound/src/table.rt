//! The table: a bucket of labels for each load.

ghost use Rattle.std.specs.Prelude.{◌≡◌, ◌+◌, ◌<◌, length, [], replicate, true, IfOk};
ghost use Rattle.row_charges.specs.Rows.{rows_of};
ghost use Rattle.tree_bound.specs.Labels.{IsEntered, IsAdded};

use crate::bucket::Bucket;
use crate::fault::BoundFault;
use crate::label::Label;
use row_charges::RowTable;
use std::alloc::{AllocError, Global};

/// The labels by load.
#[derive(Drop)]
pub(crate) struct Table {
    pub(crate) alloc: Global,
    pub(crate) buckets: Vec<Bucket>,
    /// How many labels stand, those of the table and the settled ones, and how many may.
    pub(crate) standing: usize,
    pub(crate) state_limit: usize,
}

/// A table without labels, for loads up to the capacity.
pub(crate) fn empty_table(
    alloc: Global,
    capacity: u16,
    state_limit: usize,
) -> Result<Table, AllocError>
    ensures { IfOk result (λ t. t.buckets.items ≡ replicate (capacity + 1) []) }
{
    let mut buckets = Vec::new(alloc);
    for made in 0..usize::from(capacity) + 1 {
        buckets.push(Bucket::new(alloc))?;
    }
    Ok(Table {
        alloc,
        buckets,
        standing: 0,
        state_limit,
    })
}

/// Keeps a label at a load and drops those that it dominates, unless one that stands dominates it.
pub(crate) fn keep(
    table: &mut Table,
    rows: &RowTable<'_>,
    load: usize,
    label: &Label,
) -> Result<(), BoundFault>
    requires load { load < length table.old.buckets.items }
    requires active { label.now.active ≡ true }
    ensures { IfOk result (λ _. IsAdded (rows_of rows.now.rows.items) table.old.buckets.items
        table.new.buckets.items load label.now) }
{
    if table.buckets[load].dominates(rows, label) {
        return Ok(());
    }
    if table.standing >= table.state_limit {
        return Err(BoundFault::StateLimit);
    }
    let dropped = table.buckets[load].keep(table.alloc, rows, label)?;
    table.standing = table.standing.saturating_add(1).saturating_sub(dropped);
    Ok(())
}

/// Keeps a label that was worked among the settled ones, where it stands on, and drops those that it
/// dominates.
pub(crate) fn settle(
    table: &mut Table,
    rows: &RowTable<'_>,
    settled: &mut Bucket,
    label: &Label,
) -> Result<(), BoundFault>
    requires active { label.now.active ≡ true }
    ensures table { table.new.buckets.items ≡ table.old.buckets.items }
    ensures kept { IfOk result (λ _. IsEntered (rows_of rows.now.rows.items) settled.old settled.new label.now) }
{
    let dropped = settled.keep(table.alloc, rows, label)?;
    table.standing = table.standing.saturating_sub(dropped);
    Ok(())
}
