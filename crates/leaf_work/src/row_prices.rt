//! Rows that may have prices at a leaf.

ghost use Rattle.std.specs.Prelude.{◌≡◌, ◌+◌, ◌≤◌, length, IfOk, IsTrue, IfSome};
ghost use Rattle.solomon_reader.specs.Problem.{customer_count};
ghost use Rattle.solomon_reader.specs.CertificateText.{is_before, IsListedRow};
ghost use Rattle.solomon_reader.specs.SubsetRows.{row_price_sum};
ghost use Rattle.solomon_reader.specs.declared.limits.TheConstants.{MOST_ROW_PRICES};
ghost use Rattle.row_charges.specs.Rows.{row_of, rows_of};
ghost use Rattle.labelling.specs.PricedRows.{ArePricedRows};
ghost use Rattle.leaf_work.specs.RowPrices.{IsBehind, MayFollow};

use row_charges::PricedRow;
use solomon_reader::{Instance, MOST_ROW_PRICES};
use std::alloc::{AllocError, Global};

/// Whether the customers of a row are known and stand in increasing order.
fn is_listed(instance: &Instance, row: &PricedRow) -> bool
    ensures { IsTrue result → IsListedRow (customer_count instance.now) (row_of row.now).row }
{
    1 <= row.first
        && row.first < row.second
        && row.second < row.third
        && row.third <= instance.customer_count()
}

/// Whether a row stands behind the last one of a list, if it has one.
fn is_behind(rows: &[PricedRow], row: &PricedRow) -> bool
    ensures { IsTrue result → IsBehind (rows_of rows.now) (row_of row.now).row }
{
    let count = rows.len();
    count == 0 || rows[count - 1].is_before(row)
}

/// Whether a row may have its price behind these, in grains, where so much is left.
fn may_follow(instance: &Instance, rows: &[PricedRow], left: u64, row: &PricedRow) -> bool
    ensures { IsTrue result → MayFollow (customer_count instance.now) (rows_of rows.now) left (row_of row.now) }
{
    rows.len() < MOST_ROW_PRICES
        && 1 <= row.price
        && row.price <= left
        && is_listed(instance, row)
        && is_behind(rows, row)
}

/// Of these rows, which are to stand in increasing order, those that may have their prices, in grains: as many as may,
/// and as long as they cost no more than so much together. Beside them stands what is left of that.
pub(crate) fn rows_within(
    alloc: Global,
    instance: &Instance,
    wanted: &[PricedRow],
    most: u64,
) -> Result<(Vec<PricedRow>, u64), AllocError>
    ensures few { IfOk result (λ r. length r.0.items ≤ MOST_ROW_PRICES) }
    ensures sum { IfOk result (λ r. row_price_sum (rows_of r.0.items) + r.1 ≡ most) }
    ensures priced { IfOk result (λ r. ArePricedRows (customer_count instance.now) (rows_of r.0.items)) }
{
    let mut rows: Vec<PricedRow> = Vec::new(alloc);
    let mut left = most;
    for row in wanted {
        if may_follow(instance, rows.as_slice(), left, row) {
            left -= row.price;
            rows.push(*row)?;
        }
    }
    Ok((rows, left))
}
