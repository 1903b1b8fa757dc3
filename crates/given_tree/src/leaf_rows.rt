//! The rows that have a price at a leaf.

ghost use Rattle.std.specs.Prelude.{◌≡◌, length, map, IfOk};
ghost use Rattle.solomon_reader.specs.CustomerSets.{IsCustomerSet};
ghost use Rattle.solomon_reader.specs.Bound.{listed_rows};
ghost use Rattle.solomon_reader.specs.SubsetRows as definition;
ghost use Rattle.certificate.specs.Text.{row_of, version_of};
ghost use Rattle.certificate.specs.Tree.{row_price_of};
ghost use Rattle.row_charges.specs.Rows.{rows_of};

use crate::given::GivenTree;
use certificate::{RowPrice, SubsetRow};
use row_charges::PricedRow;
use std::alloc::{AllocError, Global};

/// The rows of a list that have a price.
fn rows_with_prices(
    alloc: Global,
    listed: &[SubsetRow],
    prices: &[RowPrice],
) -> Result<Vec<PricedRow>, AllocError>
    requires numbers { IsCustomerSet (length listed.now) (map (λ q. q.0) (map row_price_of prices.now)) }
    ensures { IfOk result (λ rows. rows_of rows.items ≡ definition.priced_rows
        (map row_of listed.now) (map row_price_of prices.now)) }
{
    let mut rows = Vec::new(alloc);
    for price in prices {
        let row = &listed[price.row as usize - 1];
        rows.push(PricedRow {
            first: row.first,
            second: row.second,
            third: row.third,
            price: price.price,
        })?;
    }
    Ok(rows)
}

/// The rows that have a price at a leaf of the tree.
pub(crate) fn rows_at(
    tree: &GivenTree<'_>,
    prices: &[RowPrice],
) -> Result<Vec<PricedRow>, AllocError>
    requires numbers { IsCustomerSet (length (listed_rows (version_of tree.now.version.now)))
        (map (λ q. q.0) (map row_price_of prices.now)) }
    ensures { IfOk result (λ rows. rows_of rows.items ≡ definition.priced_rows
        (listed_rows (version_of tree.now.version.now)) (map row_price_of prices.now)) }
{
    rows_with_prices(tree.alloc, tree.version.rows(), prices)
}
