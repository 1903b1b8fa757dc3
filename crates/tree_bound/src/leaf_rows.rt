//! The rows that have a price at a leaf.

ghost use Rattle.std.specs.Prelude.{◌≡◌, ◌≤◌, length, map, IfOk};
ghost use Rattle.solomon_reader.specs.declared.limits.TheConstants.{MOST_PRICE};
ghost use Rattle.solomon_reader.specs.CustomerSets.{IsCustomerSet};
ghost use Rattle.solomon_reader.specs.SubsetRows as definition;
ghost use Rattle.solomon_reader.specs.Bound.{listed_rows};
ghost use Rattle.solomon_reader.specs.CertificateText.{AreRowPrices, row_prices_sum};
ghost use Rattle.certificate.specs.Text.{row_of};
ghost use Rattle.certificate.specs.Tree.{row_price_of};
ghost use Rattle.row_charges.specs.Rows.{rows_of};
ghost use Rattle.tree_bound.specs.Settings.{neighbours_in, problem_in, version_in};

use crate::setting::Setting;
use certificate::{RowPrice, SubsetRow};
use row_charges::{PricedRow, RowTable};
use std::alloc::{AllocError, Global};

/// The rows of a list that have a price.
fn priced_rows(
    alloc: Global,
    listed: &[SubsetRow],
    prices: &[RowPrice],
) -> Result<Vec<PricedRow>, AllocError>
    requires numbers { IsCustomerSet (length listed.now) (map (λ q. q.0) (map row_price_of prices.now)) }
    ensures { IfOk result (λ rows. rows_of rows.items ≡ definition.priced_rows
        (map row_of listed.now) (map row_price_of prices.now)) }
{
    let mut rows = Vec::new(alloc);
    for price in prices {
        let listed = &listed[price.row as usize - 1];
        rows.push(PricedRow {
            first: listed.first,
            second: listed.second,
            third: listed.third,
            price: price.price,
        })?;
    }
    Ok(rows)
}

/// The table of the rows that have a price at a leaf.
pub(crate) fn row_table<'i>(
    alloc: Global,
    setting: &Setting<'i>,
    prices: &[RowPrice],
) -> Result<RowTable<'i>, AllocError>
    requires shaped { AreRowPrices (length (listed_rows (version_in setting.now)))
        (map row_price_of prices.now) }
    requires low { row_prices_sum (map row_price_of prices.now) ≤ MOST_PRICE }
    ensures instance { IfOk result (λ t. t.instance.now ≡ problem_in setting.now) }
    ensures neighbours { IfOk result (λ t. t.neighbours ≡ neighbours_in setting.now) }
    ensures rows { IfOk result (λ t. rows_of t.rows.items ≡ definition.priced_rows
        (listed_rows (version_in setting.now)) (map row_price_of prices.now)) }
{
    let rows = priced_rows(alloc, setting.version.rows(), prices)?;
    setting.network.neighbours.row_table(alloc, rows)
}
