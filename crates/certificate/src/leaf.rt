//! The prices of sets and of rows at a leaf.

ghost use Rattle.std.specs.Prelude.{◌≡◌, map};
ghost use Rattle.certificate.specs.Reading.{Gives, set_prices_at, row_prices_at, leaf_at};
ghost use Rattle.certificate.specs.Tree.{set_price_of, row_price_of, node_of};

use crate::fault::CertFault;
use crate::line::next_line;
use crate::node::CertNode;
use crate::placed_prices::{are_prices, are_prices_beside, placed};
use crate::rows::RowPrice;
use crate::sets::SetPrice;
use crate::version::PricedLines;
use solomon_reader::MOST_ROW_PRICES;
use std::alloc::Global;
use tenths::{Lines, Parts};

/// The prices of sets that the next line has, beside those of the customers.
#[tactic(auto, unfolding(crate::specs::Reading::set_prices_at))]
fn set_prices(
    alloc: Global,
    sets: usize,
    prices: &[i64],
    lines: &mut Lines<'_>,
) -> Result<Vec<SetPrice>, CertFault>
    ensures { Gives (λ v. (map set_price_of v.items, lines.new)) result (set_prices_at sets prices.now lines.old) }
{
    let line = next_line(lines)?;
    let number = line.number;
    let mut words = Parts::new(line.text, b' ');
    let list: Vec<SetPrice> = placed(
        alloc,
        b"M",
        CertFault::BadSet { line: number },
        sets,
        number,
        &mut words,
    )?;
    if !are_prices(0, prices, &list) {
        return Err(CertFault::PriceRange { line: number });
    }
    Ok(list)
}

/// The prices of rows that the next line has, beside those of the customers and of the sets.
#[tactic(auto, unfolding(crate::specs::Reading::row_prices_at))]
fn row_prices(
    alloc: Global,
    rows: usize,
    prices: &[i64],
    set_prices: &[SetPrice],
    lines: &mut Lines<'_>,
) -> Result<Vec<RowPrice>, CertFault>
    ensures { Gives (λ v. (map row_price_of v.items, lines.new)) result
        (row_prices_at rows prices.now (map set_price_of set_prices.now) lines.old) }
{
    let line = next_line(lines)?;
    let number = line.number;
    let mut words = Parts::new(line.text, b' ');
    let list: Vec<RowPrice> = placed(
        alloc,
        b"Q",
        CertFault::BadRow { line: number },
        rows,
        number,
        &mut words,
    )?;
    if list.len() > MOST_ROW_PRICES {
        return Err(CertFault::TooManyRows { line: number });
    }
    if !are_prices_beside(set_prices, prices, &list) {
        return Err(CertFault::PriceRange { line: number });
    }
    Ok(list)
}

/// The leaf with these prices of customers, and those of sets and rows on the next lines, where the text
/// has them.
#[tactic(auto, unfolding(crate::specs::Reading::leaf_at))]
pub fn leaf(
    alloc: Global,
    priced: PricedLines,
    prices: Vec<i64>,
    lines: &mut Lines<'_>,
) -> Result<CertNode, CertFault>
    ensures { Gives (λ x. (node_of x, lines.new)) result (leaf_at priced prices.items lines.old) }
{
    match priced {
        PricedLines::Customers => Ok(CertNode::Leaf(prices)),
        PricedLines::Sets(sets) => {
            let set_prices = set_prices(alloc, sets, &prices, lines)?;
            Ok(CertNode::SetLeaf {
                prices,
                set_prices,
                row_prices: Vec::new(alloc),
            })
        }
        PricedLines::Rows(sets, rows) => {
            let set_prices = set_prices(alloc, sets, &prices, lines)?;
            let row_prices = row_prices(alloc, rows, &prices, &set_prices, lines)?;
            Ok(CertNode::SetLeaf {
                prices,
                set_prices,
                row_prices,
            })
        }
    }
}
