//! A leaf of a book takes the prices of a leaf of the tree.

ghost use Rattle.std.specs.Prelude.{◌≡◌, ◌≢◌, ℕ, None, IfOk, IfErr, OnOk};
ghost use Rattle.solomon_reader.specs.Problem.{customer_count};
ghost use Rattle.solomon_reader.specs.History.{IsLeaf};
ghost use Rattle.solomon_reader.specs.Bound.{listed_sets, listed_rows, leaf_at, IsValueAt};
ghost use Rattle.certificate.specs.Text.{version_of};
ghost use Rattle.prices.specs.ValuedPrices.{IsPricedBy};
ghost use Rattle.incumbent_book.specs.Faults.{IsAt, region_at};
ghost use Rattle.given_tree.specs.declared.fault.ReplayFault.TheVariants.{LabelLimit};
ghost use Rattle.given_tree.specs.Nodes.{AreRowsKnown, IsLeafAt, prices_of};
ghost use Rattle.given_tree.specs.Growing.{Keeps, IsGrownAt, IsRaisedTo};

use crate::fault::ReplayFault;
use crate::given::GivenTree;
use crate::handed_on::HandedOn;
use crate::leaf_rows::rows_at;
use crate::leaf_sets::sets_at;
use crate::pricing::price;
use certificate::{RowPrice, SetPrice};
use incumbent_book::Book;
use prices::Priced;

/// These prices at the region of a leaf, with their value.
fn price_leaf<'i>(
    tree: &GivenTree<'_>,
    handed_on: &mut HandedOn<'_>,
    book: &Book<'i>,
    number: u32,
    prices: &[i64],
    set_prices: &[SetPrice],
    row_prices: &[RowPrice],
) -> Result<Priced<'i>, ReplayFault>
    requires leaf { IsLeaf book.now.past number }
    requires rows { AreRowsKnown (version_of tree.now.version.now) (customer_count book.now.problem) }
    requires shaped { IsLeafAt (version_of tree.now.version.now) (customer_count book.now.problem)
        (prices_of prices.now set_prices.now row_prices.now) }
    ensures priced { let version = version_of tree.now.version.now in
        IfOk result (IsPricedBy book.now.problem (region_at book.now number) book.now.neighbours
        (leaf_at (listed_sets version) (listed_rows version) (prices_of prices.now set_prices.now row_prices.now))) }
    ensures unlimited { IfErr result (λ e. e ≡ LabelLimit → tree.now.labels ≢ None) }
{
    let Some(leaf) = book.leaf(number) else {
        unreachable!()
    };
    let instance = leaf.instance();
    instance.law_of_limits();
    let sets = sets_at(tree, instance, &mut handed_on.needed, set_prices)?;
    let rows = rows_at(tree, row_prices)?;
    let prices = Vec::from_slice(tree.alloc, prices)?;
    price(tree, handed_on, leaf.task().with_rows(prices, sets, rows)?)
}

/// Gives a leaf these prices where their value is higher than the leaf's.
fn raise<'i>(book: &mut Book<'i>, number: u32, priced: Priced<'i>) -> Result<(), ReplayFault>
    requires leaf { IsLeaf book.old.past number }
    requires at { IsAt book.old (region_at book.old number) priced }
    ensures keeps { Keeps book.old book.new }
    ensures grown { OnOk result (IsGrownAt book.old book.new number) }
    ensures still { OnOk result (IsLeaf book.new.past number) }
    ensures raised { OnOk result (IsRaisedTo book.old book.new number priced.entry.value) }
    ensures unlimited { IfErr result (λ e. e ≢ LabelLimit) }
{
    let Some(leaf) = book.leaf(number) else {
        unreachable!()
    };
    if priced.tenths() <= leaf.tenths() {
        return Ok(());
    }
    match book.reprice(0, number, priced) {
        Ok(()) => Ok(()),
        Err((_priced, fault)) => Err(ReplayFault::from(fault)),
    }
}

/// Gives a leaf the prices of a leaf of the tree, of customers, sets and rows, where their value is higher.
pub(crate) fn grow_leaf<'i>(
    tree: &GivenTree<'_>,
    handed_on: &mut HandedOn<'_>,
    book: &mut Book<'i>,
    number: u32,
    prices: &[i64],
    set_prices: &[SetPrice],
    row_prices: &[RowPrice],
) -> Result<(), ReplayFault>
    requires leaf { IsLeaf book.old.past number }
    requires rows { AreRowsKnown (version_of tree.now.version.now) (customer_count book.old.problem) }
    requires shaped { IsLeafAt (version_of tree.now.version.now) (customer_count book.old.problem)
        (prices_of prices.now set_prices.now row_prices.now) }
    ensures keeps { Keeps book.old book.new }
    ensures grown { OnOk result (IsGrownAt book.old book.new number) }
    ensures still { OnOk result (IsLeaf book.new.past number) }
    ensures raised { OnOk result ((v : ℕ) → IsValueAt (version_of tree.now.version.now) book.old.problem
        (region_at book.old number) book.old.neighbours (prices_of prices.now set_prices.now row_prices.now) v
        → IsRaisedTo book.old book.new number v) }
    ensures unlimited { IfErr result (λ e. e ≡ LabelLimit → tree.now.labels ≢ None) }
{
    let priced = price_leaf(
        tree, handed_on, book, number, prices, set_prices, row_prices,
    )?;
    raise(book, number, priced)
}
