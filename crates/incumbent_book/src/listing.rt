//! The nodes of a tree in preorder.

ghost use Rattle.std.specs.Prelude.{◌≡◌, ◌-◌, ◌<◌, ◌≤◌, ◌++◌, ◌∷◌, [], map, length, IfOk, OnOk, OnErr, slice_index_or};
ghost use Rattle.solomon_reader.specs.Bound.{Tree, preorder, leaf_node, split_node};
ghost use Rattle.solomon_reader.specs.Region.{Among};
ghost use Rattle.solomon_reader.specs.SetPrices.{listed_of};
ghost use Rattle.solomon_reader.specs.declared.limits.TheConstants.{MOST_SETS, MOST_ROWS};
ghost use Rattle.solomon_reader.specs.CertificateText.{AreInOrder};
ghost use Rattle.row_charges.specs.Rows.{row_of, rows_of};
ghost use Rattle.priced_sets.specs.Sets.{set_of, sets_of, listed_set, ArePriced};
ghost use Rattle.incumbent_book.specs.Contents.{AreListed, AreRowsListed, bare, listed_by, own_prices};
ghost use Rattle.incumbent_book.specs.Forward.{IsForward, GrowsIn, HasListsOf};
ghost use Rattle.incumbent_book.specs.SetLists.{IsNumberOf, AreNumbered};
ghost use Rattle.incumbent_book.specs.RowLists.{listed_row, no_row, AreRowsNumbered};
ghost use Rattle.incumbent_book.specs.Trees.{AreNamed};
ghost use Rattle.branching.specs.Nodes.{node_of, set_price_of, row_price_of, prices_of};
ghost use Rattle.branching.specs.Arcs.{pair};

use crate::node::Node;
use crate::row_list::place_for;
use crate::set_list::place_of;
use crate::subset_row::SubsetRow;
use branching::{Arc, LeafPrices, RowPrice, SetPrice, TreeNode};
use priced_sets::{ListedSet, PricedSet};
use prices::Priced;
use row_charges::PricedRow;
use std::alloc::{AllocError, Global};

/// The number of a set in a list, from 1.
fn number_of(listed: &[ListedSet], set: &PricedSet) -> u16
    requires few { length listed.now ≤ MOST_SETS }
    requires known { Among (listed_of (set_of set.now)) (map listed_set listed.now) }
    ensures { IsNumberOf (listed_of (set_of set.now)) (map listed_set listed.now) result }
{
    match place_of(listed, set) {
        Some(place) => place as u16 + 1,
        None => unreachable!(),
    }
}

/// The prices of sets by their numbers in a list, in the list's order.
fn numbered(
    alloc: Global,
    listed: &[ListedSet],
    sets: &[PricedSet],
) -> Result<Vec<SetPrice>, AllocError>
    requires few { length listed.now ≤ MOST_SETS }
    requires known { AreListed (map listed_set listed.now) (sets_of sets.now) }
    ensures { IfOk result (λ v. AreNumbered (map listed_set listed.now) (sets_of sets.now) (map set_price_of v.items)) }
{
    let mut prices = Vec::with_capacity(alloc, sets.len())?;
    for set in sets {
        prices.push(SetPrice {
            set: number_of(listed, set),
            price: set.price,
        })?;
    }
    Ok(prices)
}

/// The number of a row in a list in increasing order, from 1.
fn number_of_row(listed: &[SubsetRow], row: &PricedRow) -> u16
    requires few { length listed.now ≤ MOST_ROWS }
    requires in_order { AreInOrder (map listed_row listed.now) }
    requires known { Among (row_of row.now).row (map listed_row listed.now) }
    ensures within { (1 ≤ result) × (result ≤ length (map listed_row listed.now)) }
    ensures is { slice_index_or (map listed_row listed.now) (result - 1) no_row ≡ (row_of row.now).row }
{
    place_for(listed, SubsetRow::of(row)) as u16 + 1
}

/// The prices of rows by their numbers in a list, where both stand in increasing order.
fn numbered_rows(
    alloc: Global,
    listed: &[SubsetRow],
    rows: &[PricedRow],
) -> Result<Vec<RowPrice>, AllocError>
    requires few { length listed.now ≤ MOST_ROWS }
    requires in_order { AreInOrder (map listed_row listed.now) }
    requires known { AreRowsListed (map listed_row listed.now) (bare (rows_of rows.now)) }
    requires rising { AreInOrder (bare (rows_of rows.now)) }
    ensures { IfOk result (λ v. AreRowsNumbered (map listed_row listed.now) (rows_of rows.now) (map row_price_of v.items)) }
{
    let mut prices = Vec::with_capacity(alloc, rows.len())?;
    for row in rows {
        prices.push(RowPrice {
            row: number_of_row(listed, row),
            price: row.price,
        })?;
    }
    Ok(prices)
}

/// The prices of a leaf, the sets and the rows by their numbers in lists.
fn leaf_prices(
    alloc: Global,
    listed: &[ListedSet],
    rows: &[SubsetRow],
    priced: &Priced<'_>,
) -> Result<LeafPrices, AllocError>
    requires few { length listed.now ≤ MOST_SETS }
    requires known { AreListed (map listed_set listed.now) priced.now.sets }
    requires few_rows { length rows.now ≤ MOST_ROWS }
    requires in_order { AreInOrder (map listed_row rows.now) }
    requires rows_known { AreRowsListed (map listed_row rows.now) (bare priced.now.rows) }
    ensures { IfOk result (λ l. AreNamed (listed_by (map listed_set listed.now) (map listed_row rows.now))
        (own_prices priced.now) (prices_of l)) }
{
    let customers = priced.prices().to_vec(alloc)?;
    let mut sets = numbered(alloc, listed, priced.sets())?;
    sets.sort_by_key(|price| price.set)?;
    let rows = numbered_rows(alloc, rows, priced.rows())?;
    Ok(LeafPrices {
        customers,
        sets,
        rows,
    })
}

/// Adds a leaf with these prices.
fn add_leaf(out: &mut Vec<TreeNode>, prices: LeafPrices) -> Result<(), AllocError>
    ensures { OnOk result (map node_of out.new.items ≡ map node_of out.old.items ++ leaf_node
        (prices_of prices) ∷ []) }
{
    out.push(TreeNode::Leaf(prices))?;
    Ok(())
}

/// Adds a split by an arc.
fn add_split(out: &mut Vec<TreeNode>, arc: Arc) -> Result<(), AllocError>
    ensures { OnOk result (map node_of out.new.items ≡ map node_of out.old.items ++ split_node
        (pair arc) ∷ []) }
{
    out.push(TreeNode::Split(arc))?;
    Ok(())
}

/// Adds the nodes of the tree at a number, in preorder.
pub(crate) fn add_tree(
    alloc: Global,
    nodes: &[Node<'_>],
    listed: &[ListedSet],
    rows: &[SubsetRow],
    number: u32,
    out: &mut Vec<TreeNode>,
) -> Result<(), AllocError>
    requires forward { IsForward nodes.now }
    requires lists { HasListsOf (listed_by (map listed_set listed.now) (map listed_row rows.now)) nodes.now }
    requires number { number < length nodes.now }
    ensures { OnOk result ((tree : Tree) × GrowsIn nodes.now
        (listed_by (map listed_set listed.now) (map listed_row rows.now)) number tree
        × (map node_of out.new.items ≡ map node_of out.old.items ++ preorder tree)) }
{
    match &nodes[number as usize] {
        Node::Open(leaf) => {
            let prices = leaf_prices(alloc, listed, rows, &leaf.priced)?;
            add_leaf(out, prices)?;
            Ok(())
        }
        Node::Split { arc, used, unused } => {
            add_split(out, *arc)?;
            add_tree(alloc, nodes, listed, rows, *used, out)?;
            add_tree(alloc, nodes, listed, rows, *unused, out)?;
            Ok(())
        }
    }
}
