//! Whether parts make a certificate.

ghost use Rattle.std.specs.Prelude.{◌≡◌, ◌≤◌, ◌<◌, ◌+◌, ◌↔◌, length, map, None, IsTrue, IfOk, IfSome};
ghost use Rattle.std.specs.List.{list_all};
ghost use Rattle.certificate.specs.Tree.{nodes_of};
ghost use Rattle.certificate.specs.Text.{content_of};
ghost use Rattle.solomon_reader.specs.CertificateText.{HasText, leaf_count, set_prices_sum};
ghost use Rattle.certificate.specs.Shape.{are_row_prices, is_leaf, is_open, stands, is_head, is_one_tree, is_listed_set, are_sets, are_rising_rows, are_rows, is_before_tree};
ghost use Rattle.certificate.specs.Grown.{tree_of, grown};
ghost use Rattle.certificate.specs.Text.{listed_set_of, row_of, version_of};
ghost use Rattle.certificate.specs.Tree.{set_price_of, row_price_of, leaf_prices_of};
ghost use Rattle.solomon_reader.specs.Bound.{listed_sets, listed_rows};

use crate::head::is_name_word;
use crate::node::CertNode;
use crate::parts::CertParts;
use crate::placed_prices::{are_listed, are_prices, are_prices_beside};
use crate::row_lines::{is_behind, is_listed_row};
use crate::rows::{RowPrice, SubsetRow};
use crate::set_lines::are_rising;
use crate::sets::{ListedSet, SetPrice};
use crate::tree::{CertTree, grow};
use crate::version::Version;
use crate::words::{are_in_range, is_in_size, is_on};
use solomon_reader::{
    MOST_CUSTOMERS, MOST_DEPTH, MOST_LEAVES, MOST_NEED, MOST_NEIGHBOURS, MOST_ROW_PRICES,
    MOST_ROWS, MOST_SETS,
};
use std::alloc::{AllocError, Global};
use tenths::MOST_TENTHS;

/// Whether these are prices of rows at a leaf, beside those of sets.
fn are_row_prices(
    rows: usize,
    prices: &[i64],
    set_prices: &[SetPrice],
    row_prices: &[RowPrice],
) -> bool
    ensures { result ≡ are_row_prices rows (set_prices_sum (map set_price_of set_prices.now)) prices.now (map row_price_of row_prices.now) }
{
    are_listed(rows, row_prices)
        && row_prices.len() <= MOST_ROW_PRICES
        && are_prices_beside(set_prices, prices, row_prices)
}

/// Whether the prices are those of a leaf.
fn is_leaf_of(
    listed: (usize, usize),
    size: u16,
    prices: &[i64],
    set_prices: &[SetPrice],
    row_prices: &[RowPrice],
) -> bool
    ensures { result ≡ is_leaf listed.0 listed.1 size (leaf_prices_of prices.now set_prices.now row_prices.now) }
{
    prices.len() == usize::from(size)
        && are_in_range(prices)
        && are_listed(listed.0, set_prices)
        && are_prices(0, prices, set_prices)
        && are_row_prices(listed.1, prices, set_prices, row_prices)
}

/// Whether the arc is one that the path hasn't decided.
fn is_open_arc(size: u16, path: &[(u16, u16)], arc: (u16, u16)) -> bool
    ensures { result ≡ is_open size path.now arc }
{
    is_in_size(size, (u64::from(arc.0), u64::from(arc.1))) && !is_on(arc, path)
}

/// How many leaves may still come behind a tree, if so many may come before it.
fn leaves_behind(tree: &CertTree<'_>, leaves: u32) -> Option<u32>
    ensures some { IfSome result (λ rest. leaves ≡ rest + leaf_count (tree_of tree.now)) }
    ensures none { result ≡ None → leaves < leaf_count (tree_of tree.now) }
{
    match tree {
        CertTree::Leaf { .. } => leaves.checked_sub(1),
        CertTree::Split { used, unused, .. } => {
            let rest = leaves_behind(used, leaves)?;
            leaves_behind(unused, rest)
        }
    }
}

/// Whether a tree stands below the path: its leaves have prices for each customer, and its splits decide arcs
/// that aren't decided.
fn stands(
    listed: (usize, usize),
    size: u16,
    tree: &CertTree<'_>,
    path: &mut Vec<(u16, u16)>,
) -> Result<bool, AllocError>
    ensures exact { IfOk result (λ b. b ≡ stands listed.0 listed.1 size path.old.items (tree_of tree.now)) }
    ensures path { IfOk result (λ _. path.new.items ≡ path.old.items) }
{
    match tree {
        CertTree::Leaf {
            prices,
            set_prices,
            row_prices,
        } => Ok(is_leaf_of(listed, size, prices, set_prices, row_prices)),
        CertTree::Split {
            from,
            to,
            used,
            unused,
        } => {
            if !is_open_arc(size, path.as_slice(), (*from, *to)) {
                return Ok(false);
            }
            path.push((*from, *to))?;
            let both = stands(listed, size, used, path)? && stands(listed, size, unused, path)?;
            path.pop();
            Ok(both)
        }
    }
}

/// Whether the nodes are those of one tree.
#[tactic(auto, unfolding(crate::specs::Shape::is_one_tree))]
fn is_one_tree(
    alloc: Global,
    listed: (usize, usize),
    size: u16,
    nodes: &[CertNode],
) -> Result<bool, AllocError>
    ensures { IfOk result (λ b. b ≡ is_one_tree listed.0 listed.1 size (nodes_of nodes.now)) }
{
    let mut rest = nodes;
    let Some(tree) = grow(alloc, &mut rest, MOST_DEPTH)? else {
        return Ok(false);
    };
    if !rest.is_empty() || leaves_behind(&tree, MOST_LEAVES).is_none() {
        return Ok(false);
    }
    let mut path = Vec::new(alloc);
    stands(listed, size, &tree, &mut path)
}

/// Whether all but the nodes is a certificate's.
fn is_head_of(parts: &CertParts) -> bool
    ensures { result ≡ is_head (content_of parts.now) }
{
    is_name_word(parts.name.as_slice())
        && 1 <= parts.size
        && parts.size <= MOST_CUSTOMERS
        && parts.neighbours <= MOST_NEIGHBOURS
        && parts.bound.get() <= MOST_TENTHS
}

/// Whether a set has a line.
fn is_set(size: u16, set: &ListedSet) -> bool
    ensures { result ≡ is_listed_set size (listed_set_of set.now) }
{
    1 <= set.need
        && set.need <= MOST_NEED
        && 2 <= set.members.len()
        && are_rising(size, set.members.as_slice())
}

/// Whether each set has a line.
fn have_lines(size: u16, sets: &[ListedSet]) -> bool
    ensures { result ≡ list_all (λ s. is_listed_set size (listed_set_of s)) sets.now }
{
    sets.iter().all(|set| is_set(size, set))
}

/// Whether the sets of a version have lines.
fn are_sets_of(size: u16, version: &Version) -> bool
    ensures { result ≡ are_sets size (listed_sets (version_of version.now)) }
{
    let sets = version.sets();
    sets.len() <= MOST_SETS as usize && have_lines(size, sets)
}

/// Whether each row has a line, behind the one before.
fn are_rising_rows(size: u16, rows: &[SubsetRow]) -> bool
    ensures { result ≡ are_rising_rows size None (map row_of rows.now) }
{
    let mut before = None;
    for row in rows {
        if !is_listed_row(size, *row) || !is_behind(before, *row) {
            return false;
        }
        before = Some(*row);
    }
    true
}

/// Whether the rows of a version have lines.
fn are_rows_of(size: u16, version: &Version) -> bool
    ensures { result ≡ are_rows size (listed_rows (version_of version.now)) }
{
    let rows = version.rows();
    rows.len() <= MOST_ROWS as usize && are_rising_rows(size, rows)
}

/// Whether all but the nodes is a certificate's.
fn is_before_tree(parts: &CertParts) -> bool
    ensures { result ≡ is_before_tree (content_of parts.now) }
{
    is_head_of(parts)
        && are_sets_of(parts.size, &parts.version)
        && are_rows_of(parts.size, &parts.version)
}

/// Whether the parts have a text.
pub fn have_text(alloc: Global, parts: &CertParts) -> Result<bool, AllocError>
    ensures { IfOk result (λ b. IsTrue b ↔ HasText (content_of parts.now)) }
{
    if !is_before_tree(parts) {
        return Ok(false);
    }
    let listed = (parts.version.sets().len(), parts.version.rows().len());
    is_one_tree(alloc, listed, parts.size, parts.nodes.as_slice())
}
