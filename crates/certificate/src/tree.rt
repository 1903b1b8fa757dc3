//! Trees.

ghost use Rattle.std.specs.Prelude.{IfOk};
ghost use Rattle.certificate.specs.Grown.{Grows, grown};
ghost use Rattle.certificate.specs.Tree.{nodes_of};

use crate::node::CertNode;
use crate::rows::RowPrice;
use crate::sets::SetPrice;
use std::alloc::{AllocError, Global};

/// A tree, its prices lent from the nodes that it was made of.
#[derive(Drop)]
pub enum CertTree<'a> {
    /// A leaf.
    Leaf {
        /// The price of each customer, in grains.
        prices: &'a [i64],
        /// Those of sets, in increasing order of the sets.
        set_prices: &'a [SetPrice],
        /// Those of rows, in increasing order of the rows.
        row_prices: &'a [RowPrice],
    },
    /// A split by an arc.
    Split {
        /// The row that the arc leaves.
        from: u16,
        /// The row that the arc enters.
        to: u16,
        /// The tree where the arc is used.
        used: Box<CertTree<'a>>,
        /// The tree where it isn't.
        unused: Box<CertTree<'a>>,
    },
}

/// Takes the nodes of the first tree, if they begin with one of at most this depth, and answers it.
#[tactic(auto, unfolding(crate::specs::Grown::grown))]
pub fn grow<'a>(
    alloc: Global,
    nodes: &mut &'a [CertNode],
    left: u32,
) -> Result<Option<CertTree<'a>>, AllocError>
    ensures { IfOk result (λ o. Grows o (nodes_of nodes.new.now)
        (grown left (nodes_of nodes.old.now))) }
{
    let Some((node, rest)) = nodes.split_first() else {
        return Ok(None);
    };
    *nodes = rest;
    match node {
        CertNode::Leaf(prices) => Ok(Some(CertTree::Leaf {
            prices: prices.as_slice(),
            set_prices: &[],
            row_prices: &[],
        })),
        CertNode::SetLeaf {
            prices,
            set_prices,
            row_prices,
        } => Ok(Some(CertTree::Leaf {
            prices: prices.as_slice(),
            set_prices: set_prices.as_slice(),
            row_prices: row_prices.as_slice(),
        })),
        CertNode::Split { from, to } => {
            if left == 0 {
                return Ok(None);
            }
            let Some(used) = grow(alloc, nodes, left - 1)? else {
                return Ok(None);
            };
            let Some(unused) = grow(alloc, nodes, left - 1)? else {
                return Ok(None);
            };
            Ok(Some(CertTree::Split {
                from: *from,
                to: *to,
                used: Box::new(alloc, used)?,
                unused: Box::new(alloc, unused)?,
            }))
        }
    }
}
