//! The nodes of a tree, one after another.

ghost use Rattle.std.specs.Prelude.{◌≡◌, OnOk};
ghost use Rattle.certificate.specs.Reading.{Gives, tree_at, with_nodes};
ghost use Rattle.certificate.specs.Tree.{nodes_of};

use crate::fault::CertFault;
use crate::leaf::leaf;
use crate::node::CertNode;
use crate::version::PricedLines;
use crate::words::{NodeLine, node};
use std::alloc::Global;
use tenths::Lines;

/// What is read of a tree: the path to the next node, how many leaves may still come, and the nodes so far.
#[derive(Drop)]
pub struct Nodes<'a> {
    pub lines: Lines<'a>,
    pub size: u16,
    /// Whose prices the lines of a leaf tell.
    pub priced: PricedLines,
    pub path: Vec<(u16, u16)>,
    pub leaves: u32,
    pub nodes: Vec<CertNode>,
}

/// Reads the tree below the path, which may grow by `left` arcs.
pub fn tree(alloc: Global, state: &mut Nodes<'_>, left: u32) -> Result<(), CertFault>
    ensures exact { Gives (λ _. (
      nodes_of state.new.nodes.items,
      (state.new.leaves, state.new.lines),
    )) result
        (with_nodes (nodes_of state.old.nodes.items)
        (tree_at state.old.priced state.old.size left state.old.path.items state.old.leaves state.old.lines)) }
    ensures path { OnOk result (state.new.path.items ≡ state.old.path.items) }
    ensures size { OnOk result (state.new.size ≡ state.old.size) }
    ensures priced { OnOk result (state.new.priced ≡ state.old.priced) }
{
    let line = state.lines.number();
    match node(alloc, state.size, &state.path, &mut state.lines)? {
        NodeLine::Prices(prices) => {
            if state.leaves == 0 {
                return Err(CertFault::TooManyLeaves { line });
            }
            let leaf = leaf(alloc, state.priced, prices, &mut state.lines)?;
            state.nodes.push(leaf)?;
            state.leaves -= 1;
            Ok(())
        }
        NodeLine::Arc(from, to) => {
            if left == 0 {
                return Err(CertFault::TooDeep { line });
            }
            state.nodes.push(CertNode::Split { from, to })?;
            state.path.push((from, to))?;
            tree(alloc, state, left - 1)?;
            tree(alloc, state, left - 1)?;
            state.path.pop();
            Ok(())
        }
    }
}
