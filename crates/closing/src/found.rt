//! What is found for an instance.

use branching::TreeNode;
use incumbent_book::SubsetRow;
use priced_sets::ListedSet;
use schedule::Feasible;
use tenths::Tenths;

/// A plan, if there is one, and a lower bound of every plan's cost with its tree.
#[derive(Debug, Drop)]
pub struct Found<'i> {
    /// The plan; of a closed instance its cost is the bound.
    pub plan: Option<Feasible<'i>>,
    /// The bound, in tenths; of a closed instance without a plan the ceiling of plans' costs and one.
    pub bound: Tenths,
    /// The sets that the tree names; of a closed instance none.
    pub sets: Vec<ListedSet>,
    /// The rows that the tree names; of a closed instance none.
    pub rows: Vec<SubsetRow>,
    /// The tree with that bound, in preorder.
    pub nodes: Vec<TreeNode>,
}
