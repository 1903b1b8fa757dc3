//! The nodes of a book in one list, with an index of the leaves by their values.

ghost use Rattle.std.specs.Prelude.{◌≡◌, ◌≢◌, ◌+◌, ◌<◌, ◌≤◌, ℕ, ◌/◌, ◌^◌, ◌++◌, ◌∷◌, [], length, map, Some, None, IsSome, IfOk, IfErr, OnOk, OnErr, MatchOption, option_map, slice_set, vec_len};
ghost use Rattle.std.specs.Vec.{vec_capacity};
ghost use Rattle.incumbent_book.specs.Arena.{leaf_at, new_leaf, WithLeaf, IsLeastOf};
ghost use Rattle.branching.specs.Nodes.{node_of};
ghost use Rattle.incumbent_book.specs.Forward.{IsForward, GrowsIn, HasListsOf};
ghost use Rattle.priced_sets.specs.Sets.{listed_set};
ghost use Rattle.incumbent_book.specs.RowLists.{listed_row};
ghost use Rattle.incumbent_book.specs.Contents.{listed_by};
ghost use Rattle.solomon_reader.specs.Bound.{Tree, preorder};
ghost use Rattle.incumbent_book.specs.declared.node.Node.TheVariants.{Open, Split};

use crate::gap::Steps;
use crate::index::{least, replace, replace_by_two};
use crate::listing::add_tree;
use crate::node::{Leaf, Node};
use crate::room::{make_room, put, put_two};
use crate::subset_row::SubsetRow;
use branching::{Arc, TreeNode};
use priced_sets::ListedSet;
use prices::Priced;
use std::alloc::{AllocError, Global};
use std::collections::BTreeSet;
use std::marker::Model;

/// The nodes by their numbers, and the leaves by their values. Contracts see the nodes.
#[derive(Drop)]
pub(crate) struct Arena<'i> {
    nodes: Vec<Node<'i>>,
    index: BTreeSet<(u128, u32)>,
}

impl<'i> Model for Arena<'i> {
    ghost use Rattle.std.specs.Prelude.{List};
    ghost use Rattle.std.specs.Coded.{codes};
    ghost use Rattle.solomon_reader.specs.Region.{region_code};
    ghost use Rattle.incumbent_book.specs.declared.node.Node.{Node};
    ghost use Rattle.incumbent_book.specs.Arena.{IsIndex};

    ghost Value = { List Node };

    ghost coded = { Prim.hlevel (codes, region_code) };

    ghost view = { λ a. a.nodes.items };

    ghost invariant = { λ a. IsIndex a.nodes.items a.index };
}

/// The node of a leaf with these prices, above which this many splits stand.
fn open_node<'i>(depth: u32, priced: Priced<'i>) -> Node<'i>
    ensures { result ≡ Open (new_leaf depth priced.entry) }
{
    Node::Open(Leaf { depth, priced })
}

/// The leaf of a number, if it is one.
fn leaf_in<'a, 'i>(nodes: &'a [Node<'i>], number: u32) -> Option<&'a Leaf<'i>>
    ensures { option_map (λ leaf. leaf.now) result ≡ leaf_at nodes.now number }
{
    match nodes.get(number as usize)? {
        Node::Open(leaf) => Some(leaf),
        Node::Split { .. } => None,
    }
}

impl<'i> Arena<'i> {
    /// The root alone, or its prices where memory was refused.
    pub(crate) fn new(alloc: Global, root: Priced<'i>) -> Result<Arena<'i>, Priced<'i>>
        ensures ok { IfOk result (λ a. a ≡ Open (new_leaf 0 root.entry) ∷ []) }
        ensures err { IfErr result (λ f. f ≡ root.entry) }
    {
        let mut nodes = Vec::new(alloc);
        if make_room(&mut nodes, 1).is_err() {
            return Err(root);
        }
        let mut index = BTreeSet::new(alloc);
        if index.insert((root.tenths(), 0)).is_err() {
            return Err(root);
        }
        put(&mut nodes, open_node(0, root));
        Ok(Arena { nodes, index })
    }

    /// The leaf of a number, if it is one.
    pub(crate) fn leaf(&self, number: u32) -> Option<&Leaf<'i>>
        ensures { option_map (λ leaf. leaf.now) result ≡ leaf_at self.now number }
    {
        leaf_in(self.nodes.as_slice(), number)
    }

    /// The nodes of the tree at the root, in preorder, with the sets and rows by their places in lists.
    pub(crate) fn list(
        &self,
        alloc: Global,
        listed: &[ListedSet],
        rows: &[SubsetRow],
    ) -> Result<Vec<TreeNode>, AllocError>
        requires forward { IsForward self.now }
        requires root { 0 < length self.now }
        requires lists { HasListsOf (listed_by (map listed_set listed.now) (map listed_row rows.now)) self.now }
        ensures { IfOk result (λ v. (tree : Tree) × GrowsIn self.now
            (listed_by (map listed_set listed.now) (map listed_row rows.now)) 0 tree × (map node_of v.items ≡ preorder tree)) }
    {
        let mut out = Vec::new(alloc);
        add_tree(alloc, self.nodes.as_slice(), listed, rows, 0, &mut out)?;
        Ok(out)
    }

    /// How many leaves there are, where each split made two nodes.
    pub(crate) fn leaf_count(&self) -> u32
        requires { length self.now < 2 ^ 31 }
        ensures { result ≡ length self.now / 2 + 1 }
    {
        (self.nodes.len() / 2 + 1) as u32
    }

    /// The least value of the leaves.
    pub(crate) fn least_value(&self, steps: &mut Steps) -> Option<u128>
        ensures least { IsLeastOf self.now result }
        ensures at_most_one { (steps.old ≤ steps.new) × (steps.new ≤ steps.old + 1) }
    {
        least(&self.index, steps)
    }

    /// Gives a leaf new prices of another value, or gives them back where memory was refused.
    pub(crate) fn reprice(&mut self, number: u32, priced: Priced<'i>) -> Result<(), Priced<'i>>
        requires { WithLeaf self.old number (λ leaf. leaf.priced.value ≢ priced.value) }
        ensures ok { OnOk result (WithLeaf self.old number
            (λ leaf. self.new ≡ slice_set self.old number
            (Open (new_leaf leaf.depth priced.entry)))) }
        ensures err { IfErr result (λ f. (f ≡ priced.entry) × (self.new ≡ self.old)) }
    {
        let Some(leaf) = leaf_in(self.nodes.as_slice(), number) else {
            unreachable!()
        };
        let depth = leaf.depth;
        let old = (leaf.priced.tenths(), number);
        let new = (priced.tenths(), number);
        match replace(&mut self.index, old, new) {
            Ok(()) => {
                self.nodes[number as usize] = open_node(depth, priced);
                Ok(())
            }
            Err(_) => Err(priced),
        }
    }

    /// Splits a leaf by an arc, and answers the numbers of both children, or gives the prices back
    /// where memory was refused.
    pub(crate) fn split(
        &mut self,
        number: u32,
        arc: Arc,
        used: Priced<'i>,
        unused: Priced<'i>,
    ) -> Result<(u32, u32), (Priced<'i>, Priced<'i>)>
        requires leaf { WithLeaf self.old number (λ leaf. leaf.depth < 2 ^ 31) }
        requires few { length self.old < 2 ^ 31 }
        ensures numbers { IfOk result (λ made. (made.0 ≡ length self.old) ×
            (made.1 ≡ length self.old + 1)) }
        ensures ok { OnOk result (WithLeaf self.old number (λ leaf. self.new
            ≡ slice_set self.old number (Split arc (length self.old) (length self.old + 1))
            ++ Open (new_leaf (leaf.depth + 1) used.entry)
            ∷ Open (new_leaf (leaf.depth + 1) unused.entry) ∷ [])) }
        ensures err { IfErr result (λ back. (back.0 ≡ used.entry) × (back.1 ≡ unused.entry) ×
            (self.new ≡ self.old)) }
    {
        let Some(leaf) = leaf_in(self.nodes.as_slice(), number) else {
            unreachable!()
        };
        let depth = leaf.depth + 1;
        let old = (leaf.priced.tenths(), number);
        let first = self.nodes.len() as u32;
        let second = first + 1;
        if make_room(&mut self.nodes, 2).is_err() {
            return Err((used, unused));
        }
        let used_entry = (used.tenths(), first);
        let unused_entry = (unused.tenths(), second);
        match replace_by_two(&mut self.index, old, used_entry, unused_entry) {
            Ok(()) => {
                self.nodes[number as usize] = Node::Split {
                    arc,
                    used: first,
                    unused: second,
                };
                put_two(
                    &mut self.nodes,
                    open_node(depth, used),
                    open_node(depth, unused),
                );
                Ok((first, second))
            }
            Err(_) => Err((used, unused)),
        }
    }
}
