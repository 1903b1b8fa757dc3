//! What a finished book leaves.

ghost use Rattle.std.specs.Prelude.{◌≡◌, ◌≤◌, ℕ, List, map, option_map, IfOk};
ghost use Rattle.branching.specs.Nodes.{node_of};
ghost use Rattle.incumbent_book.specs.Trees.{IsTreeOf};
ghost use Rattle.tenths.specs.declared.value.TheConstants.{MOST_TENTHS};
ghost use Rattle.solomon_reader.specs.Bound.{Tree, preorder};
ghost use Rattle.solomon_reader.specs.Plan.{IsPlan, plan_cost};
ghost use Rattle.solomon_reader.specs.History.{IsBound};
ghost use Rattle.priced_sets.specs.Sets.{listed_set};
ghost use Rattle.incumbent_book.specs.RowLists.{listed_row};
ghost use Rattle.incumbent_book.specs.Contents.{past_of, IsBook};

use crate::book::Book;
use crate::event::Event;
use crate::subset_row::SubsetRow;
use branching::TreeNode;
use priced_sets::ListedSet;
use schedule::Feasible;
use solomon_reader::Instance;
use std::alloc::{AllocError, Global};
use std::marker::Model;
use tenths::Tenths;

/// What a finished book is taken apart into.
#[derive(Drop)]
pub struct OutcomeParts<'i> {
    /// The incumbent, if there is one.
    pub plan: Option<Feasible<'i>>,
    /// The bound, in tenths.
    pub bound: Tenths,
    /// The sets that ever had a price at a leaf.
    pub sets: Vec<ListedSet>,
    /// The rows that ever had a price at a leaf, in increasing order.
    pub rows: Vec<SubsetRow>,
    /// The nodes of the tree in preorder, by the numbers of sets and rows.
    pub nodes: Vec<TreeNode>,
}

/// A finished book. Contracts see what the book had.
#[derive(Drop)]
pub struct Outcome<'i> {
    pub(crate) book: Book<'i>,
}

impl<'i> Model for Outcome<'i> {
    ghost use Rattle.std.specs.Coded.{codes};
    ghost use Rattle.incumbent_book.specs.Contents.{Contents};

    ghost Value = { Contents };

    ghost view = { λ o. o.book };
}

impl<'i> Outcome<'i> {
    /// The incumbent, a plan of the best cost offered, or none if nothing was.
    pub fn plan(&self) -> Option<&Feasible<'i>>
        ensures value { option_map (λ plan. plan.now) result ≡ self.now.incumbent }
        ensures book { IsBook self.now }
    {
        self.book.holds();
        self.book.incumbent.as_ref()
    }

    /// The least of the leaves' values and the ceiling plus one, in tenths, which no plan's cost is
    /// below.
    pub fn bound(&self) -> Tenths
        ensures bound { IsBound self.now.problem self.now.root self.now.past result }
        ensures within { result ≤ MOST_TENTHS }
        ensures holds { (routes : List (List ℕ)) → IsPlan self.now.problem routes
            → result ≤ plan_cost self.now.problem routes }
        ensures book { IsBook self.now }
    {
        self.book.gap().bound
    }

    /// The instance that the book is about.
    pub fn instance(&self) -> &'i Instance
        ensures { result.now ≡ self.now.problem }
    {
        self.book.bounded.instance()
    }

    /// How many neighbours each customer has in relaxed routes.
    pub fn neighbours(&self) -> u32
        ensures { result ≡ self.now.neighbours }
    {
        self.book.neighbours
    }

    /// The nodes of the tree in preorder, the child in which an arc is required first. Its bound is
    /// `bound`. `AllocError` where memory is refused.
    pub fn nodes(&self, alloc: Global) -> Result<Vec<TreeNode>, AllocError>
        ensures { IfOk result (λ v. (tree : Tree) × IsTreeOf self.now tree ×
            (map node_of v.items ≡ preorder tree)) }
    {
        self.book.nodes(alloc)
    }

    /// The sets that ever had a price at a leaf, by which `nodes` names them.
    pub fn sets(&self) -> &[ListedSet]
        ensures { map listed_set result.now ≡ self.now.listed }
    {
        self.book.listed.as_slice()
    }

    /// The rows that ever had a price at a leaf, in increasing order, by which `nodes` names them.
    pub fn rows(&self) -> &[SubsetRow]
        ensures { map listed_row result.now ≡ self.now.rows }
    {
        self.book.rows.as_slice()
    }

    /// The incumbent, if there is one, the bound of `bound`, the sets of `sets`, the rows of `rows` and the nodes of
    /// `nodes`. `AllocError` where memory is refused.
    pub fn into_parts(self, alloc: Global) -> Result<OutcomeParts<'i>, AllocError>
        ensures plan { IfOk result (λ r. r.plan ≡ self.entry.incumbent) }
        ensures bound { IfOk result (λ r. IsBound self.entry.problem self.entry.root
            self.entry.past r.bound) }
        ensures sets { IfOk result (λ r. map listed_set r.sets.items ≡ self.entry.listed) }
        ensures rows { IfOk result (λ r. map listed_row r.rows.items ≡ self.entry.rows) }
        ensures nodes { IfOk result (λ r. (tree : Tree) × IsTreeOf self.entry tree
            × (map node_of r.nodes.items ≡ preorder tree)) }
        ensures book { IsBook self.entry }
    {
        let bound = self.bound();
        let nodes = self.nodes(alloc)?;
        Ok(OutcomeParts {
            plan: self.book.incumbent,
            bound,
            sets: self.book.listed,
            rows: self.book.rows,
            nodes,
        })
    }

    /// The accepted calls, in order.
    pub fn history(&self) -> &[Event]
        ensures { past_of result.now ≡ self.now.past }
    {
        self.book.history()
    }
}
