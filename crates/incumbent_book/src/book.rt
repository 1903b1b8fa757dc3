//! The book.

ghost use Rattle.std.specs.Prelude.{◌≡◌, ◌+◌, ◌≤◌, ℕ, List, [], option_map, IfOk, map};
ghost use Rattle.std.specs.Bool.{Decides};
ghost use Rattle.priced_sets.specs.Sets.{listed_set};
ghost use Rattle.incumbent_book.specs.SetLists.{IsGrown};
ghost use Rattle.incumbent_book.specs.RowLists.{listed_row, IsRowGrown};
ghost use Rattle.branching.specs.Arcs.{pair};
ghost use Rattle.tenths.specs.declared.value.TheConstants.{MOST_TENTHS};
ghost use Rattle.branching.specs.Nodes.{node_of};
ghost use Rattle.incumbent_book.specs.Trees.{IsTreeOf};
ghost use Rattle.solomon_reader.specs.Bound.{Tree, preorder};
ghost use Rattle.solomon_reader.specs.Plan.{IsPlan, plan_cost};
ghost use Rattle.solomon_reader.specs.History.{IsBound};
ghost use Rattle.incumbent_book.specs.Contents.{limits_of, past_of, bare, IsBook};
ghost use Rattle.incumbent_book.specs.Replies.{AreOpen, Opens, Offers, Reprices, Splits, Shows, IsOptimalityGap};

use crate::arena::Arena;
use crate::bounded::Bounded;
use crate::event::Event;
use crate::fault::{BookFault, OpenFault};
use crate::gap::{Gap, Steps};
use crate::growing::{Most, list_all};
use crate::limits::Limits;
use crate::offered::Offered;
use crate::outcome::Outcome;
use crate::subset_row::SubsetRow;
use crate::wanted::Wanted;
use branching::{Arc, TreeNode};
use priced_sets::ListedSet;
use prices::Priced;
use schedule::Feasible;
use solomon_reader::{MOST_ROWS, MOST_SETS};
use std::alloc::{AllocError, Global};
use std::marker::Model;
use tenths::Tenths;

/// How many events a new book has room for.
const FIRST_ROOM: usize = 16;

/// The book of a search for a cheapest plan: the incumbent, the tree of the splits with prices
/// at its leaves, the lists of all sets and of all rows that had a price there, and the history of what was
/// accepted. Contracts see the instance, the number of neighbours, the root's first value, the limits, how many
/// sets and rows may be listed, the incumbent, the history, the lists and the prices.
#[derive(Drop)]
pub struct Book<'i> {
    pub(crate) bounded: Bounded<'i>,
    pub(crate) neighbours: u32,
    pub(crate) root: u128,
    pub(crate) limits: Limits,
    pub(crate) most: Most,
    pub(crate) incumbent: Option<Feasible<'i>>,
    pub(crate) history: Vec<Event>,
    pub(crate) listed: Vec<ListedSet>,
    pub(crate) rows: Vec<SubsetRow>,
    pub(crate) arena: Arena<'i>,
}

impl<'i> Model for Book<'i> {
    ghost use Rattle.std.specs.Prelude.{map};
    ghost use Rattle.incumbent_book.specs.Contents.{Contents, limits_of, past_of};
    ghost use Rattle.incumbent_book.specs.Arena.{prices_of};
    ghost use Rattle.incumbent_book.specs.Keeping.{IsConsistent};
    ghost use Rattle.priced_sets.specs.Sets.{listed_set};
    ghost use Rattle.incumbent_book.specs.RowLists.{listed_row};

    ghost Value = { Contents };

    ghost view = { λ b. record {
      problem = b.bounded;
      neighbours = b.neighbours;
      root = b.root;
      limits = limits_of b.limits;
      most_sets = b.most.sets;
      most_rows = b.most.rows;
      incumbent = b.incumbent;
      past = past_of b.history.items;
      listed = map listed_set b.listed.items;
      rows = map listed_row b.rows.items;
      prices = map prices_of b.arena;
    } };

    ghost invariant = { λ b. IsConsistent
        (record {
          problem = b.bounded;
          neighbours = b.neighbours;
          root = b.root;
          limits = limits_of b.limits;
          most_sets = b.most.sets;
          most_rows = b.most.rows;
          incumbent = b.incumbent;
          past = past_of b.history.items;
          listed = map listed_set b.listed.items;
          rows = map listed_row b.rows.items;
          prices = map prices_of b.arena;
        }) b.arena };
}

/// Whether limits, also those of sets and rows, are good, and the sets and rows of the prices have room.
fn are_open(root: &Priced<'_>, limits: Limits, sets: u32, rows: u32) -> bool
    ensures { Decides result (AreOpen root.now (limits_of limits) sets rows) }
{
    limits.are_good()
        && sets <= MOST_SETS
        && root.sets().len() <= sets as usize
        && rows <= MOST_ROWS
        && root.rows().len() <= rows as usize
}

/// The lists of the sets and of the rows that have a price, at most so many of each.
fn first_lists(
    alloc: Global,
    root: &Priced<'_>,
    sets: u32,
    rows: u32,
) -> Result<(Vec<ListedSet>, Vec<SubsetRow>), BookFault>
    ensures sets { IfOk result (λ r. IsGrown sets root.now.sets [] (map listed_set r.0.items)) }
    ensures rows { IfOk result (λ r. IsRowGrown rows (bare root.now.rows) [] (map listed_row r.1.items)) }
{
    let mut listed = Vec::new(alloc);
    let (most, first) = (Most { sets, rows }, Wanted::of(root));
    let grown = list_all(&mut listed, &[], most, first, Wanted::none())?;
    Ok((listed, grown))
}

impl<'i> Book<'i> {
    /// A book of these prices at the root, with the greatest limits, no sets and no rows. `NotRoot` where an arc is
    /// decided, `BadLimits` where a set or a row has a price, and `Memory`; a refusal gives the prices back.
    pub fn new(alloc: Global, root: Priced<'i>) -> Result<Book<'i>, (Priced<'i>, OpenFault)>
        ensures opens { Opens root.entry (limits_of Limits.MOST) 0 0 result }
        ensures book { IfOk result (λ b. IsBook b) }
    {
        Book::with_limits(alloc, root, Limits::MOST)
    }

    /// A book of these prices at the root, with limits of its own, no sets and no rows. `NotRoot` where an arc is
    /// decided, else `BadLimits` where a limit is 0 or above the greatest or a set or a row has a price, and `Memory`.
    pub fn with_limits(
        alloc: Global,
        root: Priced<'i>,
        limits: Limits,
    ) -> Result<Book<'i>, (Priced<'i>, OpenFault)>
        ensures opens { Opens root.entry (limits_of limits) 0 0 result }
        ensures book { IfOk result (λ b. IsBook b) }
    {
        Book::with_sets(alloc, root, limits, 0)
    }

    /// A book of these prices at the root, with limits of its own, in which at most so many sets are listed, 0 to 1,000,
    /// and no rows. `NotRoot` where an arc is decided, else `BadLimits` where a limit is 0 or above the greatest, the
    /// prices have more sets or a row has one, and `Memory`.
    pub fn with_sets(
        alloc: Global,
        root: Priced<'i>,
        limits: Limits,
        sets: u32,
    ) -> Result<Book<'i>, (Priced<'i>, OpenFault)>
        ensures opens { Opens root.entry (limits_of limits) sets 0 result }
        ensures book { IfOk result (λ b. IsBook b) }
    {
        Book::with_rows(alloc, root, limits, sets, 0)
    }

    /// A book of these prices at the root, with limits of its own, in which at most so many sets and so many rows are
    /// listed, 0 to 1,000 each. `NotRoot` where an arc is decided, else `BadLimits` where a limit is 0 or above the
    /// greatest or the prices have more sets or rows, and `Memory`.
    pub fn with_rows(
        alloc: Global,
        root: Priced<'i>,
        limits: Limits,
        sets: u32,
        rows: u32,
    ) -> Result<Book<'i>, (Priced<'i>, OpenFault)>
        ensures opens { Opens root.entry (limits_of limits) sets rows result }
        ensures book { IfOk result (λ b. IsBook b) }
    {
        if !root.region().is_root() {
            return Err((root, OpenFault::NotRoot));
        }
        if !are_open(&root, limits, sets, rows) {
            return Err((root, OpenFault::BadLimits));
        }
        let bounded = Bounded::new(root.instance());
        let neighbours = root.neighbours();
        let value = root.tenths();
        let Ok(history) = Vec::with_capacity(alloc, FIRST_ROOM) else {
            return Err((root, OpenFault::Memory));
        };
        let Ok(lists) = first_lists(alloc, &root, sets, rows) else {
            return Err((root, OpenFault::Memory));
        };
        match Arena::new(alloc, root) {
            Ok(arena) => Ok(Book {
                bounded,
                neighbours,
                root: value,
                limits,
                most: Most { sets, rows },
                incumbent: None,
                history,
                listed: lists.0,
                rows: lists.1,
                arena,
            }),
            Err(root) => Err((root, OpenFault::Memory)),
        }
    }

    /// Offers a worker's plan, which becomes the incumbent where it is cheaper than every earlier
    /// one. A refusal changes nothing and gives the plan back: `ForeignInstance`, `JournalFull`,
    /// or `Memory`.
    pub fn offer(
        &mut self,
        worker: u16,
        plan: Feasible<'i>,
    ) -> Result<Offered<'i>, (Feasible<'i>, BookFault)>
        ensures offers { Offers self.old worker plan.entry result self.new }
        ensures book { IsBook self.new }
    {
        let reply = self.answer(worker, plan);
        self.holds();
        reply
    }

    /// Gives a leaf new prices of a higher value at its region. A refusal changes nothing and gives
    /// the prices back: `ForeignInstance`, `JournalFull`, `NotALeaf`, `WrongRegion`, `NotHigher`,
    /// `SetsFull`, `RowsFull`, or `Memory`.
    pub fn reprice(
        &mut self,
        worker: u16,
        leaf: u32,
        priced: Priced<'i>,
    ) -> Result<(), (Priced<'i>, BookFault)>
        ensures reprices { Reprices self.old worker leaf priced.entry result self.new }
        ensures book { IsBook self.new }
    {
        let reply = match self.reprice_fault(leaf, &priced) {
            Some(fault) => Err((priced, fault)),
            None => self.raise(worker, leaf, priced),
        };
        self.holds();
        reply
    }

    /// Splits a leaf by an arc, with prices of no lower value at both children, and answers their
    /// numbers, that of the child in which the arc is required first. A refusal changes nothing and
    /// gives the prices back: `ForeignInstance`, `JournalFull`, `NotALeaf`, `WrongRegion`, `Lower`,
    /// `LeavesFull`, `TooDeep`, `SetsFull`, `RowsFull`, or `Memory`.
    pub fn split(
        &mut self,
        worker: u16,
        leaf: u32,
        arc: Arc,
        used: Priced<'i>,
        unused: Priced<'i>,
    ) -> Result<(u32, u32), (Priced<'i>, Priced<'i>, BookFault)>
        ensures splits { Splits self.old worker leaf
            (pair arc) used.entry unused.entry result self.new }
        ensures book { IsBook self.new }
    {
        let reply = match self.split_fault(leaf, arc, &used, &unused) {
            Some(fault) => Err((used, unused, fault)),
            None => self.take_split(worker, leaf, arc, used, unused),
        };
        self.holds();
        reply
    }

    /// A leaf's prices and value, or none where the number isn't that of a leaf.
    pub fn leaf(&self, number: u32) -> Option<&Priced<'i>>
        ensures shows { Shows self.now number (option_map (λ f. f.now) result) }
        ensures book { IsBook self.now }
    {
        self.holds();
        match self.open_leaf(number) {
            Some(leaf) => Some(&leaf.priced),
            None => None,
        }
    }

    /// The best cost offered, and the least of the leaves' values and the ceiling plus one, which no
    /// plan's cost is below.
    pub fn gap(&self) -> Gap
        ensures gap { IsOptimalityGap self.now result }
        ensures within { result.bound ≤ MOST_TENTHS }
        ensures holds { (routes : List (List ℕ)) → IsPlan self.now.problem routes
            → result.bound ≤ plan_cost self.now.problem routes }
        ensures book { IsBook self.now }
    {
        self.gap_counted(&mut Steps::new())
    }

    /// The answer of `gap`. It reads the value of one node at most, and `steps` counts that: so a caller sees that
    /// the bound is found at once, however many leaves stand.
    pub fn gap_counted(&self, steps: &mut Steps) -> Gap
        ensures gap { IsOptimalityGap self.now result }
        ensures within { result.bound ≤ MOST_TENTHS }
        ensures holds { (routes : List (List ℕ)) → IsPlan self.now.problem routes
            → result.bound ≤ plan_cost self.now.problem routes }
        ensures at_most_one { (steps.old ≤ steps.new) × (steps.new ≤ steps.old + 1) }
        ensures book { IsBook self.now }
    {
        self.holds();
        Gap {
            cost: self.best(),
            bound: self.bound(steps),
        }
    }

    /// The accepted calls, in order.
    pub fn history(&self) -> &[Event]
        ensures { past_of result.now ≡ self.now.past }
    {
        self.history.as_slice()
    }

    /// What the book leaves.
    pub fn finish(self) -> Outcome<'i>
        ensures { result ≡ self.entry }
    {
        Outcome { book: self }
    }

    /// The laws of a book hold.
    pub(crate) fn holds(&self)
        ensures { IsBook self.now }
    {
        let _ = &self.bounded;
    }

    /// The nodes of the tree, in preorder.
    pub(crate) fn nodes(&self, alloc: Global) -> Result<Vec<TreeNode>, AllocError>
        ensures { IfOk result (λ v. (tree : Tree) × IsTreeOf self.now tree ×
            (map node_of v.items ≡ preorder tree)) }
    {
        self.arena
            .list(alloc, self.listed.as_slice(), self.rows.as_slice())
    }

    /// The least of the leaves' values and the ceiling plus one, in tenths.
    fn bound(&self, steps: &mut Steps) -> Tenths
        ensures bound { IsBound self.now.problem self.now.root self.now.past result }
        ensures within { result ≤ MOST_TENTHS }
        ensures at_most_one { (steps.old ≤ steps.new) × (steps.new ≤ steps.old + 1) }
    {
        let above = self.bounded.above();
        match self.arena.least_value(steps) {
            None => Tenths::from(above),
            Some(value) => {
                if value < u128::from(above) {
                    Tenths::from(value as u32)
                } else {
                    Tenths::from(above)
                }
            }
        }
    }
}
