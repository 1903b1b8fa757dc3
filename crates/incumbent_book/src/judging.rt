//! Whether a call is accepted, and for which fault it is refused.

ghost use Rattle.std.specs.Prelude.{◌≡◌, ◌<◌, length, option_map};
ghost use Rattle.std.specs.Bool.{Decides};
ghost use Rattle.branching.specs.Arcs.{pair};
ghost use Rattle.solomon_reader.specs.Region.{used_child, unused_child};
ghost use Rattle.solomon_reader.specs.History.{leaf_count};
ghost use Rattle.incumbent_book.specs.Keeping.{IsLeafOf};
ghost use Rattle.incumbent_book.specs.Faults.{IsFirstFault, IsAt, AreChildren, offer, reprice, split};

use crate::book::Book;
use crate::fault::BookFault;
use crate::node::Leaf;
use branching::{Arc, Region};
use prices::Priced;
use schedule::Feasible;
use solomon_reader::Instance;

impl<'i> Book<'i> {
    /// Whether an instance is the book's.
    fn is_of_instance(&self, instance: &Instance) -> bool
        ensures { Decides result (instance.now ≡ self.now.problem) }
    {
        *instance == *self.bounded.instance()
    }

    /// Whether one more event may stand.
    fn has_events_left(&self) -> bool
        ensures { Decides result (length self.now.past < self.now.limits.events) }
    {
        self.history.len() < self.limits.events
    }

    /// Whether one more leaf may stand.
    fn has_leaves_left(&self) -> bool
        ensures { Decides result (leaf_count self.now.past < self.now.limits.leaves) }
    {
        self.arena.leaf_count() < self.limits.leaves
    }

    /// Whether one more split may stand above the children of a leaf.
    fn has_depth_left(&self, leaf: &Leaf<'i>) -> bool
        ensures { Decides result (leaf.now.depth < self.now.limits.depth) }
    {
        leaf.depth < self.limits.depth
    }

    /// The leaf of a number, if it is one.
    pub(crate) fn open_leaf(&self, number: u32) -> Option<&Leaf<'i>>
        ensures { IsLeafOf self.now number (option_map (λ leaf. leaf.now) result) }
    {
        self.arena.leaf(number)
    }

    /// Whether prices are at the region of a leaf, with the book's number of neighbours.
    fn is_at(&self, leaf: &Leaf<'i>, priced: &Priced<'i>) -> bool
        ensures { Decides result (IsAt self.now leaf.now.priced.region priced.now) }
    {
        priced.region().is_same(leaf.priced.region()) && priced.neighbours() == self.neighbours
    }

    /// Whether prices are at the child of a region in which an arc is required, with the book's
    /// number of neighbours.
    fn is_at_used_child(&self, region: &Region, arc: Arc, priced: &Priced<'i>) -> bool
        ensures { Decides result (IsAt self.now (used_child region.now (pair arc)) priced.now) }
    {
        priced.region().is_used_child(region, arc) && priced.neighbours() == self.neighbours
    }

    /// Whether prices are at the child of a region in which an arc is forbidden, with the book's
    /// number of neighbours.
    fn is_at_unused_child(&self, region: &Region, arc: Arc, priced: &Priced<'i>) -> bool
        ensures { Decides result (IsAt self.now (unused_child region.now (pair arc)) priced.now) }
    {
        priced.region().is_unused_child(region, arc) && priced.neighbours() == self.neighbours
    }

    /// Whether prices are at the children of a leaf's region by an arc.
    fn are_children(
        &self,
        leaf: &Leaf<'i>,
        arc: Arc,
        used: &Priced<'i>,
        unused: &Priced<'i>,
    ) -> bool
        ensures { Decides result (AreChildren self.now leaf.now.priced.region
            (pair arc) used.now unused.now) }
    {
        let region = leaf.priced.region();
        if !region.is_undecided(arc) {
            return false;
        }
        if !self.is_at_used_child(region, arc, used) {
            return false;
        }
        self.is_at_unused_child(region, arc, unused)
    }

    /// The first fault of an offer.
    pub(crate) fn offer_fault(&self, plan: &Feasible<'i>) -> Option<BookFault>
        ensures { IsFirstFault self.now (offer plan.now) result }
    {
        if !self.is_of_instance(plan.instance()) {
            return Some(BookFault::ForeignInstance);
        }
        if !self.has_events_left() {
            return Some(BookFault::JournalFull);
        }
        None
    }

    /// The first fault of new prices for a leaf.
    pub(crate) fn reprice_fault(&self, leaf: u32, priced: &Priced<'i>) -> Option<BookFault>
        ensures { IsFirstFault self.now (reprice leaf priced.now) result }
    {
        if !self.is_of_instance(priced.instance()) {
            return Some(BookFault::ForeignInstance);
        }
        if !self.has_events_left() {
            return Some(BookFault::JournalFull);
        }
        let Some(old) = self.open_leaf(leaf) else {
            return Some(BookFault::NotALeaf);
        };
        if !self.is_at(old, priced) {
            return Some(BookFault::WrongRegion);
        }
        if priced.tenths() <= old.priced.tenths() {
            return Some(BookFault::NotHigher);
        }
        None
    }

    /// The first fault of a split.
    pub(crate) fn split_fault(
        &self,
        leaf: u32,
        arc: Arc,
        used: &Priced<'i>,
        unused: &Priced<'i>,
    ) -> Option<BookFault>
        ensures { IsFirstFault self.now (split leaf (pair arc) used.now unused.now) result }
    {
        if !self.is_of_instance(used.instance()) {
            return Some(BookFault::ForeignInstance);
        }
        if !self.is_of_instance(unused.instance()) {
            return Some(BookFault::ForeignInstance);
        }
        if !self.has_events_left() {
            return Some(BookFault::JournalFull);
        }
        let Some(old) = self.open_leaf(leaf) else {
            return Some(BookFault::NotALeaf);
        };
        if !self.are_children(old, arc, used, unused) {
            return Some(BookFault::WrongRegion);
        }
        if used.tenths().min(unused.tenths()) < old.priced.tenths() {
            return Some(BookFault::Lower);
        }
        if !self.has_leaves_left() {
            return Some(BookFault::LeavesFull);
        }
        if !self.has_depth_left(old) {
            return Some(BookFault::TooDeep);
        }
        None
    }
}
