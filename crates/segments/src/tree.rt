//! Lists of items, with the joins of their neighbours in levels.

ghost use Rattle.std.specs.Prelude.{◌≡◌, ◌+◌, ◌<◌, ◌≤◌, ◌++◌, length, take, drop, slice_range, Some, option_copied, IfOk, IfErr, OnOk, OnErr};
ghost use Rattle.segments.specs.Linked.{chain};
ghost use Rattle.segments.specs.Levels.{AreLevels, IsHeight, binary_digits};
ghost use Rattle.segments.specs.Trees.{items_of, IsTree, IsWhole, IsTall, IsBeginning};

use crate::fault::TreeFault;
use crate::levels::{height_of, level_above, lowest_level};
use crate::linked::Linked;
use crate::stretch::Stretch;
use std::alloc::Global;

/// A balanced tree over a list of items that may be joined: the lowest level has the items, and
/// each next one the joins of its neighbours two by two. Contracts see the items, and that the joins
/// that it keeps are those of the items. Positions are counted from 0.
#[derive(Drop)]
pub struct RouteTree<L> {
    alloc: Global,
    items: Vec<L>,
    /// The joins that it keeps, the lowest level first.
    levels: Vec<Vec<Option<L>>>,
}

impl<L: Linked> RouteTree<L> {
    /// A tree of the items, or the list of them again and `Memory`.
    pub fn new(
        alloc: Global,
        context: &L::Context,
        items: Vec<L>,
    ) -> Result<RouteTree<L>, (Vec<L>, TreeFault)>
        ensures items { IfOk result (λ t. items_of t ≡ items.items) }
        ensures tree { IfOk result (λ t. IsTree (L.op context.now) t) }
        ensures back { IfErr result (λ e. e.0 ≡ items) }
    {
        let empty = RouteTree {
            alloc,
            items: Vec::new(alloc),
            levels: Vec::new(alloc),
        };
        match empty.levels_with(context, items.as_slice(), 0) {
            Ok(levels) => Ok(RouteTree {
                alloc,
                items,
                levels,
            }),
            Err(fault) => Err((items, fault)),
        }
    }

    /// The levels over other items, of which the first ones are kept, and so are the joins of these.
    fn levels_with(
        &self,
        context: &L::Context,
        items: &[L],
        kept: usize,
    ) -> Result<Vec<Vec<Option<L>>>, TreeFault>
        requires tree { IsTree (L.op context.now) self.now }
        requires same { take kept items.now ≡ take kept (items_of self.now) }
        ensures { IfOk result (λ v. AreLevels (L.op context.now) items.now v.items) }
    {
        let mut levels = Vec::new(self.alloc);
        let height = height_of(items.len());
        if height == 0 {
            return Ok(levels);
        }
        levels.push(lowest_level(self.alloc, items)?)?;
        let mut kept = kept;
        for k in 0..(height - 1) as usize {
            kept /= 2;
            let level = level_above(
                self.alloc,
                context,
                levels[k].as_slice(),
                self.beginning(k + 1, kept),
            )?;
            levels.push(level)?;
        }
        Ok(levels)
    }

    /// The first joins of a level, and none of a level that isn't there.
    fn beginning(&self, k: usize, count: usize) -> &[Option<L>]
        ensures { IsBeginning self.now.levels.items k count result.now }
    {
        match self.levels.get(k) {
            Some(level) => &level[..count.min(level.len())],
            None => &[],
        }
    }

    /// The items, in order.
    pub fn items(&self) -> &[L]
        ensures { result.now ≡ items_of self.now }
    {
        self.items.as_slice()
    }

    /// The number of items.
    pub fn len(&self) -> usize
        ensures { result ≡ length (items_of self.now) }
    {
        self.items.len()
    }

    /// The number of levels: none for no item, and else at most one more than the binary digits of the
    /// length. It takes no memory.
    pub fn height(&self) -> u32
        ensures levels { IsTall self.now result }
        ensures height { IsHeight (length (items_of self.now)) result }
        ensures digits { result ≤ binary_digits (length (items_of self.now)) + 1 }
    {
        height_of(self.len())
    }

    /// The join of all items, or `None` where they can't be joined or there is none.
    pub fn whole(&self) -> Option<&L>
        ensures { IsWhole self.now (option_copied result) }
    {
        self.levels.last()?.first()?.as_ref()
    }

    /// The join of some items, found by going up the levels.
    fn inner_span(&self, context: &L::Context, a: usize, b: usize) -> Option<L>
        requires tree { IsTree (L.op context.now) self.now }
        requires some { a < b }
        requires within { b ≤ length (items_of self.now) }
        ensures { result ≡ chain (L.op context.now) (slice_range (items_of self.now) a b) }
    {
        let mut stretch = Stretch {
            a,
            b,
            before: None,
            behind: None,
        };
        for level in self.levels.as_slice() {
            stretch = stretch.up(context, level.as_slice());
        }
        stretch.closed(context)?
    }

    /// The join of the items from a on and before b, or `None` where they can't be joined. It takes
    /// no memory.
    pub fn span(&self, context: &L::Context, a: usize, b: usize) -> Option<L>
        requires tree { IsTree (L.op context.now) self.now }
        requires some { a < b }
        requires within { b ≤ length (items_of self.now) }
        ensures { result ≡ chain (L.op context.now) (slice_range (items_of self.now) a b) }
    {
        if b - a == 1 {
            return Some(self.items[a]);
        }
        self.inner_span(context, a, b)
    }

    /// Puts the list in the place of the items from a on and before b; at `Err` nothing is changed.
    pub fn splice(
        &mut self,
        context: &L::Context,
        a: usize,
        b: usize,
        list: &[L],
    ) -> Result<(), TreeFault>
        requires tree { IsTree (L.op context.now) self.old }
        requires in_order { a ≤ b }
        requires within { b ≤ length (items_of self.old) }
        ensures items { OnOk result (items_of self.new ≡ take a
            (items_of self.old) ++ list.now ++ drop b (items_of self.old)) }
        ensures unchanged { OnErr result (items_of self.new ≡ items_of self.old) }
        ensures tree { IsTree (L.op context.now) self.new }
    {
        let mut items = Vec::new(self.alloc);
        items.extend_from_slice(&self.items[..a])?;
        items.extend_from_slice(list)?;
        items.extend_from_slice(&self.items[b..])?;
        let levels = self.levels_with(context, items.as_slice(), a)?;
        self.items = items;
        self.levels = levels;
        Ok(())
    }
}
