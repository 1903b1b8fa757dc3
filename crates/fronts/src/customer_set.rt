//! Sets of rows.

ghost use Rattle.std.specs.Prelude.{◌≡◌, ℕ, nat_le, IfOk};
ghost use Rattle.std.specs.FinSet.{contains, empty, insert, remove, intersection};

use std::alloc::{AllocError, Global};
use std::marker::Model;

/// A set of rows of an instance: customers by their numbers, and 0 for the depot.
#[derive(Drop)]
pub struct CustomerSet {
    /// Whether the set has each row.
    flags: Vec<bool>,
}

impl Model for CustomerSet {
    ghost use Rattle.std.specs.Ordering.{nat_cmp};
    ghost use Rattle.std.specs.Coded.{coded_ℕ};
    ghost use Rattle.std.specs.FinSet as set;
    ghost use Rattle.fronts.specs.Flags.{set_of};

    ghost Value = { set.FinSet nat_cmp };

    ghost coded = { set.code coded_ℕ };

    ghost view = { λ s. set_of s.flags.items };
}

impl CustomerSet {
    /// The depot and this many customers.
    pub(crate) fn all(alloc: Global, count: u16) -> Result<CustomerSet, AllocError>
        ensures { IfOk result (λ s. (u : ℕ) → contains s u ≡ nat_le u count) }
    {
        let flags = vec![in alloc; true; usize::from(count) + 1]?;
        Ok(CustomerSet { flags })
    }

    /// Whether a row is in the set.
    pub fn contains(&self, u: u16) -> bool
        ensures { result ≡ contains self.now u }
    {
        let row = usize::from(u);
        row < self.flags.len() && self.flags[row]
    }

    /// Takes a row out.
    pub(crate) fn remove(&mut self, u: u16)
        ensures { self.new ≡ remove self.old u }
    {
        let row = usize::from(u);
        if row < self.flags.len() {
            self.flags[row] = false;
        }
    }

    /// Takes all other rows out.
    pub(crate) fn keep_only(&mut self, u: u16)
        ensures { self.new ≡ intersection self.old (insert empty u) }
    {
        let row = usize::from(u);
        let kept = self.contains(u);
        self.flags.as_mut_slice().fill(false);
        if row < self.flags.len() {
            self.flags[row] = kept;
        }
    }
}
