//! Sets of which it is known how often each plan enters them.

ghost use Rattle.std.specs.Prelude.{◌≡◌, ◌↔◌, IfOk, IsTrue, [], map};
ghost use Rattle.solomon_reader.specs.Problem.{customer_count};
ghost use Rattle.solomon_reader.specs.CustomerSets.{IsCustomerSet};
ghost use Rattle.solomon_reader.specs.CertificateText.{IsListedSet};
ghost use Rattle.priced_sets.specs.Sets.{listed_set, MayBeListed};

use crate::priced_set::ListedSet;
use set_needs::{QuickestWays, is_needed};
use solomon_reader::{Instance, MOST_NEED};
use std::alloc::{AllocError, Global};
use std::marker::Model;

/// Sets of an instance's customers that need as many entries as they are said to. Contracts see the instance.
#[derive(Drop)]
pub struct NeededSets<'i> {
    alloc: Global,
    instance: &'i Instance,
    ways: QuickestWays<'i>,
    sets: Vec<ListedSet>,
}

impl<'i> Model for NeededSets<'i> {
    ghost use Rattle.std.specs.Prelude.{◌≡◌, map};
    ghost use Rattle.std.specs.List.{AllByRecursion};
    ghost use Rattle.solomon_reader.specs.Problem.{Problem};
    ghost use Rattle.priced_sets.specs.Sets.{listed_set, MayBeListed};

    ghost Value = { Problem };

    ghost view = { λ n. n.instance.now };

    ghost invariant = { λ n. (n.ways ≡ n.instance.now)
        × AllByRecursion (MayBeListed n.instance.now) (map listed_set n.sets.items) };
}

/// Whether these are customers 1 to the last, in increasing order.
fn is_customer_set(members: &[u16], last: u16) -> bool
    ensures { IsTrue result ↔ IsCustomerSet last members.now }
{
    let mut before = 0;
    for member in members {
        if *member <= before || *member > last {
            return false;
        }
        before = *member;
    }
    true
}

/// Whether these are at least two of the customers 1 to the last, in increasing order, and the need is one that a list
/// of sets may tell.
fn is_listed_set(members: &[u16], need: u32, last: u16) -> bool
    ensures { IsTrue result ↔ IsListedSet last (record { members = members.now; need = need }) }
{
    need >= 1 && need <= MOST_NEED && members.len() >= 2 && is_customer_set(members, last)
}

impl<'i> NeededSets<'i> {
    /// None yet, of an instance. `AllocError` where memory was refused.
    pub fn new(alloc: Global, instance: &'i Instance) -> Result<NeededSets<'i>, AllocError>
        ensures { IfOk result (λ n. n ≡ instance.now) }
    {
        Ok(NeededSets {
            alloc,
            instance,
            ways: QuickestWays::new(alloc, instance)?,
            sets: Vec::new(alloc),
        })
    }

    /// The instance.
    pub fn instance(&self) -> &'i Instance
        ensures { result.now ≡ self.now }
    {
        self.instance
    }

    /// How long the quickest ways between its rows take.
    pub fn ways(&self) -> &QuickestWays<'i>
        ensures { result.now ≡ self.now }
    {
        &self.ways
    }

    /// Whether a set was found to need so many entries before.
    fn is_known(&self, members: &[u16], need: u32) -> bool
        ensures { IsTrue result → MayBeListed self.now (record { members = members.now; need = need }) }
    {
        for set in &self.sets {
            if set.need == need && set.members.as_slice() == members {
                return true;
            }
        }
        false
    }

    /// Whether at least two customers of the instance, in increasing order, need so many entries. Those that do are
    /// remembered. `AllocError` where memory was refused; then nothing is.
    pub fn is_needed(&mut self, members: &[u16], need: u32) -> Result<bool, AllocError>
        ensures instance { self.new ≡ self.old }
        ensures needed { IfOk result (λ r. IsTrue r ↔ MayBeListed self.old (record { members = members.now; need = need })) }
    {
        if self.is_known(members, need) {
            return Ok(true);
        }
        if !is_listed_set(members, need, self.instance.customer_count()) {
            return Ok(false);
        }
        if !is_needed(self.alloc, self.instance, &self.ways, members, need)? {
            return Ok(false);
        }
        let members = Vec::from_slice(self.alloc, members)?;
        self.sets.push(ListedSet { members, need })?;
        Ok(true)
    }
}
