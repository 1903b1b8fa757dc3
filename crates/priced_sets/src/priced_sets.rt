//! The sets that have a price at a leaf.

ghost use Rattle.std.specs.Prelude.{◌≡◌, ◌≢◌, ◌≤◌, ◌*◌, IfOk, OnOk, [], IsTrue, IsFalse};
ghost use Rattle.std.specs.List.{AllByRecursion};
ghost use Rattle.solomon_reader.specs.SetPrices.{price_sum, paid_for_needs};
ghost use Rattle.solomon_reader.specs.declared.limits.TheConstants.{MOST_NEED, MOST_PRICE};
ghost use Rattle.priced_sets.specs.Sets.{set_of, sets_of, ArePriced, IsTakenIn, AreTakenIn};
ghost use Rattle.priced_sets.specs.declared.priced_sets.TheConstants.{MOST_TOGETHER};

use crate::needed_sets::NeededSets;
use crate::priced_set::PricedSet;
use solomon_reader::{Instance, MOST_PRICE};
use std::alloc::{AllocError, Global};
use std::marker::Model;

/// All sets together are paid at most this for an entry, in grains: half of the range, so customers' prices have the
/// other half.
pub const MOST_TOGETHER: u64 = MOST_PRICE / 2;

/// Sets of an instance that have prices: no two are the same, each needs as many entries as it is said to, and together
/// they are paid no more for an entry than the greatest price. Contracts see the instance and the sets.
#[derive(Debug, Drop)]
pub struct PricedSets<'i> {
    alloc: Global,
    instance: &'i Instance,
    sets: Vec<PricedSet>,
}

impl<'i> Model for PricedSets<'i> {
    ghost use Rattle.std.specs.Coded.{codes};
    ghost use Rattle.priced_sets.specs.Sets.{SetPrices, sets_of, ArePriced};

    ghost Value = { SetPrices };

    ghost view = { λ s. record { problem = s.instance.now; sets = sets_of s.sets.items } };

    ghost invariant = { λ s. ArePriced s.instance.now (sets_of s.sets.items) };
}

/// What sets are paid together for an entry, in grains.
fn sum_of(sets: &[PricedSet]) -> u64
    requires { price_sum (sets_of sets.now) ≤ MOST_PRICE }
    ensures { result ≡ price_sum (sets_of sets.now) }
{
    let mut sum: u64 = 0;
    for set in sets {
        sum += set.price;
    }
    sum
}

/// What all needed entries of sets are paid, in grains.
fn needs_of(sets: &[PricedSet]) -> u128
    requires { paid_for_needs (sets_of sets.now) ≤ MOST_NEED * MOST_PRICE }
    ensures { result ≡ paid_for_needs (sets_of sets.now) }
{
    let mut sum: u128 = 0;
    for set in sets {
        sum += u128::from(set.price) * u128::from(set.need);
    }
    sum
}

impl<'i> PricedSets<'i> {
    /// No sets of an instance.
    pub fn none(alloc: Global, instance: &'i Instance) -> PricedSets<'i>
        ensures problem { result.problem ≡ instance.now }
        ensures sets { result.sets ≡ [] }
    {
        PricedSets {
            alloc,
            instance,
            sets: Vec::new(alloc),
        }
    }

    /// Of these sets those that may have their prices at leaves of an instance: which are needed, of several with the same
    /// members the first, as long as all together are paid at most `MOST_TOGETHER`. None where the needed sets are those of
    /// another instance. `AllocError` where memory was refused.
    pub fn of(
        alloc: Global,
        instance: &'i Instance,
        needed: &mut NeededSets<'_>,
        wanted: &[PricedSet],
    ) -> Result<PricedSets<'i>, AllocError>
        ensures problem { IfOk result (λ s. s.problem ≡ instance.now) }
        ensures needed { needed.new ≡ needed.old }
        ensures taken { needed.old ≡ instance.now
            → IfOk result (λ s. AreTakenIn instance.now MOST_TOGETHER [] (sets_of wanted.now) s.sets) }
        ensures foreign { needed.old ≢ instance.now → IfOk result (λ s. s.sets ≡ []) }
    {
        let mut sets = PricedSets::none(alloc, instance);
        if *needed.instance() == *instance {
            for set in wanted {
                sets.admit(needed, set)?;
            }
        }
        Ok(sets)
    }

    /// Whether one of the sets has these members.
    fn has(&self, members: &[u16]) -> bool
        ensures yes { IsTrue result → ¬ AllByRecursion (λ t. t.members ≢ members.now) self.now.sets }
        ensures no { IsFalse result → AllByRecursion (λ t. t.members ≢ members.now) self.now.sets }
    {
        for set in &self.sets {
            if set.members.as_slice() == members {
                return true;
            }
        }
        false
    }

    /// Takes in a set with its price, if it may have it.
    fn admit(&mut self, needed: &mut NeededSets<'_>, set: &PricedSet) -> Result<(), AllocError>
        requires { needed.old ≡ self.old.problem }
        ensures problem { self.new.problem ≡ self.old.problem }
        ensures needed { needed.new ≡ needed.old }
        ensures taken { OnOk result (IsTakenIn self.old.problem MOST_TOGETHER self.old.sets (set_of set.now) self.new.sets) }
    {
        let members = set.members.as_slice();
        let room = MOST_TOGETHER.saturating_sub(self.sum());
        if set.price < 1 || set.price > room || self.has(members) {
            return Ok(());
        }
        if needed.is_needed(members, set.need)? {
            self.sets.insert(0, set.try_clone()?)?;
        }
        Ok(())
    }

    /// What the sets are paid together for an entry, in grains.
    pub fn sum(&self) -> u64
        ensures sum { result ≡ price_sum self.now.sets }
        ensures bound { result ≤ MOST_PRICE }
    {
        sum_of(self.sets.as_slice())
    }

    /// What all needed entries are paid, in grains.
    pub fn paid_for_needs(&self) -> u128
        ensures { result ≡ paid_for_needs self.now.sets }
    {
        needs_of(self.sets.as_slice())
    }

    /// The instance.
    pub fn instance(&self) -> &'i Instance
        ensures { result.now ≡ self.now.problem }
    {
        self.instance
    }

    /// The sets, each with its price.
    pub fn as_slice(&self) -> &[PricedSet]
        ensures sets { sets_of result.now ≡ self.now.sets }
        ensures priced { ArePriced self.now.problem self.now.sets }
    {
        self.sets.as_slice()
    }

    /// A copy, unless memory runs out.
    pub fn try_clone(&self) -> Result<PricedSets<'i>, AllocError>
        ensures { IfOk result (λ s. s ≡ self.now) }
    {
        let mut sets = Vec::with_capacity(self.alloc, self.sets.len())?;
        for set in &self.sets {
            sets.push(set.try_clone()?)?;
        }
        Ok(PricedSets {
            alloc: self.alloc,
            instance: self.instance,
            sets,
        })
    }
}
