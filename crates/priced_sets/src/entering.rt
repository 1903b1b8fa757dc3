//! What steps are paid for the sets that they enter.

ghost use Rattle.std.specs.Prelude.{◌≡◌, ◌+◌, ◌-◌, ◌<◌, ◌≤◌, ℕ, length, slice_index_or, IfOk};
ghost use Rattle.std.specs.List.{AllByRecursion};
ghost use Rattle.solomon_reader.specs.declared.limits.TheConstants.{MOST_PRICE};
ghost use Rattle.solomon_reader.specs.CustomerSets.{IsCustomerSet};
ghost use Rattle.solomon_reader.specs.EntryPrices.{IsEntered, ArePaid};
ghost use Rattle.solomon_reader.specs.SetPrices.{price_sum};
ghost use Rattle.priced_sets.specs.Sets.{set_of, sets_of};

use crate::priced_set::PricedSet;
use std::alloc::{AllocError, Global};

/// Adds a set's price to what steps from v to its members are paid, where v is none of them.
fn enter(paid: &mut [u64], set: &PricedSet, v: u16)
    requires set { IsCustomerSet (length paid.old - 1) set.now.members.items }
    requires some { 1 ≤ length paid.old }
    requires low { (j : ℕ) → j < length paid.old → slice_index_or paid.old j 0 + set.now.price ≤ MOST_PRICE }
    ensures { IsEntered (set_of set.now) v paid.old paid.new }
{
    if set.members.as_slice().contains(&v) {
        return;
    }
    for member in &set.members {
        paid[usize::from(*member)] += set.price;
    }
}

/// What steps from row v to each row are paid for the sets that they enter, in grains, where there are so many
/// customers; an empty list where no set has a price.
pub fn entry_prices(
    alloc: Global,
    sets: &[PricedSet],
    count: u16,
    v: u16,
) -> Result<Vec<u64>, AllocError>
    requires sets { AllByRecursion (λ s. IsCustomerSet count s.members) (sets_of sets.now) }
    requires within { price_sum (sets_of sets.now) ≤ MOST_PRICE }
    ensures { IfOk result (λ paid. ArePaid (sets_of sets.now) v count paid.items) }
{
    if sets.is_empty() {
        return Ok(Vec::new(alloc));
    }
    let mut paid = vec![in alloc; 0; usize::from(count) + 1]?;
    let grains = paid.as_mut_slice();
    for set in sets {
        enter(grains, set, v);
    }
    Ok(paid)
}
