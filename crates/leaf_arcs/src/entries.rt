//! What steps are paid for the sets that they enter.

ghost use Rattle.std.specs.Prelude.{◌≡◌, ◌+◌, ◌-◌, ◌<◌, ◌≤◌, ℕ, length, slice_index_or, IfOk};
ghost use Rattle.solomon_reader.specs.declared.limits.TheConstants.{MOST_PRICE};
ghost use Rattle.solomon_reader.specs.Problem.{customer_count};
ghost use Rattle.solomon_reader.specs.CustomerSets.{IsCustomerSet};
ghost use Rattle.leaf_arcs.specs.Leaves.{problem_of, sets_in};
ghost use Rattle.leaf_arcs.specs.Sets.{set_of};
ghost use Rattle.solomon_reader.specs.EntryPrices.{IsEntered, ArePaid};

use crate::leaf::Leaf;
use crate::priced_set::PricedSet;
use std::alloc::{AllocError, Global};

/// What a step to a row is paid, in grains, by a list of such payments; nothing where the list has none.
pub(crate) fn paid_for(paid: &[u64], j: u16) -> u64
    ensures { result ≡ slice_index_or paid.now j 0 }
{
    match paid.get(usize::from(j)) {
        Some(grains) => *grains,
        None => 0,
    }
}

/// Adds a set's price to what steps from v to its members are paid, where v is none of them.
fn enter(paid: &mut [u64], set: &PricedSet<'_>, v: u16)
    requires set { IsCustomerSet (length paid.old - 1) set.now.members.now }
    requires some { 1 ≤ length paid.old }
    requires low { (j : ℕ) → j < length paid.old → slice_index_or paid.old j 0 + set.now.price ≤ MOST_PRICE }
    ensures { IsEntered (set_of set.now) v paid.old paid.new }
{
    if set.members.contains(&v) {
        return;
    }
    for member in set.members {
        paid[usize::from(*member)] += set.price;
    }
}

/// What steps from v to each row are paid for the sets that they enter, in grains; an empty list where no set has a price.
pub(crate) fn entry_prices(
    alloc: Global,
    leaf: &Leaf<'_, '_>,
    v: u16,
) -> Result<Vec<u64>, AllocError>
    ensures { IfOk result (λ paid. ArePaid (sets_in leaf.now) v (customer_count (problem_of leaf.now)) paid.items) }
{
    if leaf.sets.is_empty() {
        return Ok(Vec::new(alloc));
    }
    let network = leaf.network;
    let count = usize::from(network.neighbours.instance.customer_count());
    let mut paid = vec![in alloc; 0; count + 1]?;
    let grains = paid.as_mut_slice();
    for set in leaf.sets {
        enter(grains, set, v);
    }
    Ok(paid)
}
