//! The sets that have a price at a leaf.

ghost use Rattle.std.specs.Prelude.{◌≡◌, ◌≢◌, length, map, IfOk, IfErr, IsTrue};
ghost use Rattle.solomon_reader.specs.CustomerSets.{IsCustomerSet};
ghost use Rattle.solomon_reader.specs.Bound.{listed_sets};
ghost use Rattle.solomon_reader.specs.SetPrices as definition;
ghost use Rattle.certificate.specs.Text.{listed_set_of, version_of};
ghost use Rattle.certificate.specs.Tree.{set_price_of};
ghost use Rattle.priced_sets.specs.Sets.{set_of, sets_of};
ghost use Rattle.given_tree.specs.declared.fault.ReplayFault.TheVariants.{LabelLimit};

use crate::fault::ReplayFault;
use crate::given::GivenTree;
use certificate::{ListedSet, SetPrice};
use priced_sets::{NeededSets, PricedSet, PricedSets};
use solomon_reader::Instance;
use std::alloc::{AllocError, Global};

/// The sets of a list that have a price.
fn sets_with_prices(
    alloc: Global,
    listed: &[ListedSet],
    prices: &[SetPrice],
) -> Result<Vec<PricedSet>, AllocError>
    requires numbers { IsCustomerSet (length listed.now) (map (λ m. m.0) (map set_price_of prices.now)) }
    ensures { IfOk result (λ sets. sets_of sets.items ≡ definition.priced_sets
        (map listed_set_of listed.now) (map set_price_of prices.now)) }
{
    let mut sets = Vec::new(alloc);
    for price in prices {
        let set = &listed[price.set as usize - 1];
        let members = Vec::from_slice(alloc, set.members.as_slice())?;
        sets.push(PricedSet {
            members,
            need: set.need,
            price: price.price,
        })?;
    }
    Ok(sets)
}

/// Whether two sets are the same, with the same price.
fn is_same(set: &PricedSet, other: &PricedSet) -> bool
    ensures { IsTrue result → set_of set.now ≡ set_of other.now }
{
    set.need == other.need
        && set.price == other.price
        && set.members.as_slice() == other.members.as_slice()
}

/// Whether two lists have the same sets with the same prices, in the same order.
fn are_same(sets: &[PricedSet], others: &[PricedSet]) -> bool
    ensures { IsTrue result → sets_of sets.now ≡ sets_of others.now }
{
    if sets.len() != others.len() {
        return false;
    }
    for place in 0..sets.len() {
        if !is_same(&sets[place], &others[place]) {
            return false;
        }
    }
    true
}

/// The sets that have a price at a leaf of the tree. `Unfit` where they can't have their prices as they stand: a set
/// doesn't need what it is said to, two have the same members, or together they are paid too much.
pub(crate) fn sets_at<'i>(
    tree: &GivenTree<'_>,
    instance: &'i Instance,
    needed: &mut NeededSets<'_>,
    prices: &[SetPrice],
) -> Result<PricedSets<'i>, ReplayFault>
    requires numbers { IsCustomerSet (length (listed_sets (version_of tree.now.version.now)))
        (map (λ m. m.0) (map set_price_of prices.now)) }
    ensures problem { IfOk result (λ s. s.problem ≡ instance.now) }
    ensures sets { IfOk result (λ s. s.sets ≡ definition.priced_sets
        (listed_sets (version_of tree.now.version.now)) (map set_price_of prices.now)) }
    ensures unlimited { IfErr result (λ e. e ≢ LabelLimit) }
{
    let mut wanted = sets_with_prices(tree.alloc, tree.version.sets(), prices)?;
    // the last one that is admitted stands first
    wanted.reverse();
    let sets = PricedSets::of(tree.alloc, instance, needed, wanted.as_slice())?;
    wanted.reverse();
    if !are_same(sets.as_slice(), wanted.as_slice()) {
        return Err(ReplayFault::Unfit);
    }
    Ok(sets)
}
