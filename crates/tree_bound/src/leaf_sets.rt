//! The sets that have a price at a leaf.

ghost use Rattle.std.specs.Prelude.{◌≡◌, length, map, IfOk};
ghost use Rattle.solomon_reader.specs.CustomerSets.{IsCustomerSet};
ghost use Rattle.solomon_reader.specs.SetPrices as definition;
ghost use Rattle.certificate.specs.Text.{listed_set_of};
ghost use Rattle.certificate.specs.Tree.{set_price_of};
ghost use Rattle.leaf_arcs.specs.Sets.{sets_of};

use certificate::{ListedSet, SetPrice};
use leaf_arcs::PricedSet;
use std::alloc::{AllocError, Global};

/// The sets of a list that have a price.
pub(crate) fn priced_sets<'a>(
    alloc: Global,
    listed: &'a [ListedSet],
    prices: &[SetPrice],
) -> Result<Vec<PricedSet<'a>>, AllocError>
    requires numbers { IsCustomerSet (length listed.now) (map (λ m. m.0) (map set_price_of prices.now)) }
    ensures { IfOk result (λ sets. sets_of sets.items ≡ definition.priced_sets
        (map listed_set_of listed.now) (map set_price_of prices.now)) }
{
    let mut sets = Vec::new(alloc);
    for price in prices {
        let listed = &listed[price.set as usize - 1];
        sets.push(PricedSet {
            members: listed.members.as_slice(),
            need: listed.need,
            price: price.price,
        })?;
    }
    Ok(sets)
}
