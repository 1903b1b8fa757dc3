//! The children of a leaf, at the leaf's own prices.

ghost use Rattle.std.specs.Prelude.{◌≡◌, ◌≢◌, None, IfOk, IfErr};
ghost use Rattle.prices.specs.Narrowing.{IsNarrower, IsPricedAt};
ghost use Rattle.given_tree.specs.declared.fault.ReplayFault.TheVariants.{LabelLimit};

use crate::fault::ReplayFault;
use crate::given::GivenTree;
use crate::handed_on::HandedOn;
use crate::pricing::price;
use branching::Region;
use priced_sets::PricedSets;
use prices::{Priced, high_prices};

/// A leaf's prices at a region that allows no other arcs, priced anew only where the route of the least reduced cost
/// isn't allowed there.
fn price_same<'i>(
    tree: &GivenTree<'_>,
    handed_on: &mut HandedOn<'_>,
    leaf: &Priced<'i>,
    region: &Region,
) -> Result<Priced<'i>, ReplayFault>
    requires { IsNarrower region.now leaf.now.region }
    ensures priced { IfOk result (IsPricedAt region.now leaf.now) }
    ensures unlimited { IfErr result (λ e. e ≡ LabelLimit → tree.now.labels ≢ None) }
{
    match leaf.narrowed(region)? {
        Some(child) => Ok(child),
        None => price(tree, handed_on, leaf.task().at(region)?),
    }
}

/// High prices at a leaf, and none of sets or rows.
#[tactic(auto, using(crate::proofs::Valuing::within_none))]
fn price_high<'i>(
    tree: &GivenTree<'_>,
    handed_on: &mut HandedOn<'_>,
    leaf: &Priced<'i>,
) -> Result<Priced<'i>, ReplayFault>
    ensures priced { IfOk result (IsPricedAt leaf.now.region leaf.now) }
    ensures unlimited { IfErr result (λ e. e ≡ LabelLimit → tree.now.labels ≢ None) }
{
    let prices = high_prices(tree.alloc, leaf.instance())?;
    let none = PricedSets::none(tree.alloc, leaf.instance());
    price(tree, handed_on, leaf.task().with(prices, none)?)
}

/// A leaf's prices at the region of a child; or where the child has no relaxed route, so that the value could fall,
/// prices whose value is above every plan's cost.
pub(crate) fn price_child<'i>(
    tree: &GivenTree<'_>,
    handed_on: &mut HandedOn<'_>,
    leaf: &Priced<'i>,
    region: &Region,
) -> Result<Priced<'i>, ReplayFault>
    requires { IsNarrower region.now leaf.now.region }
    ensures priced { IfOk result (IsPricedAt region.now leaf.now) }
    ensures unlimited { IfErr result (λ e. e ≡ LabelLimit → tree.now.labels ≢ None) }
{
    let child = price_same(tree, handed_on, leaf, region)?;
    if child.least().value.is_some() || leaf.least().value.is_none() {
        return Ok(child);
    }
    price_high(tree, handed_on, &child)
}
