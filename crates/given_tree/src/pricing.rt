//! Prices with their value.

ghost use Rattle.std.specs.Prelude.{◌≡◌, ◌≢◌, None, IfOk, IfErr};
ghost use Rattle.given_tree.specs.declared.fault.ReplayFault.TheVariants.{LabelLimit};
ghost use Rattle.labelling.specs.Pricings.{leaf_of};
ghost use Rattle.prices.specs.ValuedPrices.{IsPricedBy};

use crate::fault::ReplayFault;
use crate::given::GivenTree;
use crate::handed_on::HandedOn;
use labelling::{Hints, PricingTask};
use prices::Priced;

/// A task's prices with their value.
pub(crate) fn price<'i>(
    tree: &GivenTree<'_>,
    handed_on: &mut HandedOn<'_>,
    task: PricingTask<'i>,
) -> Result<Priced<'i>, ReplayFault>
    ensures priced { let t = task.entry in
        IfOk result (IsPricedBy t.instance.now t.region t.neighbours (leaf_of t)) }
    ensures unlimited { IfErr result (λ e. e ≡ LabelLimit → tree.now.labels ≢ None) }
{
    let hints = Hints::near(tree.alloc, tree.nearness);
    match Priced::by_hints(tree.alloc, task, tree.labels, &hints, &mut handed_on.kept) {
        Ok(priced) => Ok(priced),
        Err((_task, fault)) => Err(ReplayFault::from(fault)),
    }
}
