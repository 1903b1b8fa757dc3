//! What a leaf comes to whose raised value stays below the cost to reach.

ghost use Rattle.std.specs.Prelude.{◌≡◌, ◌≢◌, None, IfOk, IfErr};
ghost use Rattle.labelling.specs.declared.fault.LabelFault.TheVariants.{LabelLimit};
ghost use Rattle.branching.specs.Choosing.{IsDecided};
ghost use Rattle.leaf_work.specs.Splitting.{IsSplitOrDecided};

use crate::child::{Children, children_of};
use crate::decided_prices::decided_prices;
use crate::pricing::{price_alone, task_without_cuts};
use crate::raising::Raised;
use labelling::LabelFault;
use price_way::{PricingState, RoutePool};
use prices::Priced;
use schedule::Feasible;

/// What a leaf comes to.
#[derive(Drop)]
pub enum SplitOrDecided<'i> {
    /// Its children by an arc.
    Split(Children<'i>),
    /// The leaf itself, where every arc that its region allows is required, with the plan that obeys it. The leaf's
    /// value is the plan's cost in tenths, which is that of every plan that obeys the region; without a plan it is
    /// above the ceiling, and no plan obeys the region.
    Decided(Priced<'i>, Option<Feasible<'i>>),
}

/// A leaf whose region leaves no arc open, with the value of its plans.
fn decided_leaf<'i>(
    leaf: &Priced<'i>,
    state: &PricingState<'_>,
) -> Result<SplitOrDecided<'i>, LabelFault>
    requires { IsDecided leaf.now.region }
    ensures split { IfOk result (IsSplitOrDecided leaf.now) }
    ensures unlimited { IfErr result (λ e. e ≢ LabelLimit) }
{
    let (prices, plan) = decided_prices(state.alloc, leaf.instance(), leaf.region())?;
    let task = task_without_cuts(state.alloc, leaf, prices)?;
    let decided = price_alone(state.alloc, state.nearness, task, None)?;
    Ok(SplitOrDecided::Decided(decided, plan))
}

/// What a leaf comes to after an ascent there: its children by the arc that promises most, with its prices, or with high
/// ones where a child has no relaxed route; or where no arc is open the leaf with the value of its plans. That no value
/// falls is for the book to see. At most this many labels may be active at once in the pricing of a child, if there is a
/// limit; `LabelLimit` where they don't suffice, and `Memory`.
pub fn split_or_decide<'i>(
    raised: &Raised<'i>,
    pool: &mut RoutePool,
    state: &mut PricingState<'_>,
    labels: Option<usize>,
) -> Result<SplitOrDecided<'i>, LabelFault>
    ensures split { IfOk result (IsSplitOrDecided raised.now.priced) }
    ensures unlimited { IfErr result (λ e. e ≡ LabelLimit → labels ≢ None) }
{
    let Raised {
        priced: leaf,
        ascent,
        added: _,
    } = raised;
    match children_of(leaf, ascent.as_ref(), pool, state, labels)? {
        Some(children) => Ok(SplitOrDecided::Split(children)),
        None => decided_leaf(leaf, state),
    }
}
