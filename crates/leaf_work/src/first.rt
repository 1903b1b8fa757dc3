//! The first prices of a root.

ghost use Rattle.std.specs.Prelude.{◌≡◌, ◌≢◌, ◌≤◌, [], None, length, IfOk, IfErr};
ghost use Rattle.solomon_reader.specs.Problem.{customer_count};
ghost use Rattle.solomon_reader.specs.Region.{root_region};
ghost use Rattle.solomon_reader.specs.declared.limits.TheConstants.{MOST_NEIGHBOURS};
ghost use Rattle.labelling.specs.declared.fault.LabelFault.TheVariants.{LabelLimit};
ghost use Rattle.leaf_work.specs.FirstLeaf.{IsNoLower};

use crate::refuting::{refuted_root, start_by_demands};
use crate::starting::start_from;
use fronts::Nearness;
use labelling::{Hints, LabelFault};
use prices::Priced;
use schedule::Feasible;
use solomon_reader::Instance;
use std::alloc::Global;

/// What the first prices of a root may take.
#[derive(Clone, Copy, Debug)]
pub struct FirstLimits {
    /// How many labels prices of zero may take at once, if there is a limit.
    pub root_labels: Option<usize>,
    /// How many labels other prices may take; prices that take more are left.
    pub labels: Option<usize>,
    /// How many sets may have a price.
    pub sets: u32,
}

/// The root, with the prices that a plan says to start from. Without a plan those that show that there is none, if
/// plain arithmetic says why; no other prices are valued then. With prices of zero where these have no lower value. The
/// tables of the instance are lent.
///
/// `LabelLimit` where prices of zero take more labels than their limit allows, and `Memory`.
pub fn first_leaf<'i>(
    alloc: Global,
    nearness: &Nearness<'_>,
    instance: &'i Instance,
    neighbours: u32,
    plan: Option<&Feasible<'_>>,
    limits: FirstLimits,
) -> Result<Priced<'i>, LabelFault>
    requires few { neighbours ≤ MOST_NEIGHBOURS }
    ensures problem { IfOk result (λ f. f.problem ≡ instance.now) }
    ensures region { IfOk result (λ f. f.region ≡ root_region (customer_count instance.now)) }
    ensures neighbours { IfOk result (λ f. f.neighbours ≡ neighbours) }
    ensures few_sets { IfOk result (λ f. length f.sets ≤ limits.sets) }
    ensures no_rows { IfOk result (λ f. f.rows ≡ []) }
    ensures not_lower { IfOk result (λ f. IsNoLower instance.now neighbours f.value) }
    ensures unlimited { IfErr result (λ e. e ≡ LabelLimit → limits.root_labels ≢ None) }
{
    if plan.is_none() {
        if let Some(root) = refuted_root(alloc, nearness, instance, neighbours, limits) {
            return Ok(root);
        }
    }
    let hints = Hints::near(alloc, nearness);
    let root = Priced::root(alloc, instance, neighbours, limits.root_labels, &hints)?;
    Ok(match plan {
        Some(plan) => start_from(alloc, nearness, root, plan.routes(), limits.labels),
        None => start_by_demands(alloc, nearness, root, limits.labels),
    })
}
