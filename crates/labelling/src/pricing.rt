//! The least reduced cost over all relaxed routes. The labeller drops each label that another one dominates,
//! leaves out each that can't lead below the best so far, and extends the others in the order of their times.

ghost use Rattle.std.specs.Prelude.{◌≡◌, ◌≢◌, ◌≤◌, length, IfOk, IfErr, None};
ghost use Rattle.std.specs.List.{AllByRecursion};
ghost use Rattle.solomon_reader.specs.Problem.{customer_count};
ghost use Rattle.solomon_reader.specs.CertificateText.{IsPrice};
ghost use Rattle.solomon_reader.specs.declared.limits.TheConstants.{MOST_NEIGHBOURS};
ghost use Rattle.labelling.specs.Answer.{HasLeastValue, HasItsRoute, HasLeastValueAt, HasItsRouteAt, IsLeastOf};
ghost use Rattle.labelling.specs.Pricings.{leaf_of, pricing_at};
ghost use Rattle.priced_sets.specs.Sets.{ArePriced};
ghost use Rattle.fronts.specs.Tasks.{pricing_of};
ghost use Rattle.labelling.specs.declared.fault.LabelFault.TheVariants.{LabelLimit};

use crate::fault::LabelFault;
use crate::hints::Hints;
use crate::kept::Kept;
use crate::labeller::Labeller;
use crate::least_cost::Least;
use crate::pricing_task::PricingTask;
use branching::Region;
use completions::Completions;
use fronts::{Nearness, Payment, Task};
use priced_sets::PricedSets;
use solomon_reader::Instance;
use std::alloc::{AllocError, Global};

/// The bounds of a task where the labels are many, after a search that was this much work; few labels don't pay for
/// them.
fn completions_for<'t, 'i>(
    task: &'t Task<'i>,
    work: u64,
    are_many: bool,
) -> Result<Completions<'t, 'i>, AllocError>
    ensures { IfOk result (λ c. c.task.now ≡ task.now) }
{
    if are_many {
        return Completions::new(task, work);
    }
    Ok(Completions::unknown(task))
}

/// What `least_by_hints` answers, from the tables of its task, with bounds from the beginning. With no more labels
/// than this many the next search begins without them.
fn least_with_bounds(
    task: &Task<'_>,
    limit: Option<usize>,
    few: usize,
    known: &[u16],
    kept: &mut Kept,
) -> Result<Least, LabelFault>
    ensures least { IfOk result (IsLeastOf (pricing_of task.now)) }
    ensures unlimited { IfErr result (λ e. e ≡ LabelLimit → limit ≢ None) }
{
    let completions = Completions::new(task, kept.work)?;
    let mut labeller = Labeller::new(&completions, limit, kept.lookup.take())?;
    labeller.follow(known)?;
    labeller.finish(few, kept)
}

/// What `least_by_hints` answers, from the tables of its task.
fn least_of_task(
    task: &Task<'_>,
    limit: Option<usize>,
    known: &[u16],
    kept: &mut Kept,
) -> Result<Least, LabelFault>
    ensures least { IfOk result (IsLeastOf (pricing_of task.now)) }
    ensures unlimited { IfErr result (λ e. e ≡ LabelLimit → limit ≢ None) }
{
    let few = 2 * usize::from(task.instance.customer_count());
    if kept.are_many {
        return least_with_bounds(task, limit, few / 2, known, kept);
    }
    let unknown = Completions::unknown(task);
    let mut labeller = Labeller::new(&unknown, limit, kept.lookup.take())?;
    labeller.follow(known)?;
    labeller.extend_by_time(few)?;
    let completions = completions_for(task, kept.work, labeller.labels.len() > few)?;
    labeller.with(&completions).finish(few, kept)
}

/// What `least_by_hints` answers, from the tables of its instance.
fn least_near(
    alloc: Global,
    task: &PricingTask<'_>,
    nearness: &Nearness<'_>,
    limit: Option<usize>,
    known: &[u16],
    kept: &mut Kept,
) -> Result<Least, LabelFault>
    requires instance { nearness.now.instance.now ≡ task.now.instance.now }
    requires neighbours { nearness.now.neighbours ≡ task.now.neighbours }
    ensures least { let t = task.now in
        IfOk result (IsLeastOf (pricing_at t)) }
    ensures sets { let s = task.now.sets in
        IfOk result (λ l. ArePriced s.problem s.sets) }
    ensures unlimited { IfErr result (λ e. e ≡ LabelLimit → limit ≢ None) }
{
    nearness.instance.law_of_limits();
    let payment = Payment {
        prices: task.prices.as_slice(),
        sets: task.sets.as_slice(),
        rows: task.rows.as_slice(),
    };
    let task = Task::new(alloc, nearness, &task.region, payment)?;
    least_of_task(&task, limit, known, kept)
}

/// The least reduced cost over all relaxed routes of the region at these prices, and a route that
/// has it.
///
/// Prices and the answer are grains; `prices[i - 1]` is that of customer i. A relaxed route is an
/// ng-route (Baldacci, Mingozzi and Roberti 2011) within load and windows over allowed arcs, for
/// lists of this many neighbours, at most 15. `LabelLimit` where as many labels are active as `limit`
/// allows, the empty beginning not counted; `Memory` where a growth was refused. A refusal leaves
/// nothing behind.
#[tactic(auto, using(crate::proofs::Paying::within_none, crate::proofs::Paying::value_alone, crate::proofs::Paying::route_alone))]
pub fn least(
    alloc: Global,
    instance: &Instance,
    region: &Region,
    prices: &[i64],
    neighbours: u32,
    limit: Option<usize>,
) -> Result<Least, LabelFault>
    requires size { region.now.size ≡ customer_count instance.now }
    requires count { length prices.now ≡ customer_count instance.now }
    requires priced { AllByRecursion IsPrice prices.now }
    requires few { neighbours ≤ MOST_NEIGHBOURS }
    ensures value { IfOk result (λ l. HasLeastValue instance.now region.now neighbours prices.now l) }
    ensures route { IfOk result (λ l. HasItsRoute instance.now region.now neighbours prices.now l) }
    ensures unlimited { IfErr result (λ e. e ≡ LabelLimit → limit ≢ None) }
{
    let task = PricingTask {
        instance,
        region: region.try_clone()?,
        neighbours,
        prices: prices.to_vec(alloc)?,
        sets: PricedSets::none(alloc, instance),
        rows: Vec::new(alloc),
    };
    let (hints, mut kept) = (Hints::none(alloc), Kept::nothing(alloc));
    least_by_hints(alloc, &task, limit, &hints, &mut kept)
}

/// What `least` answers for a task, found sooner where a route of low reduced cost, the tables of the instance or an
/// earlier search are known. It keeps further routes that were met.
#[tactic(auto, using(crate::proofs::Paying::least_value, crate::proofs::Paying::least_route))]
pub fn least_by_hints(
    alloc: Global,
    task: &PricingTask<'_>,
    limit: Option<usize>,
    hints: &Hints<'_>,
    kept: &mut Kept,
) -> Result<Least, LabelFault>
    ensures value { let t = task.now in
        IfOk result (HasLeastValueAt t.instance.now t.region t.neighbours (leaf_of t)) }
    ensures route { let t = task.now in
        IfOk result (HasItsRouteAt t.instance.now t.region t.neighbours (leaf_of t)) }
    ensures unlimited { IfErr result (λ e. e ≡ LabelLimit → limit ≢ None) }
{
    let (instance, known) = (task.instance, hints.known.as_slice());
    kept.met.clear();
    if let Some(nearness) = hints.nearness {
        if nearness.is_for(instance, task.neighbours) {
            return least_near(alloc, task, nearness, limit, known, kept);
        }
    }
    let nearness = Nearness::new(alloc, instance, task.neighbours)?;
    least_near(alloc, task, &nearness, limit, known, kept)
}
