//! Pricings for the leaves that a pool serves.

ghost use Rattle.std.specs.Prelude.{◌≡◌, ◌≢◌, length, None, [], IfOk, IfErr};
ghost use Rattle.std.specs.List.{AllByRecursion};
ghost use Rattle.solomon_reader.specs.Problem.{customer_count};
ghost use Rattle.solomon_reader.specs.CertificateText.{IsPrice};
ghost use Rattle.labelling.specs.declared.fault.LabelFault.TheVariants.{LabelLimit};
ghost use Rattle.row_charges.specs.Rows.{rows_of};
ghost use Rattle.prices.specs.ValuedPrices.{IsValued};

use fronts::Nearness;
use labelling::{Hints, Kept, LabelFault, PricingTask};
use price_way::{LeafCuts, PricingState, RoutePool};
use priced_sets::PricedSets;
use prices::Priced;
use std::alloc::{AllocError, Global};

/// Other prices of customers at a leaf, in grains, that of customer i at i - 1, and none of sets and rows.
#[tactic(auto, using(prices::proofs::Values::within_none))]
pub(crate) fn task_without_cuts<'i>(
    alloc: Global,
    leaf: &Priced<'i>,
    prices: Vec<i64>,
) -> Result<PricingTask<'i>, AllocError>
    requires count { length prices.items ≡ customer_count leaf.now.problem }
    requires in_range { AllByRecursion IsPrice prices.items }
    ensures instance { IfOk result (λ t. t.instance.now ≡ leaf.now.problem) }
    ensures region { IfOk result (λ t. t.region ≡ leaf.now.region) }
    ensures neighbours { IfOk result (λ t. t.neighbours ≡ leaf.now.neighbours) }
    ensures prices { IfOk result (λ t. t.prices.items ≡ prices.items) }
    ensures sets { IfOk result (λ t. t.sets.sets ≡ []) }
    ensures rows { IfOk result (λ t. t.rows.items ≡ []) }
{
    let none = PricedSets::none(alloc, leaf.instance());
    leaf.task().with(prices, none)
}

/// A task's prices with their value. The pool says which of its routes costs least there, and takes in the
/// cheaper ones that the pricing meets; the state, how much work it was.
pub(crate) fn price<'i>(
    pool: &mut RoutePool,
    state: &mut PricingState<'_>,
    task: PricingTask<'i>,
    labels: Option<usize>,
) -> Result<Priced<'i>, LabelFault>
    ensures problem { IfOk result (λ f. f.problem ≡ task.entry.instance.now) }
    ensures region { IfOk result (λ f. f.region ≡ task.entry.region) }
    ensures neighbours { IfOk result (λ f. f.neighbours ≡ task.entry.neighbours) }
    ensures prices { IfOk result (λ f. f.prices ≡ task.entry.prices.items) }
    ensures sets { IfOk result (λ f. f.sets ≡ task.entry.sets.sets) }
    ensures rows { IfOk result (λ f. f.rows ≡ rows_of task.entry.rows.items) }
    ensures unlimited { IfErr result (λ e. e ≡ LabelLimit → labels ≢ None) }
{
    let instance = task.instance;
    let priced = LeafCuts {
        sets: task.sets.as_slice(),
        rows: task.rows.as_slice(),
    };
    let rows = pool.cuts.rows_of(task.prices.as_slice(), priced)?;
    let known = pool.cheapest(&task.region, rows.as_slice())?;
    let hints = Hints {
        nearness: Some(state.nearness),
        known,
    };
    let priced = Priced::by_hints(state.alloc, task, labels, &hints, &mut state.kept);
    pool.take_in(instance, state)?;
    match priced {
        Ok(priced) => Ok(priced),
        Err((_task, fault)) => Err(fault),
    }
}

/// A task's prices with their value, of which no pool learns and no work is counted. The tables of the instance are
/// lent.
pub(crate) fn price_alone<'i>(
    alloc: Global,
    nearness: &Nearness<'_>,
    task: PricingTask<'i>,
    labels: Option<usize>,
) -> Result<Priced<'i>, LabelFault>
    ensures problem { IfOk result (λ f. f.problem ≡ task.entry.instance.now) }
    ensures region { IfOk result (λ f. f.region ≡ task.entry.region) }
    ensures neighbours { IfOk result (λ f. f.neighbours ≡ task.entry.neighbours) }
    ensures prices { IfOk result (λ f. f.prices ≡ task.entry.prices.items) }
    ensures sets { IfOk result (λ f. f.sets ≡ task.entry.sets.sets) }
    ensures rows { IfOk result (λ f. f.rows ≡ rows_of task.entry.rows.items) }
    ensures valued { IfOk result (λ f. IsValued f) }
    ensures unlimited { IfErr result (λ e. e ≡ LabelLimit → labels ≢ None) }
{
    let (hints, mut kept) = (Hints::near(alloc, nearness), Kept::nothing(alloc));
    match Priced::by_hints(alloc, task, labels, &hints, &mut kept) {
        Ok(priced) => Ok(priced),
        Err((_task, fault)) => Err(fault),
    }
}
