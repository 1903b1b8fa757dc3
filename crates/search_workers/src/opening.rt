//! What a run begins with: the first plans, the root with its first prices or a given tree, and the book of both.

ghost use Rattle.std.specs.Prelude.{◌≡◌, ◌+◌, ◌<◌, ◌≤◌, ◌⊎◌, [], Some, true, length, is_some, option_map, IfOk, IfErr, IfSome, MatchOption, OnOk};
ghost use Rattle.solomon_reader.specs.Problem.{customer_count};
ghost use Rattle.solomon_reader.specs.History.{costs_of, split_count};
ghost use Rattle.incumbent_book.specs.Reaching.{IsReached};
ghost use Rattle.solomon_reader.specs.Region.{root_region, Among};
ghost use Rattle.solomon_reader.specs.declared.limits.TheConstants.{MOST_EVENTS, MOST_NEIGHBOURS, MOST_ROWS, MOST_SETS};
ghost use Rattle.insertion.specs.Building.{IsServedAlone};
ghost use Rattle.desk.specs.Opening.{WasOffered};
ghost use Rattle.search_workers.specs.Given.{IsTreeFor, bound_of};
ghost use Rattle.search_workers.specs.Running.{IsOneOn, IsNoDearer};
ghost use Rattle.search_workers.specs.declared.fault.RunFault.TheVariants.{Memory, LabelLimit};

use crate::begun::Begun;
use crate::fault::RunFault;
use crate::regrown::{Regrown, regrow};
use fronts::Nearness;
use incumbent_book::{Book, BookFault, Limits, OpenFault};
use insertion::{Weights, build_whole};
use labelling::{Hints, LabelFault};
use leaf_work::{FirstLimits, first_leaf};
use prices::Priced;
use run_settings::Settings;
use schedule::{Feasible, cheaper};
use search::{HeldPlan, descended_parallel};
use solomon_reader::Instance;
use std::alloc::{AllocError, Global};
use std::thread::Threads;
use worker_turns::{Gate, pricing_labels};

/// The worker that offers the first plan.
const FIRST_WORKER: u16 = 0;

/// What the workers of a run begin from: the search workers from a plan, the bound workers from a tree.
#[derive(Drop)]
pub(crate) struct Beginning<'i> {
    pub(crate) plan: Option<HeldPlan<'i>>,
    pub(crate) tree: Regrown,
}

/// The book of a run, and what the workers begin from.
#[derive(Drop)]
pub(crate) struct Opening<'i> {
    pub(crate) book: Book<'i>,
    pub(crate) begin: Beginning<'i>,
}

/// The plan that insertion builds, or a given one where that is cheaper. The gate meets it.
#[tactic(auto, using(crate::proofs::Starts::cheaper_no_dearer))]
fn first_plan<'i, G: Gate>(
    alloc: Global,
    instance: &'i Instance,
    gate: &G,
    start: Option<Feasible<'i>>,
) -> Result<Option<Feasible<'i>>, AllocError>
    requires { IfSome start (λ f. f.problem ≡ instance.now) }
    ensures plan { IfOk result (λ plan. MatchOption plan (¬ IsServedAlone instance.now)
        (λ f. f.problem ≡ instance.now)) }
    ensures no_dearer { IfOk result (IsNoDearer start.entry) }
{
    let built = build_whole(alloc, instance, &Weights::plain())?;
    let Some(plan) = cheaper(start, built) else {
        return Ok(None);
    };
    gate.meet(&plan);
    Ok(Some(plan))
}

/// A first plan, and what a descent makes of it, which no single move makes cheaper.
#[derive(Drop)]
struct FirstPlans<'i> {
    built: Feasible<'i>,
    lower: HeldPlan<'i>,
    ghost problem: { lower.plan.problem ≡ built.problem },
    ghost no_dearer: { lower.plan.cost ≤ built.cost },
    ghost optimum: { lower.is_optimum ≡ true },
}

/// The first plan and what a descent makes of it. The gate meets both.
fn first_plans<'i, R: Threads + Sync, G: Gate>(
    rt: &R,
    alloc: Global,
    instance: &'i Instance,
    gate: &G,
    start: Option<Feasible<'i>>,
) -> Result<Option<FirstPlans<'i>>, RunFault>
    requires { IfSome start (λ f. f.problem ≡ instance.now) }
    ensures plan { IfOk result (λ plans. MatchOption plans (¬ IsServedAlone instance.now)
        (λ f. f.built.problem ≡ instance.now)) }
    ensures no_dearer { IfOk result (λ plans. IsNoDearer start.entry
        (option_map (λ f. f.built) plans)) }
    ensures memory { IfErr result (λ e. e ≡ Memory) }
{
    let Some(built) = first_plan(alloc, instance, gate, start)? else {
        return Ok(None);
    };
    let lower = descended_parallel(rt, alloc, built.try_clone()?)?;
    if lower.plan.cost().get() < built.cost().get() {
        gate.meet(&lower.plan);
    }
    Ok(Some(FirstPlans { built, lower }))
}

/// A book of the root, in which at most so many sets and so many rows are listed.
fn open_book<'i>(
    alloc: Global,
    root: Priced<'i>,
    sets: u32,
    rows: u32,
) -> Result<Book<'i>, RunFault>
    requires root { root.region ≡ root_region (customer_count root.problem) }
    requires room { length root.sets ≤ sets }
    requires few { sets ≤ MOST_SETS }
    requires row_room { length root.rows ≤ rows }
    requires few_rows { rows ≤ MOST_ROWS }
    ensures problem { IfOk result (λ b. b.problem ≡ root.entry.problem) }
    ensures neighbours { IfOk result (λ b. b.neighbours ≡ root.entry.neighbours) }
    ensures sets { IfOk result (λ b. b.most_sets ≡ sets) }
    ensures rows { IfOk result (λ b. b.most_rows ≡ rows) }
    ensures limits { IfOk result (λ b. b.limits.events ≡ MOST_EVENTS) }
    ensures events { IfOk result (λ b. length b.past ≡ 0) }
    ensures splits { IfOk result (λ b. split_count b.past ≡ 0) }
    ensures memory { IfErr result (λ e. e ≡ Memory) }
{
    match Book::with_rows(alloc, root, Limits::MOST, sets, rows) {
        Ok(book) => Ok(book),
        Err((_, OpenFault::Memory)) => Err(RunFault::Memory),
        Err(_) => unreachable!(),
    }
}

/// Offers a plan to a book that has room for it.
fn offer<'i>(book: &mut Book<'i>, plan: Feasible<'i>) -> Result<(), RunFault>
    requires problem { plan.problem ≡ book.old.problem }
    requires room { length book.old.past < book.old.limits.events }
    ensures one_on { IsOneOn book.old book.new }
    ensures offered { OnOk result (Among plan.entry.cost (costs_of book.new.past)) }
    ensures memory { IfErr result (λ e. e ≡ Memory) }
{
    match book.offer(FIRST_WORKER, plan) {
        Ok(_) => Ok(()),
        Err((_, BookFault::Memory)) => Err(RunFault::Memory),
        Err(_) => unreachable!(),
    }
}

/// Offers a plan, and what a descent made of it where that is cheaper; answers the latter.
#[tactic(auto, using(crate::proofs::Starts::offered_at))]
fn offer_both<'i>(book: &mut Book<'i>, plans: FirstPlans<'i>) -> Result<HeldPlan<'i>, RunFault>
    requires problem { plans.built.problem ≡ book.old.problem }
    requires room { length book.old.past + 1 < book.old.limits.events }
    ensures problem { book.new.problem ≡ book.old.problem }
    ensures neighbours { book.new.neighbours ≡ book.old.neighbours }
    ensures sets { book.new.most_sets ≡ book.old.most_sets }
    ensures rows { book.new.most_rows ≡ book.old.most_rows }
    ensures splits { split_count book.new.past ≡ split_count book.old.past }
    ensures offered { IfOk result (λ h. WasOffered (Some h.plan.cost) book.new.past) }
    ensures no_dearer { IfOk result (λ h. h.plan.cost ≤ plans.entry.built.cost) }
    ensures optimum { IfOk result (λ h. h.is_optimum ≡ true) }
    ensures memory { IfErr result (λ e. e ≡ Memory) }
{
    let FirstPlans { built, lower } = plans;
    let cost = built.cost();
    offer(book, built)?;
    if lower.plan.cost().get() < cost.get() {
        offer(book, lower.plan.try_clone()?)?;
    }
    Ok(lower)
}

/// The root with its first prices: those that a plan says to start from, or that may show that there is none; or prices
/// of zero, where a given tree has others at its leaves.
fn first_root<'i>(
    alloc: Global,
    instance: &'i Instance,
    settings: &Settings,
    nearness: &Nearness<'_>,
    plan: Option<&Feasible<'i>>,
    has_tree: bool,
) -> Result<Priced<'i>, RunFault>
    requires few { settings.now.neighbours ≤ MOST_NEIGHBOURS }
    ensures problem { IfOk result (λ f. f.problem ≡ instance.now) }
    ensures region { IfOk result (λ f. f.region ≡ root_region (customer_count instance.now)) }
    ensures neighbours { IfOk result (λ f. f.neighbours ≡ settings.now.neighbours) }
    ensures sets { IfOk result (λ f. length f.sets ≤ settings.now.sets) }
    ensures rows { IfOk result (λ f. length f.rows ≤ settings.now.rows) }
    ensures refused { IfErr result (λ e. (e ≡ Memory) ⊎ (e ≡ LabelLimit)) }
{
    let neighbours = settings.neighbours;
    let root_labels = Some(settings.labels as usize);
    let root = if has_tree {
        let hints = Hints::near(alloc, nearness);
        Priced::root(alloc, instance, neighbours, root_labels, &hints)
    } else {
        let limits = FirstLimits {
            root_labels,
            labels: Some(pricing_labels(settings, instance.customer_count())),
            sets: settings.sets,
        };
        first_leaf(alloc, nearness, instance, neighbours, plan, limits)
    };
    match root {
        Ok(root) => Ok(root),
        Err(LabelFault::Memory) => Err(RunFault::Memory),
        Err(LabelFault::LabelLimit) => Err(RunFault::LabelLimit),
    }
}

impl<'i> Opening<'i> {
    /// A book of the root that was offered a first plan and what a descent makes of it, if insertion builds one
    /// or one is given, the cheaper one; else its prices begin where they may show that there is no plan. Where a tree is
    /// given it grows there again. The tables of the instance are lent.
    #[tactic(auto, using(crate::proofs::Starts::still_no_dearer, crate::proofs::Starts::offered_still))]
    pub(crate) fn new<R: Threads + Sync, G: Gate>(
        rt: &R,
        alloc: Global,
        instance: &'i Instance,
        settings: &Settings,
        nearness: &Nearness<'_>,
        gate: &G,
        begun: Begun<'_, 'i>,
    ) -> Result<Opening<'i>, RunFault>
        requires few { settings.now.neighbours ≤ MOST_NEIGHBOURS }
        requires few_sets { settings.now.sets ≤ MOST_SETS }
        requires few_rows { settings.now.rows ≤ MOST_ROWS }
        requires start { IfSome begun.start (λ f. f.problem ≡ instance.now) }
        requires tree { IfSome begun.tree (IsTreeFor instance.now settings.now.neighbours) }
        ensures problem { IfOk result (λ o. o.book.problem ≡ instance.now) }
        ensures neighbours { IfOk result (λ o. o.book.neighbours ≡ settings.now.neighbours) }
        ensures sets { IfOk result (λ o. o.book.most_sets ≡ settings.now.sets) }
        ensures rows { IfOk result (λ o. o.book.most_rows ≡ settings.now.rows) }
        ensures offered { IfOk result (λ o. WasOffered (option_map (λ h. h.plan.cost) o.begin.plan)
            o.book.past) }
        ensures reached { IfOk result (λ o. IsReached o.begin.tree.reached o.book) }
        ensures least { IfOk result (λ o. o.begin.tree.reached ≡ bound_of begun.entry.tree) }
        ensures no_dearer { IfOk result (λ o. IsNoDearer begun.entry.start
            (option_map (λ h. h.plan) o.begin.plan)) }
        ensures served { IfOk result (λ o. IsServedAlone instance.now → is_some o.begin.plan ≡ true) }
        ensures optimum { IfOk result (λ o. IfSome o.begin.plan (λ h. h.is_optimum ≡ true)) }
        ensures refused { IfErr result (λ e. (e ≡ Memory) ⊎ (e ≡ LabelLimit)) }
    {
        let Begun { start, tree } = begun;
        let plans = first_plans(rt, alloc, instance, gate, start)?;
        let built = match &plans {
            Some(plans) => Some(&plans.built),
            None => None,
        };
        let has_tree = tree.is_some();
        let root = first_root(alloc, instance, settings, nearness, built, has_tree)?;
        let mut book = open_book(alloc, root, settings.sets, settings.rows)?;
        let plan = match plans {
            Some(plans) => Some(offer_both(&mut book, plans)?),
            None => None,
        };
        let tree = regrow(alloc, nearness, &mut book, tree, settings.labels)?;
        Ok(Opening {
            book,
            begin: Beginning { plan, tree },
        })
    }
}
