//! The plan that a closing begins with.

ghost use Rattle.std.specs.Prelude.{◌≡◌, ◌≤◌, IfOk, IfSome, MatchOption};
ghost use Rattle.insertion.specs.Building.{IsServedAlone};
ghost use Rattle.closing.specs.Closing.{known_or_above, costs};
ghost use Rattle.search.specs.Searching.{plan_of};

use insertion::{Weights, build_whole};
use rand_core::{Rng, SeedableRng};
use rand_xoshiro::Xoshiro256PlusPlus;
use schedule::{Feasible, cheaper};
use search::{Pace, Searcher};
use solomon_reader::Instance;
use std::alloc::{AllocError, Global};

/// Where the random words start; any words serve.
const SEED: u64 = 1;

/// How many turns a search makes from the first plan.
const TURNS: u32 = 2;

/// How many insertions with drawn weights are tried where the first leaves a customer out.
const DRAWS: u32 = 50;

/// A plan that an insertion builds, the first with the weights that a run begins with, the others with
/// drawn ones.
fn built_plan<'i, R: Rng>(
    alloc: Global,
    instance: &'i Instance,
    random: &mut R,
) -> Result<Option<Feasible<'i>>, AllocError>
    ensures { IfOk result (λ plan. MatchOption plan (¬ IsServedAlone instance.now)
        (λ f. f.problem ≡ instance.now)) }
{
    if let Some(plan) = build_whole(alloc, instance, &Weights::plain())? {
        return Ok(Some(plan));
    }
    for _ in 0..DRAWS {
        let (spared, from_depot, detour) = (
            random.next_u32(),
            random.next_u32(),
            random.next_u32(),
        );
        let weights = Weights::of_words(spared, from_depot, detour);
        if let Some(plan) = build_whole(alloc, instance, &weights)? {
            return Ok(Some(plan));
        }
    }
    Ok(None)
}

/// Makes a turn; where memory is refused the plan stays.
fn take_turn<'i, R: Rng + Drop>(searcher: &mut Searcher<'i, R>, made: u32)
    ensures problem { (plan_of searcher.new).problem ≡ (plan_of searcher.old).problem }
    ensures cost { (plan_of searcher.new).cost ≤ (plan_of searcher.old).cost }
{
    let turns = TURNS;
    searcher.keep_pace(Pace::of_run(made, turns));
    let _ = searcher.turn();
}

/// The plan that a search comes to from another: a local optimum, where memory suffices, since each turn
/// begins with a descent.
fn search_from<'i, R: Rng + Drop>(alloc: Global, plan: Feasible<'i>, random: R) -> Feasible<'i>
    ensures problem { result.problem ≡ plan.entry.problem }
    ensures cost { result.cost ≤ plan.entry.cost }
{
    let mut searcher = Searcher::new(alloc, plan, random);
    for made in 0..TURNS {
        take_turn(&mut searcher, made);
    }
    searcher.into_plan()
}

/// A plan to begin with, if an insertion builds one or one is given: what a descent and some turns make of
/// the cheaper one.
pub(crate) fn first_plan<'i>(
    alloc: Global,
    instance: &'i Instance,
    start: Option<Feasible<'i>>,
) -> Result<Option<Feasible<'i>>, AllocError>
    requires { IfSome start (λ f. f.problem ≡ instance.now) }
    ensures plan { IfOk result (λ plan. MatchOption plan (¬ IsServedAlone instance.now)
        (λ f. f.problem ≡ instance.now)) }
    ensures no_dearer { IfOk result (λ plan. IfSome start.entry
        (λ f. known_or_above instance.now (costs plan) ≤ f.cost)) }
{
    let mut random = Xoshiro256PlusPlus::seed_from_u64(SEED);
    let built = built_plan(alloc, instance, &mut random)?;
    let Some(plan) = cheaper(start, built) else {
        return Ok(None);
    };
    Ok(Some(search_from(alloc, plan, random)))
}
