//! The raising of a leaf's value.

ghost use Rattle.std.specs.Prelude.{◌≡◌, ◌≤◌, [], IfOk, IfSome};
ghost use Rattle.prices.specs.Narrowing.{IsPricedAt};

use crate::cut_round::CutRounds;
use crate::dear::{is_flat, is_root_flat, polish, pricings_at, trial_beyond_nulls};
use crate::pricing::price;
use crate::quick_round::{is_quick_next, quick_round};
use crate::tasks::{start_task, trial_task};
use labelling::LabelFault;
use pooled_routes::Trial;
use price_way::{Ascent, ChildStart, Goal, PricingState, RoutePool};
use prices::Priced;
use std::alloc::AllocError;

/// Raised prices, and the ascent that has ended there, by which their leaf may be split; nothing where memory was
/// refused to it.
#[derive(Drop)]
pub struct Raised<'i> {
    pub priced: Priced<'i>,
    pub ascent: Option<Ascent>,
    /// How many sets and rows were added.
    pub added: usize,
}

impl Raised<'_> {
    /// Whether the root is to be split at once, after an ascent for which this state served. No contract: a tree may
    /// be split anywhere.
    pub fn is_flat(&self, state: &PricingState<'_>) -> bool {
        match &self.ascent {
            Some(ascent) => self.added == 0 && is_root_flat(state, ascent),
            None => false,
        }
    }
}

/// How many pricings more there may be below the root while the value to stop at is near.
const MORE_PRICINGS: u32 = 8;

/// A pool's cut that had no price at so many leaves in a row is dropped.
const MOST_IDLE: u32 = 30;

/// The prices of a trial with their value, at the leaf of other prices.
fn price_trial<'i>(
    pool: &mut RoutePool,
    state: &mut PricingState<'_>,
    leaf: &Priced<'i>,
    trial: &Trial,
    labels: Option<usize>,
) -> Result<Priced<'i>, LabelFault>
    ensures { IfOk result (IsPricedAt leaf.now.region leaf.now) }
{
    let task = trial_task(pool, state, leaf, trial)?;
    price(pool, state, task, labels)
}

/// Of two prices of one leaf those of the higher value; of equal values the first.
pub(crate) fn higher<'i>(first: Priced<'i>, second: Priced<'i>) -> Priced<'i>
    requires same_problem { second.problem ≡ first.problem }
    requires same_region { second.region ≡ first.region }
    requires same_neighbours { second.neighbours ≡ first.neighbours }
    ensures problem { result.problem ≡ first.entry.problem }
    ensures region { result.region ≡ first.entry.region }
    ensures neighbours { result.neighbours ≡ first.entry.neighbours }
    ensures not_below_first { first.entry.value ≤ result.value }
    ensures not_below_second { second.entry.value ≤ result.value }
    ensures no_sets { first.entry.sets ≡ [] → second.entry.sets ≡ [] → result.sets ≡ [] }
    ensures no_rows { first.entry.rows ≡ [] → second.entry.rows ≡ [] → result.rows ≡ [] }
{
    if second.value() > first.value() {
        second
    } else {
        first
    }
}

/// The prices of a child's trial with their value, at the child; nothing where it wasn't tried, or where
/// memory or labels don't suffice.
fn price_start<'i>(
    pool: &mut RoutePool,
    state: &mut PricingState<'_>,
    child: &Priced<'i>,
    start: &Option<ChildStart>,
    labels: Option<usize>,
) -> Option<Priced<'i>>
    ensures { IfSome result (IsPricedAt child.now.region child.now) }
{
    let Some(start) = start else {
        return None;
    };
    let Some(trial) = &start.trial else {
        return None;
    };
    let task = start_task(pool, state, child, start, trial).ok()?;
    price(pool, state, task, labels).ok()
}

/// The higher of two prices of one leaf, if the second are known.
fn higher_if<'i>(first: Priced<'i>, second: Option<Priced<'i>>) -> Priced<'i>
    requires { IfSome second (IsPricedAt first.region first) }
    ensures problem { result.problem ≡ first.entry.problem }
    ensures region { result.region ≡ first.entry.region }
    ensures neighbours { result.neighbours ≡ first.entry.neighbours }
    ensures not_lower { first.entry.value ≤ result.value }
{
    match second {
        Some(second) => higher(first, second),
        None => first,
    }
}

/// The next prices of an ascent from the best so far, with their value; nothing where labels ran out.
fn step<'i>(
    pool: &mut RoutePool,
    state: &mut PricingState<'_>,
    ascent: &mut Ascent,
    best: &Priced<'i>,
    goal: &Goal,
) -> Result<Option<Priced<'i>>, AllocError>
    ensures { IfOk result (λ found. IfSome found (IsPricedAt best.now.region best.now)) }
{
    if is_quick_next(pool, state, best, goal)? {
        return quick_round(pool, state, ascent, best, goal);
    }
    ascent.go_back_to(pool, best)?;
    let trial = trial_beyond_nulls(pool, state, ascent, best)?;
    match price_trial(pool, state, best, &trial, goal.labels) {
        Ok(next) => {
            // Where memory is refused, these prices still count, and the next step ends the ascent.
            let _ = ascent.take_in(pool, &trial, &next);
            Ok(Some(next))
        }
        Err(LabelFault::LabelLimit) => {
            ascent.draw_back(pool);
            Ok(None)
        }
        Err(LabelFault::Memory) => Err(AllocError),
    }
}

/// The most pricings of an ascent at a leaf, where the value to stop at is near all along.
fn most_pricings(leaf: &Priced<'_>, pricings: u32) -> u32 {
    if leaf.region().is_root() {
        pricings
    } else {
        pricings.saturating_add(MORE_PRICINGS)
    }
}

/// The best of these prices and those that an ascent comes to at their leaf.
fn climb<'i>(
    pool: &mut RoutePool,
    state: &mut PricingState<'_>,
    ascent: &mut Ascent,
    rounds: &mut CutRounds,
    priced: Priced<'i>,
    goal: &Goal,
) -> Priced<'i>
    ensures problem { result.problem ≡ priced.entry.problem }
    ensures region { result.region ≡ priced.entry.region }
    ensures neighbours { result.neighbours ≡ priced.entry.neighbours }
    ensures not_lower { priced.entry.value ≤ result.value }
{
    let mut best = priced;
    let mut idle: u32 = 0;
    let mut growth: i128 = 0;
    let pricings = pricings_at(state, &best, goal);
    for made in 0..most_pricings(&best, pricings) {
        let before = best.value();
        let is_spent = idle >= goal.idle_pricings || state.work() >= goal.work;
        let is_over = made >= pricings && !ascent.is_near(growth);
        if before >= goal.value || is_spent || is_over {
            return best;
        }
        if is_flat(state, ascent, &best, made, growth) {
            break;
        }
        if rounds.before_pricing(pool, state, ascent).is_err() {
            return best;
        }
        let merit = ascent.centre.merit;
        let Ok(next) = step(pool, state, ascent, &best, goal) else {
            return best;
        };
        growth = ascent.centre.merit.saturating_sub(merit);
        best = higher_if(best, next);
        let gains = best.value() > before;
        idle = if gains { 0 } else { idle.saturating_add(1) };
    }
    // Where memory is refused, the prices stay what they are.
    let _ = rounds.at_end(pool, state, ascent);
    best
}

/// Prices of the same leaf with a value that isn't lower, and mostly comes near the best that prices of
/// the leaf can have.
///
/// From the best prices so far, the centre, each price rises by the same, and the sum is projected
/// back onto what the routes of the pool say: the prices of a route's stops are at most its cost
/// (Hildreth 1957). The next pricing finds a route that isn't kept to, or prices that are the next
/// centre. Where the leaf was tried as a child, the prices of the trial are the first centre. Where labels
/// run out in a pricing, the next rise is a shorter one, nearer to prices that could be priced; where memory
/// does, the best found so far is answered. At the root, where a pricing is dear, quick searches for routes
/// find the next prices. Where pricings are dear, the last prices may be polished.
pub fn raise<'i>(
    pool: &mut RoutePool,
    state: &mut PricingState<'_>,
    priced: Priced<'i>,
    start: Option<ChildStart>,
    goal: &Goal,
) -> Raised<'i>
    ensures problem { result.priced.problem ≡ priced.entry.problem }
    ensures region { result.priced.region ≡ priced.entry.region }
    ensures neighbours { result.priced.neighbours ≡ priced.entry.neighbours }
    ensures not_lower { priced.entry.value ≤ result.priced.value }
{
    // The root is raised again and again, and goes on with the multipliers that it ended with.
    if !priced.region().is_root() {
        pool.begin(start.as_ref());
    }
    if pool.enter_cuts(state.nearness, &priced, MOST_IDLE).is_err()
        || pool.enter(&priced).is_err()
    {
        return Raised {
            priced,
            ascent: None,
            added: 0,
        };
    }
    let tried = price_start(pool, state, &priced, &start, goal.labels);
    let ascent = Ascent::new(pool, tried.as_ref().unwrap_or(&priced), goal);
    let priced = higher_if(priced, tried);
    let Ok(mut ascent) = ascent else {
        return Raised {
            priced,
            ascent: None,
            added: 0,
        };
    };
    let mut rounds = CutRounds::new(&priced, goal);
    let priced = climb(pool, state, &mut ascent, &mut rounds, priced, goal);
    let polished = polish(pool, state, &ascent, &priced, goal);
    let priced = higher_if(priced, polished);
    let added = rounds.added;
    if ascent.go_back_to(pool, &priced).is_err() {
        return Raised {
            priced,
            ascent: None,
            added,
        };
    }
    if let Some(start) = &start {
        state.learn(start, &ascent, priced.value());
    }
    let ascent = Some(ascent);
    Raised {
        priced,
        ascent,
        added,
    }
}
