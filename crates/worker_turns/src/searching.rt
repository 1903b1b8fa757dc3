//! A worker that looks for plans.

ghost use Rattle.std.specs.Prelude.{◌≡◌};

use crate::gate::{Gate, GatePoint};
use crate::hub::Hub;
use crate::team::Team;
use crate::trade::is_stale;
use crate::turn_fault::TurnFault;
use crate::worker::Worker;
use insertion::{Weights, build_whole};
use rand_core::Rng;
use schedule::Feasible;
use search::{HeldPlan, Pace, Searcher, Seeker};
use solomon_reader::Instance;
use std::alloc::Global;

/// How far a worker's search is.
#[derive(Drop)]
enum Search<'i, R> {
    /// It changes the plan that it has.
    Improving(Searcher<'i, R>),
    /// It has no plan, and looks for one.
    Seeking(Seeker<'i, R>),
    /// It hasn't begun: the plan to begin with, if there is one, and the random words.
    Beginning(Option<HeldPlan<'i>>, R),
}

impl<'i, R: Rng + Drop> Search<'i, R> {
    /// The plan that the worker has.
    fn plan(&self) -> Option<&Feasible<'i>> {
        match self {
            Search::Improving(searcher) => Some(searcher.plan()),
            Search::Seeking(_) => None,
            Search::Beginning(Some(held), _) => Some(&held.plan),
            Search::Beginning(None, _) => None,
        }
    }
}

/// A turn has so many parts, so that it ends soon where cost and bound meet meanwhile.
const PARTS_OF_TURN: u32 = 4;

/// Makes a turn of a searcher, or as much of it as is made until cost and bound have met.
fn go_on<'i, H: Hub<'i>, G: Gate, R: Rng + Drop>(
    worker: &mut Worker<'_, 'i, H, G>,
    mut searcher: Searcher<'i, R>,
    pace: Pace,
) -> Result<Search<'i, R>, TurnFault>
    ensures words { worker.new.ceiling ≡ worker.old.ceiling }
{
    for part in 0..PARTS_OF_TURN {
        searcher.keep_pace(pace.in_parts(part, PARTS_OF_TURN));
        searcher.turn()?;
        if worker.is_closed() {
            break;
        }
    }
    Ok(Search::Improving(searcher))
}

/// Looks for a first plan by an insertion with drawn weights, and then by a turn of a search that leaves
/// customers out.
fn seek_first<'i, R: Rng + Drop>(
    alloc: Global,
    instance: &'i Instance,
    mut seeker: Seeker<'i, R>,
    pace: Pace,
) -> Result<Search<'i, R>, TurnFault> {
    let spared = seeker.next_word();
    let from_depot = seeker.next_word();
    let detour = seeker.next_word();
    let weights = Weights::of_words(spared, from_depot, detour);
    if let Some(plan) = build_whole(alloc, instance, &weights)? {
        return Ok(Search::Improving(seeker.into_searcher(plan)));
    }
    match seeker.turn(pace)? {
        Some(plan) => Ok(Search::Improving(seeker.into_searcher(plan))),
        None => Ok(Search::Seeking(seeker)),
    }
}

/// Begins with a descent from the plan, unless it is known as a local optimum, and a turn from there; or looks for a
/// first plan.
fn begin<'i, H: Hub<'i>, G: Gate, R: Rng + Drop>(
    worker: &mut Worker<'_, 'i, H, G>,
    plan: Option<HeldPlan<'i>>,
    random: R,
    pace: Pace,
) -> Result<Search<'i, R>, TurnFault>
    ensures words { worker.new.ceiling ≡ worker.old.ceiling }
{
    let (alloc, instance) = (worker.alloc, worker.instance);
    match plan {
        Some(held) => {
            let mut searcher = Searcher::holding(alloc, held, random);
            searcher.descend()?;
            go_on(worker, searcher, pace)
        }
        None => seek_first(alloc, instance, Seeker::new(alloc, instance, random)?, pace),
    }
}

/// Looks for a plan once, from the one that the worker has or from nothing.
fn seek<'i, H: Hub<'i>, G: Gate, R: Rng + Drop>(
    worker: &mut Worker<'_, 'i, H, G>,
    search: Search<'i, R>,
    pace: Pace,
) -> Result<Search<'i, R>, TurnFault>
    ensures words { worker.new.ceiling ≡ worker.old.ceiling }
{
    match search {
        Search::Improving(searcher) => go_on(worker, searcher, pace),
        Search::Seeking(seeker) => seek_first(worker.alloc, worker.instance, seeker, pace),
        Search::Beginning(plan, random) => begin(worker, plan, random, pace),
    }
}

/// Offers a copy of the plan, if there is one. Where it has just become cheaper and another worker's costs as little, all
/// are told.
fn offer<'i, H: Hub<'i>, G: Gate, R: Rng + Drop>(
    worker: &mut Worker<'_, 'i, H, G>,
    search: &Search<'i, R>,
    is_cheaper: bool,
) -> Result<(), TurnFault>
    ensures words { worker.new.ceiling ≡ worker.old.ceiling }
{
    let Some(plan) = search.plan() else {
        return Ok(());
    };
    let cost = plan.cost().get();
    let is_first = worker.offer(plan.try_clone()?)?;
    if is_first {
        worker.team.disagree();
    } else if is_cheaper && cost == worker.target() {
        worker.team.agree(cost);
    }
    worker.pass(GatePoint::Offered);
    Ok(())
}

/// A worker's search, how many turns it made, and how many of these in a row made its plan no cheaper.
#[derive(Drop)]
pub(crate) struct Searching<'i, R> {
    search: Search<'i, R>,
    made: u32,
    idle: u32,
}

impl<'i, R: Rng + Drop> Searching<'i, R> {
    /// A search from this plan, if there is one, by these random words.
    pub(crate) fn new(plan: Option<HeldPlan<'i>>, random: R) -> Searching<'i, R> {
        Searching {
            search: Search::Beginning(plan, random),
            made: 0,
            idle: 0,
        }
    }

    /// The cost of the plan that the worker has, in tenths.
    fn cost(&self) -> Option<u64> {
        match self.search.plan() {
            Some(plan) => Some(plan.cost().get()),
            None => None,
        }
    }

    /// Whether a plan is there that hasn't become cheaper for long.
    pub(crate) fn is_stale(&self, team: &Team) -> bool {
        match self.cost() {
            Some(cost) => is_stale(self.idle, self.made, team.has_agreed(cost)),
            None => false,
        }
    }

    /// What the worker has after a turn, unless that ended its work. Where cost and bound have met, or are
    /// near enough, it has what it had.
    pub(crate) fn turn<H: Hub<'i>, G: Gate>(
        self,
        worker: &mut Worker<'_, 'i, H, G>,
        pace: Pace,
    ) -> Option<Searching<'i, R>>
        ensures words { worker.new.ceiling ≡ worker.old.ceiling }
    {
        if worker.is_closed() {
            if self.search.plan().is_some() {
                worker.pass(GatePoint::Offered);
            }
            return Some(self);
        }
        let (before, idle, made) = (self.cost(), self.idle, self.made.saturating_add(1));
        let Ok(search) = seek(worker, self.search, pace) else {
            return None;
        };
        let mut after = Searching {
            search,
            made,
            idle: 0,
        };
        let is_cheaper = after.cost() != before;
        if !is_cheaper {
            after.idle = idle.saturating_add(1);
        }
        match offer(worker, &after.search, is_cheaper) {
            Ok(()) | Err(TurnFault::EndsTurn) => Some(after),
            Err(TurnFault::EndsWork) => None,
        }
    }
}
