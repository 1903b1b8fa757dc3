//! The turns of a worker, which has one of two trades in each.

ghost use Rattle.std.specs.Prelude.{◌≡◌, ◌≤◌};
ghost use Rattle.ceiling.specs.Seats.{IsSeatOf};

use crate::bounding::Bounding;
use crate::gate::{Gate, GatePoint};
use crate::hub::Hub;
use crate::nodes::{Nodes, TRIES_OF_HAND, TRIES_OF_TURN};
use crate::searching::Searching;
use crate::team::Team;
use crate::trade::{Trade, is_lent};
use crate::turn_fault::TurnFault;
use crate::worker::Worker;
use rand_core::Rng;
use rand_xoshiro::Xoshiro256PlusPlus;
use run_settings::Settings;
use search::{HeldPlan, Pace};

/// What a worker has for its trades: at least for the first one.
#[derive(Drop)]
struct Trades<'p, 'i, R> {
    first: Trade,
    searching: Option<Searching<'i, R>>,
    bounding: Option<Bounding<'p>>,
}

impl<'p, 'i, R: Rng + Drop> Trades<'p, 'i, R> {
    /// Whether the worker would do more in the other trade than in its first one.
    fn lends_a_hand(&self, team: &Team) -> bool {
        let (Some(searching), Some(bounding)) = (&self.searching, &self.bounding) else {
            return false;
        };
        match self.first {
            Trade::Search => team.is_split() && searching.is_stale(team),
            Trade::Bound => !team.is_split() && bounding.is_done_at_root(),
        }
    }

    /// Which trade the worker has in a turn.
    fn next(&self, team: &Team, turn: u32) -> Trade {
        match self.first {
            Trade::Search if self.lends_a_hand(team) && is_lent(turn) => Trade::Bound,
            Trade::Bound if self.lends_a_hand(team) => Trade::Search,
            first => first,
        }
    }

    /// Makes a turn of a searcher; an error where the work ends.
    fn search<H: Hub<'i>, G: Gate>(
        &mut self,
        worker: &mut Worker<'_, 'i, H, G>,
        pace: Pace,
    ) -> Result<(), TurnFault>
        ensures words { worker.new.ceiling ≡ worker.old.ceiling }
    {
        let Some(searching) = self.searching.take() else {
            return Ok(());
        };
        self.searching = searching.turn(worker, pace);
        if self.searching.is_none() {
            return Err(TurnFault::EndsWork);
        }
        let comes_back = self.first == Trade::Search && !self.lends_a_hand(worker.team);
        if let (true, Some(bounding)) = (comes_back, &mut self.bounding) {
            bounding.leave();
        }
        Ok(())
    }

    /// Makes a turn of a bound worker, and answers whether there was something to be done.
    fn bound<H: Hub<'i>, G: Gate>(
        &mut self,
        worker: &mut Worker<'_, 'i, H, G>,
    ) -> Result<bool, TurnFault>
        ensures words { worker.new.ceiling ≡ worker.old.ceiling }
    {
        let Some(bounding) = &mut self.bounding else {
            return Ok(true);
        };
        let tries = match self.first {
            Trade::Search => TRIES_OF_HAND,
            Trade::Bound => TRIES_OF_TURN,
        };
        bounding.turn(worker, tries)
    }

    /// Makes a turn in one trade, or in the other where a bound worker finds no leaf.
    fn turn<H: Hub<'i>, G: Gate>(
        &mut self,
        worker: &mut Worker<'_, 'i, H, G>,
        pace: Pace,
    ) -> Result<(), TurnFault>
        ensures words { worker.new.ceiling ≡ worker.old.ceiling }
    {
        if self.next(worker.team, pace.made) == Trade::Search || !self.bound(worker)? {
            return self.search(worker, pace);
        }
        Ok(())
    }
}

/// Makes as many turns as the settings say, or fewer where a refusal of memory or a full history, tree or deque ends the
/// work, and answers how many.
fn make_turns<'p, 'i, H: Hub<'i>, G: Gate, R: Rng + Drop>(
    worker: &mut Worker<'_, 'i, H, G>,
    turns: u32,
    mut trades: Trades<'p, 'i, R>,
) -> u32
    ensures turns { result ≤ turns }
    ensures own { IsSeatOf worker.old.ceiling.now worker.new.seat }
{
    for made in 0..turns {
        worker.pass(GatePoint::Start);
        let done = trades.turn(worker, Pace::of_run(made, turns));
        worker.end_turn();
        if let Err(TurnFault::EndsWork) = done {
            return made + 1;
        }
    }
    if let Some(bounding) = &mut trades.bounding {
        bounding.leave();
    }
    turns
}

/// Makes this many turns, or fewer where a refusal of memory or a full history ends the work, and
/// answers how many.
///
/// In each turn the worker makes a turn of a searcher, whose temperature falls twice over all of them, and offers
/// the plan that it has then. Where it has none, it builds one with drawn weights; where that leaves customers
/// out, it goes on with a search from which they are absent, until it meets a plan. A refusal of the hub ends
/// the turn, and the worker keeps its plan. Where the words for cost and bound have met,
/// or are near enough, a turn does nothing.
pub fn search_worker<'i, H: Hub<'i>, G: Gate, R: Rng + Drop>(
    worker: &mut Worker<'_, 'i, H, G>,
    plan: Option<HeldPlan<'i>>,
    turns: u32,
    random: R,
) -> u32
    ensures turns { result ≤ turns }
    ensures own { IsSeatOf worker.old.ceiling.now worker.new.seat }
{
    let trades = Trades {
        first: Trade::Search,
        searching: Some(Searching::new(plan, random)),
        bounding: None,
    };
    make_turns(worker, turns, trades)
}

/// Makes as many turns as the settings say, or fewer where a refusal of memory or a full history,
/// tree or deque ends the work, and answers how many.
///
/// In each turn the worker takes the open node of its own that has the least value, or steals one where that is well
/// above the bound, and raises the value of the leaf. It gives the leaf the new prices at the root and where the value
/// reaches the ceiling, else splits it; a leaf whose value had reached the ceiling is laid aside. Then it takes the next
/// one, until it has done as much as the turns so far are worth, or ten leaves. The leaves that are open at the end are
/// left for others to steal.
/// A refusal of the hub ends the turn. Where the words for cost and bound have met, or are near enough, a turn does
/// nothing, and where the worker has done more than the turns so far are worth, so that dear pricings don't make the work
/// endless.
pub fn bound_worker<'i, H: Hub<'i>, G: Gate>(
    worker: &mut Worker<'_, 'i, H, G>,
    settings: &Settings,
    nodes: Nodes<'_>,
) -> u32
    ensures turns { result ≤ settings.now.turns }
    ensures own { IsSeatOf worker.old.ceiling.now worker.new.seat }
{
    let place = u32::from(worker.number).saturating_sub(settings.searchers);
    let trades: Trades<'_, '_, Xoshiro256PlusPlus> = Trades {
        first: Trade::Bound,
        searching: None,
        bounding: Some(Bounding::new(settings, place, nodes)),
    };
    make_turns(worker, settings.turns, trades)
}

/// Makes the turns of a worker that begins with one trade and lends a hand in the other: a searcher whose plan hasn't
/// become cheaper for some turns mostly raises leaves once the root is split, and a bound worker that finds no leaf, or
/// isn't the first and has made some turns at the root, looks for plans. Each turn it asks again. Else it does what
/// `search_worker` and `bound_worker` do. Where the settings ask for no searcher nobody looks for plans, and for no bound
/// worker nobody raises a leaf.
pub fn lending_worker<'i, H: Hub<'i>, G: Gate, R: Rng + Drop>(
    worker: &mut Worker<'_, 'i, H, G>,
    settings: &Settings,
    plan: Option<HeldPlan<'i>>,
    random: R,
    nodes: Nodes<'_>,
) -> u32
    ensures turns { result ≤ settings.now.turns }
    ensures own { IsSeatOf worker.old.ceiling.now worker.new.seat }
{
    let number = u32::from(worker.number);
    let (first, place) = if number < settings.searchers {
        (Trade::Search, settings.bounders.saturating_add(number))
    } else {
        (Trade::Bound, number - settings.searchers)
    };
    let searching = if settings.searchers > 0 {
        Some(Searching::new(plan, random))
    } else {
        None
    };
    let bounding = if settings.bounders > 0 {
        Some(Bounding::new(settings, place, nodes))
    } else {
        None
    };
    let trades = Trades {
        first,
        searching,
        bounding,
    };
    make_turns(worker, settings.turns, trades)
}
