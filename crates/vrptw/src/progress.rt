//! Lines that tell how far the workers are.

ghost use Rattle.std.specs.Prelude.{◌≡◌, ◌<◌, ◌≤◌};
ghost use Rattle.vrptw.specs.Progress.{IsOnward};

use incumbent_book::Gap;
use run_settings::Settings;
use std::io;
use std::sync::{Mutex, Wait};
use tenths::Tenths;
use worker_turns::{Gate, GatePoint, is_near};

/// How to tell how far the turns are.
#[derive(Clone, Copy)]
pub(crate) enum Telling {
    /// Nothing is told.
    Nothing,
    /// By a line each time.
    Lines,
    /// On one line, which is written anew.
    Live,
}

/// How far a run is. None of it goes back.
#[derive(Drop)]
struct Stage {
    /// How many turns were made.
    made: u64,
    /// How many leaves of the tree were split.
    splits: u64,
    /// The least cost and the highest bound that are known.
    gap: Gap,
    /// Whether something was told.
    has_told: bool,
}

impl Stage {
    /// One turn more, behind which this much is known.
    fn see_turn(&mut self, gap: &Gap)
        ensures made { self.old.made ≤ self.new.made }
        ensures splits { self.new.splits ≡ self.old.splits }
        ensures onward { IsOnward self.old.gap self.new.gap }
        ensures seen { IsOnward gap.now self.new.gap }
    {
        self.made = self.made.saturating_add(1);
        self.gap = both(&self.gap, gap);
    }
}

/// What two gaps tell together.
fn both(first: &Gap, second: &Gap) -> Gap
    ensures first { IsOnward first.now result }
    ensures second { IsOnward second.now result }
{
    let cost = match (first.cost, second.cost) {
        (Some(cost), Some(other)) if other.get() < cost.get() => Some(other),
        (Some(cost), _) => Some(cost),
        (None, other) => other,
    };
    let bound = if first.bound.get() < second.bound.get() {
        second.bound
    } else {
        first.bound
    };
    Gap { cost, bound }
}

/// A gate that holds nobody but for the time of a write, and may tell on standard error how far the turns are: at most
/// once for each hundredth of them, until cost and bound are as near as is enough. What is told is in order, by what is
/// known under its lock.
#[derive(Drop)]
pub(crate) struct ProgressGate<'a, R: Eprint> {
    rt: &'a R,
    telling: Telling,
    turns: u64,
    /// The gap that is enough, in tenths of a percent of the cost.
    enough: u32,
    stage: Mutex<Stage>,
    ghost some: { 0 < turns },
}

/// What stands before and behind what is told: on a live line a carriage return and blanks, so that nothing is left
/// of what stood there before.
fn ends(telling: Telling) -> (&'static str, &'static str) {
    match telling {
        Telling::Live => ("\r", "            "),
        Telling::Lines | Telling::Nothing => ("", "\n"),
    }
}

/// Writes how far the turns are.
fn write_progress<R: Eprint>(
    rt: &R,
    telling: Telling,
    percent: u64,
    stage: &Stage,
) -> io::Result<()> {
    let (before, behind) = ends(telling);
    let made = stage.made;
    let leaves = stage.splits.saturating_add(1);
    let bound = stage.gap.bound.get();
    let (whole, tenth) = (bound / 10, bound % 10);
    let Some(cost) = stage.gap.cost.map(Tenths::get) else {
        return eprint!(rt;
            "{before}vrptw: {percent} % of the turns, no plan, bound {whole}.{tenth}, leaves {leaves}, turns {made}{behind}",
        );
    };
    let part = cost.saturating_sub(bound).saturating_mul(1000);
    let permille = part.saturating_add(cost / 2) / cost.max(1);
    eprint!(rt;
        "{before}vrptw: {percent} % of the turns, cost {}.{}, bound {whole}.{tenth}, gap {}.{} %, leaves {leaves}, turns {made}{behind}",
        cost / 10,
        cost % 10,
        permille / 10,
        permille % 10,
    )
}

impl<'a, R: Eprint> ProgressGate<'a, R> {
    /// For all turns that the settings ask for.
    pub(crate) fn new(rt: &'a R, settings: &Settings, telling: Telling) -> ProgressGate<'a, R> {
        let workers = u64::from(settings.searchers) + u64::from(settings.bounders);
        ProgressGate {
            rt,
            telling,
            turns: workers.saturating_mul(u64::from(settings.turns)).max(1),
            enough: settings.gap,
            stage: Mutex::new(Stage {
                made: 0,
                splits: 0,
                gap: Gap {
                    cost: None,
                    bound: Tenths::from(0),
                },
                has_told: false,
            }),
        }
    }

    /// Ends the line that was written anew, if one was.
    pub(crate) fn end(self) {
        let is_live = matches!(self.telling, Telling::Live);
        let stage = self.stage.into_inner();
        if is_live && stage.has_told {
            // Where standard error fails, nothing is told.
            let _ = eprint!(self.rt; "\n");
        }
    }
}

impl<'a, R: Eprint + Wait> Gate for ProgressGate<'a, R> {
    fn pass(&self, _worker: u16, point: GatePoint) {
        if point == GatePoint::Split {
            let mut stage = self.stage.lock(self.rt);
            stage.splits = stage.splits.saturating_add(1);
        }
    }

    fn tell(&self, gap: &Gap) {
        if matches!(self.telling, Telling::Nothing) {
            return;
        }
        let mut stage = self.stage.lock(self.rt);
        let before = stage.made.saturating_mul(100) / self.turns;
        stage.see_turn(gap);
        let percent = stage.made.saturating_mul(100) / self.turns;
        if before < percent && !is_near(&stage.gap, self.enough) {
            stage.has_told = true;
            // Where standard error fails, nothing is told.
            let _ = write_progress(self.rt, self.telling, percent, &stage);
        }
    }
}
