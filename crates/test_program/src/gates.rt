//! Workers that are held at points of their turns until others have passed points of theirs. What is written then is
//! accepted by the checker.

use checker::{Verdict, check};
use std::alloc::Global;
use std::rt::Runtime;
use std::sync::Wait;
use std::sync::atomic::{AtomicBool, AtomicUsize, Ordering};
use std::thread::Threads;
use std::time::{Clock, Duration};
use std::{fs, io, thread};
use tenths::MemorySink;
use vrptw::{Gate, GatePoint, Settings, solve};

/// Two workers that search, and two that raise the bound.
const WORKERS: u16 = 4;

/// The turns of each.
const TURNS: u32 = 3;

/// The turns of each where they lend a hand: behind 100 that made its plan no cheaper a searcher does.
const TURNS_OF_LENDING: u32 = 130;

/// How often the others end a turn.
const ENDS: usize = (WORKERS as usize - 1) * TURNS as usize;

/// The most pairs that a check may keep.
const STATES: usize = 1_000_000;

/// How often a gate tries to see enough passes, a millisecond apart.
const TRIES: u32 = 10_000;

/// All points of a turn.
const POINTS: [GatePoint; 7] = [
    GatePoint::Start,
    GatePoint::Offered,
    GatePoint::Looked,
    GatePoint::Priced,
    GatePoint::Split,
    GatePoint::Stolen,
    GatePoint::End,
];

/// A worker that is held at its first passing of a point until another one, or all others together, have passed a
/// point this often.
#[derive(Drop)]
struct Hold {
    worker: u16,
    point: GatePoint,
    other: Option<u16>,
    passed: GatePoint,
    count: usize,
    passes: AtomicUsize,
    was_held: AtomicBool,
}

/// The hold of a worker and a point, for another worker or all others, a point and a count.
fn held_until(
    (worker, point): (u16, GatePoint),
    (other, passed, count): (Option<u16>, GatePoint, usize),
) -> Hold {
    Hold {
        worker,
        point,
        other,
        passed,
        count,
        passes: AtomicUsize::new(0),
        was_held: AtomicBool::new(false),
    }
}

/// A gate that holds workers, and knows whether one tried in vain.
#[derive(Drop)]
struct Holds<'a, R: Clock> {
    rt: &'a R,
    holds: &'a [Hold],
    was_alone: AtomicBool,
}

/// Whether at one of the tries passes are as many as that.
fn are_seen<R: Clock>(rt: &R, passes: &AtomicUsize, count: usize) -> bool {
    for _ in 0..TRIES {
        if passes.load(Ordering::SeqCst) >= count {
            return true;
        }
        thread::sleep(rt, Duration::from_millis(1));
    }
    false
}

impl<'a, R: Clock> Gate for Holds<'a, R> {
    fn pass(&self, worker: u16, point: GatePoint) {
        for hold in self.holds {
            let is_other = match hold.other {
                Some(other) => worker == other,
                None => worker != hold.worker,
            };
            if is_other && point == hold.passed {
                hold.passes.fetch_add(1, Ordering::SeqCst);
            }
            let is_held = worker == hold.worker && point == hold.point;
            if is_held
                && !hold.was_held.swap(true, Ordering::SeqCst)
                && !are_seen(self.rt, &hold.passes, hold.count)
            {
                self.was_alone.store(true, Ordering::SeqCst);
            }
        }
    }
}

/// The cost in tenths of a plan whose text the checker accepts with a certificate's.
fn accepted_cost(
    alloc: Global,
    text: &[u8],
    plan: &MemorySink,
    certificate: &MemorySink,
) -> Option<u64> {
    let (plan, certificate) = (Some(plan.as_slice()), certificate.as_slice());
    match check(alloc, text, certificate, plan, STATES).ok()? {
        Verdict::Best { cost } | Verdict::Gap { cost, .. } => Some(cost.get()),
        _ => None,
    }
}

/// Solves while workers are held, each in this many turns, and has both texts checked: the cost in tenths, or none
/// where they aren't accepted, and whether one looked in vain.
fn cost_held<R: Runtime + AllocGlobal + Threads + Wait + Sync>(
    rt: &R,
    text: &[u8],
    turns: u32,
    holds: &[Hold],
) -> (Option<u64>, bool) {
    let (alloc, mut settings) = (rt.alloc(), Settings::default());
    settings.turns = turns;
    let gate = Holds {
        rt,
        holds,
        was_alone: AtomicBool::new(false),
    };
    let (mut first, mut second) = (MemorySink::new(alloc), MemorySink::new(alloc));
    let answer = solve(rt, alloc, text, &settings, &gate, &mut first, &mut second);
    let was_alone = gate.was_alone.load(Ordering::SeqCst);
    match answer {
        Ok(_answer) => (accepted_cost(alloc, text, &first, &second), was_alone),
        Err(_fault) => (None, was_alone),
    }
}

/// Solves the instance of a file while a worker is held at each of the points until all others have ended all their
/// turns, and tells the costs in tenths.
pub(crate) fn tell_held<R: Runtime + AllocGlobal + Threads + Wait + Sync>(
    rt: &R,
    told: &mut String,
    path: &str,
    worker: u16,
) -> io::Result<()> {
    let text = fs::read(rt, path)?;
    write!(told, "costs")?;
    for point in POINTS {
        let holds = [held_until((worker, point), (None, GatePoint::End, ENDS))];
        match cost_held(rt, text.as_slice(), TURNS, &holds).0 {
            Some(cost) => write!(told, " {cost}")?,
            None => write!(told, " refused")?,
        }
    }
    Ok(writeln!(told, "")?)
}

/// Solves the instance of a text in so many turns while workers are held. Tells the cost in tenths, and whether one of
/// them looked in vain.
fn tell_cost<R: Runtime + AllocGlobal + Threads + Wait + Sync>(
    rt: &R,
    told: &mut String,
    text: &[u8],
    turns: u32,
    holds: &[Hold],
) -> io::Result<()> {
    let (cost, was_alone) = cost_held(rt, text, turns, holds);
    Ok(writeln!(told, "cost {cost:?} was_alone {was_alone}")?)
}

/// Solves the instance of a file while worker 0 is held at its start until worker 1 has offered, and worker 1 at its
/// end until worker 0 has started, so that both have to run at once.
pub(crate) fn tell_meeting<R: Runtime + AllocGlobal + Threads + Wait + Sync>(
    rt: &R,
    told: &mut String,
    path: &str,
) -> io::Result<()> {
    let text = fs::read(rt, path)?;
    let holds = [
        held_until((0, GatePoint::Start), (Some(1), GatePoint::Offered, 1)),
        held_until((1, GatePoint::End), (Some(0), GatePoint::Start, 1)),
    ];
    tell_cost(rt, told, text.as_slice(), 1, &holds)
}

/// Solves the instance of a file while the searcher 0 is held at its start until the bound worker 2 has split the root,
/// and that and all others until the searcher has stolen a leaf. Then once more while the bound worker 2 is held at its
/// start until the other one, 3, has offered a plan.
pub(crate) fn tell_lending<R: Runtime + AllocGlobal + Threads + Wait + Sync>(
    rt: &R,
    told: &mut String,
    path: &str,
) -> io::Result<()> {
    let text = fs::read(rt, path)?;
    let stolen = (Some(0), GatePoint::Stolen, 1);
    let until_stolen = [
        held_until((0, GatePoint::Start), (Some(2), GatePoint::Split, 1)),
        held_until((1, GatePoint::Start), stolen),
        held_until((2, GatePoint::Split), stolen),
        held_until((3, GatePoint::Start), stolen),
    ];
    tell_cost(rt, told, text.as_slice(), TURNS_OF_LENDING, &until_stolen)?;
    let until_offered = [held_until((2, GatePoint::Start), (Some(3), GatePoint::Offered, 1))];
    tell_cost(rt, told, text.as_slice(), TURNS_OF_LENDING, &until_offered)
}
