//! Workers over a fake.

ghost use Rattle.std.specs.List.{All};
ghost use Rattle.node_pool.specs.Deques.{FitsAt};
ghost use Rattle.node_pool.specs.Ends.{deque_at};

use crate::fake::{Counts, Fake};
use crate::words::pair_of;
use ceiling::Ceiling;
use incumbent_book::BookFault;
use node_pool::{Hand, Pass, Pool, Thief};
use prices::Priced;
use search_workers::{
    LeavesLeft, Nearness, Nodes, Settings, Team, Worker, bound_worker, generator, lending_worker,
    search_worker,
};
use solomon_reader::Instance;
use std::alloc::Global;
use std::sync::atomic::Ordering;

/// Which of the two deques have the root: the worker's own, and the other.
#[derive(Clone, Copy)]
struct Roots {
    own: bool,
    other: bool,
}

/// The root stands in the worker's own deque, or in the other where the worker is to steal it, or in both, or in none.
fn roots_of(how: &str) -> Roots {
    let (own, other) = match how {
        "stolen" => (false, true),
        "both" => (true, true),
        "none" => (false, false),
        _ => (true, false),
    };
    Roots { own, other }
}

/// Puts the root into a deque, if it is to stand there.
fn put_root(end: &mut Hand, has_root: bool) -> Option<()> {
    if has_root { end.push(0).ok() } else { Some(()) }
}

/// The end of the second of two deques, once the root stands where it is to.
fn second_end(mut hands: Vec<Hand>, roots: Roots) -> Option<Hand> {
    let mut own = hands.pop()?;
    let mut other = hands.pop()?;
    put_root(&mut own, roots.own)?;
    put_root(&mut other, roots.other)?;
    Some(own)
}

/// The nodes of the worker at the second of two deques.
fn second_nodes<'p>(
    alloc: Global,
    nearness: &'p Nearness<'p>,
    hands: Vec<Hand>,
    deques: &'p [Thief],
    mut passes: Vec<Pass>,
    roots: Roots,
) -> Option<Nodes<'p>>
    requires { All (λ p. All (λ t. FitsAt (deque_at t) p) deques.now) passes.items }
{
    let Some(pass) = passes.pop() else {
        return None;
    };
    let own = second_end(hands, roots)?;
    Nodes::new(alloc, nearness, None, own, deques, pass).ok()
}

/// What a worker did: its turns, its offers, its reprices and splits, and how often points were passed.
#[derive(Clone, Copy)]
struct Done {
    turns: u32,
    offers: u32,
    raises: u32,
    offered: usize,
    looked: usize,
    stolen: usize,
    ended: usize,
}

/// What a worker has to do: its number, the bound that it knows at first, whether it lends a hand, and whether the tree
/// is split.
#[derive(Clone, Copy)]
struct Duty {
    number: u16,
    bound: u64,
    lends: bool,
    is_split: bool,
}

/// Turns of a worker that looks for plans, without a first one.
fn search_turns<'i>(worker: &mut Worker<'_, 'i, Fake<'_, 'i>, Counts>, turns: u32) -> u32 {
    let random = generator(1, worker.number);
    search_worker(worker, None, turns, random)
}

/// Turns of a worker that begins with one trade and lends a hand in the other.
fn lending_turns<'i>(
    worker: &mut Worker<'_, 'i, Fake<'_, 'i>, Counts>,
    settings: &Settings,
    nodes: Nodes<'_>,
) -> u32 {
    let random = generator(1, worker.number);
    lending_worker(worker, settings, None, random, nodes)
}

/// Turns of a worker that raises the bound at nodes, or lends a hand.
fn node_turns<'i>(
    worker: &mut Worker<'_, 'i, Fake<'_, 'i>, Counts>,
    settings: &Settings,
    nodes: Nodes<'_>,
    lends: bool,
) -> u32 {
    if lends {
        lending_turns(worker, settings, nodes)
    } else {
        bound_worker(worker, settings, nodes)
    }
}

/// Turns of a worker, which looks for plans where it has no nodes.
fn turns_by<'i>(
    mut worker: Worker<'_, 'i, Fake<'_, 'i>, Counts>,
    nodes: Option<Nodes<'_>>,
    lends: bool,
    settings: &Settings,
) -> Done {
    let turns = match nodes {
        None => search_turns(&mut worker, settings.turns),
        Some(nodes) => node_turns(&mut worker, settings, nodes, lends),
    };
    let gate = worker.gate;
    Done {
        turns,
        offers: worker.hub.offers,
        raises: worker.hub.raises,
        offered: gate.offered.load(Ordering::SeqCst),
        looked: gate.looked.load(Ordering::SeqCst),
        stolen: gate.stolen.load(Ordering::SeqCst),
        ended: gate.ended.load(Ordering::SeqCst),
    }
}

/// Turns of a worker at a hub. The word for cost holds 1000 at first.
fn turns_over<'i>(
    instance: &'i Instance,
    hub: Fake<'_, 'i>,
    nodes: Option<Nodes<'_>>,
    duty: Duty,
    settings: &Settings,
    alloc: Global,
) -> Option<Done> {
    let Ok((ceiling, mut seats)) = Ceiling::new(alloc, 1, 1000, duty.bound) else {
        return None;
    };
    let Some(seat) = seats.pop() else {
        return None;
    };
    let (gate, left, team) = (
        Counts::default(),
        LeavesLeft::of_all(),
        Team::new(duty.is_split),
    );
    let worker = Worker {
        alloc,
        instance,
        hub,
        gate: &gate,
        number: duty.number,
        ceiling: &ceiling,
        seat,
        left: &left,
        team: &team,
        enough: 0,
    };
    Some(turns_by(worker, nodes, duty.lends, settings))
}

/// Turns of a worker at the second of two deques, which take so many numbers.
fn turns_at_nodes<'i>(
    instance: &'i Instance,
    hub: Fake<'_, 'i>,
    (room, roots): (usize, Roots),
    duty: Duty,
    settings: &Settings,
    alloc: Global,
) -> Option<Done> {
    let neighbours = Settings::default().neighbours;
    let nearness = Nearness::new(alloc, instance, neighbours).ok()?;
    let Ok((hands, deques, passes)) = Pool::new(alloc, 2, room) else {
        return None;
    };
    let deques = deques.as_slice();
    let nodes = second_nodes(alloc, &nearness, hands, deques, passes, roots)?;
    turns_over(instance, hub, Some(nodes), duty, settings, alloc)
}

/// The fault of a name.
fn fault_of(name: &str) -> Option<BookFault> {
    Some(match name {
        "Memory" => BookFault::Memory,
        "JournalFull" => BookFault::JournalFull,
        "LeavesFull" => BookFault::LeavesFull,
        "Lower" => BookFault::Lower,
        "ForeignInstance" => BookFault::ForeignInstance,
        _ => return None,
    })
}

/// Tells what the worker of a number does that raises the bound of a leaf, at the second of two deques. The first
/// such worker has the number 2.
fn tell_bounder<'i>(
    alloc: Global,
    told: &mut String,
    instance: &'i Instance,
    leaf: &Priced<'i>,
    [number, turns, labels, room, how]: [&str; 5],
) -> Option<()> {
    let mut hub = Fake::new(leaf);
    hub.is_bare = how == "bare";
    hub.split_refusal = match how {
        "own" | "stolen" | "both" | "bare" => None,
        fault => Some(fault_of(fault)?),
    };
    let mut settings = Settings::default();
    (settings.turns, settings.labels) = (turns.parse().ok()?, labels.parse().ok()?);
    let duty = Duty {
        number: number.parse().ok()?,
        bound: 0,
        lends: false,
        is_split: false,
    };
    let deque = (room.parse().ok()?, roots_of(how));
    let done = turns_at_nodes(instance, hub, deque, duty, &settings, alloc)?;
    let (turns, raises, looked) = (done.turns, done.raises, done.looked);
    write!(told, "turns {turns} raises {raises} looked {looked}").ok()?;
    writeln!(told, " stolen {} ended {}", done.stolen, done.ended).ok()
}

/// Tells what the worker of a number does that lends a hand, in a crew of so many searchers and bound workers, at the
/// second of two deques, in so many turns at a tree that is split or whole.
fn tell_lender<'i>(
    alloc: Global,
    told: &mut String,
    instance: &'i Instance,
    leaf: &Priced<'i>,
    [crew, number, turns, tree, how]: [&str; 5],
) -> Option<()> {
    let (searchers, bounders) = pair_of(crew)?;
    let mut settings = Settings::default();
    settings.searchers = searchers.into();
    settings.bounders = bounders.into();
    settings.turns = turns.parse().ok()?;
    let duty = Duty {
        number: number.parse().ok()?,
        bound: 0,
        lends: true,
        is_split: tree == "split",
    };
    let (hub, deque) = (Fake::new(leaf), (100, roots_of(how)));
    let done = turns_at_nodes(instance, hub, deque, duty, &settings, alloc)?;
    let (turns, offers, raises) = (done.turns, done.offers, done.raises);
    write!(told, "turns {turns} offers {offers} raises {raises}").ok()?;
    let (looked, stolen, ended) = (done.looked, done.stolen, done.ended);
    writeln!(told, " looked {looked} stolen {stolen} ended {ended}").ok()
}

/// Tells what a worker does in five turns that looks for plans, where from this offer on each is refused so.
fn tell_searcher<'i>(
    alloc: Global,
    told: &mut String,
    instance: &'i Instance,
    leaf: &Priced<'i>,
    [first, fault, bound]: [&str; 3],
) -> Option<()> {
    let mut hub = Fake::new(leaf);
    hub.refusal = (first.parse().ok()?, fault_of(fault)?);
    let mut settings = Settings::default();
    settings.turns = 5;
    let duty = Duty {
        number: 0,
        bound: bound.parse().ok()?,
        lends: false,
        is_split: false,
    };
    let done = turns_over(instance, hub, None, duty, &settings, alloc)?;
    let (turns, offers, offered) = (done.turns, done.offers, done.offered);
    write!(told, "turns {turns} offers {offers} offered {offered}").ok()?;
    writeln!(told, " ended {}", done.ended).ok()
}

/// Tells what a worker does at a leaf, by the call's words behind it.
pub(crate) fn tell_worker<'i>(
    alloc: Global,
    told: &mut String,
    instance: &'i Instance,
    leaf: &Priced<'i>,
    (call, rest): (&str, &[&str]),
) -> Option<()> {
    match (call, rest) {
        ("bounder", [number, turns, labels, room, how]) => {
            let words = [*number, *turns, *labels, *room, *how];
            tell_bounder(alloc, told, instance, leaf, words)
        }
        ("lender", [crew, number, turns, tree, how]) => {
            let words = [*crew, *number, *turns, *tree, *how];
            tell_lender(alloc, told, instance, leaf, words)
        }
        ("searcher", [first, fault, bound]) => {
            tell_searcher(alloc, told, instance, leaf, [first, fault, bound])
        }
        _ => None,
    }
}
