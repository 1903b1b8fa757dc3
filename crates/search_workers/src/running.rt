//! A run of all workers.

ghost use Rattle.std.specs.Prelude.{◌≡◌, ◌≢◌, ◌≤◌, ◌+◌, ◌^◌, ◌<◌, ◌⊎◌, [], IfOk, IfErr, IfSome, is_some, vec_len};
ghost use Rattle.std.specs.List.{All};
ghost use Rattle.node_pool.specs.Deques.{FitsAt};
ghost use Rattle.node_pool.specs.Ends.{deque_at};
ghost use Rattle.ceiling.specs.Seats.{IsSeatOf};
ghost use Rattle.solomon_reader.specs.History.{costs_of};
ghost use Rattle.insertion.specs.Building.{IsServedAlone};
ghost use Rattle.desk.specs.Tally.{each};
ghost use Rattle.desk.specs.Blanks.{names_of, parts_of};
ghost use Rattle.desk.specs.Opening.{WasOffered};
ghost use Rattle.run_settings.specs.Settings.{IsWithin};
ghost use Rattle.incumbent_book.specs.Reaching.{IsReached};
ghost use Rattle.search_workers.specs.Given.{IsTreeFor, bound_of};
ghost use Rattle.search_workers.specs.Running.{RefusesSettings, IsNoDearer};
ghost use Rattle.search_workers.specs.Roles.{DrawsFor};
ghost use Rattle.search_workers.specs.declared.fault.RunFault.TheVariants as refusal;

use crate::at_desk::AtDesk;
use crate::begun::Begun;
use crate::crew::all_at_once;
use crate::fault::RunFault;
use crate::opening::{Beginning, Opening};
use crate::post::{ReadyWorker, Role};
use crate::regrown::{OpenLeaf, Regrown};
use ceiling::{Ceiling, CeilingSeat};
use desk::{Blanks, Desk, Naming, Share};
use fronts::Nearness;
use incumbent_book::{Gap, Outcome};
use node_pool::{Hand, Pass, Pool, Thief};
use run_settings::{Settings, generator};
use solomon_reader::Instance;
use std::alloc::{AllocError, Global};
use std::marker::Brand;
use std::sync::Wait;
use std::thread::Threads;
use worker_turns::{Gate, Nodes, Team, Worker};

/// For how many numbers a deque has room in each turn of its worker, which works at ten leaves and puts some numbers in
/// at each.
const PUSHES_OF_TURN: usize = 60;

/// For how many numbers a deque has room at most.
const MOST_PUSHES: usize = 1_000_000;

/// The number of the root.
const ROOT: u32 = 0;

/// What a run is given: each of its steps needs nearly all of it.
#[derive(Drop)]
struct Input<'a, 'i, R, G> {
    rt: &'a R,
    alloc: Global,
    instance: &'i Instance,
    settings: &'a Settings,
    /// The tables of the instance.
    nearness: &'a Nearness<'a>,
    gate: &'a G,
}

/// What all workers of a run share: one lifetime for what each takes into its thread.
#[derive(Drop)]
struct Shared<'a, 'i, R: Wait, J: Naming, G> {
    input: &'a Input<'a, 'i, R, G>,
    desk: &'a Desk<'i, J>,
    ceiling: &'a Ceiling,
    deques: &'a [Thief],
    team: &'a Team,
    begin: &'a Beginning<'i>,
}

/// Deals out to a bound worker each so many-th of the open leaves, as many as there are bound workers.
fn deal(
    nodes: &mut Nodes<'_>,
    leaves: &[OpenLeaf],
    number: u16,
    settings: &Settings,
) -> Result<(), AllocError> {
    let bounders = settings.bounders.max(1) as usize;
    for (place, leaf) in leaves.iter().enumerate() {
        if place % bounders == usize::from(number) % bounders {
            nodes.take_up(leaf.number, leaf.value)?;
        }
    }
    Ok(())
}

/// The role of a worker with the end of a deque of its own: the random words are those of its number, and of a given
/// tree a bound worker has its part of the leaves.
fn role_of<'a, 'i, R: Wait, J: Naming, G>(
    shared: &Shared<'a, 'i, R, J, G>,
    number: u16,
    own: Hand,
    pass: Pass,
) -> Result<Role<'a, 'i>, AllocError>
    requires { All (λ t. FitsAt (deque_at t) pass) shared.now.deques.now }
    ensures { IfOk result (DrawsFor shared.now.input.now.settings.now.seed number) }
{
    let input = shared.input;
    let (plan, held) = match &shared.begin.plan {
        Some(held) => (Some(&held.plan), Some(held.try_clone()?)),
        None => (None, None),
    };
    let mut nodes = Nodes::new(input.alloc, input.nearness, plan, own, shared.deques, pass)?;
    let bounds = u32::from(number) >= input.settings.searchers;
    if let (true, Some(leaves)) = (bounds, &shared.begin.tree.leaves) {
        deal(&mut nodes, leaves.as_slice(), number, input.settings)?;
    }
    let random = generator(input.settings.seed, number);
    Ok(Role {
        plan: held,
        random,
        nodes,
    })
}

/// The workers of a run, the last first: for each a share, a seat, the end of a deque and what it steals by, in the order
/// of their numbers. The workers from 0 on search first; the bound workers follow.
fn post_workers<'a, 'i, R: Wait, J: Naming, G>(
    shared: &Shared<'a, 'i, R, J, G>,
    mut shares: Vec<Share<J>>,
    mut seats: Vec<CeilingSeat>,
    mut hands: Vec<Hand>,
    mut passes: Vec<Pass>,
) -> Result<Vec<ReadyWorker<'a, 'i, R, J, G>>, AllocError>
    requires few { vec_len shares ≤ 2 ^ 16 }
    requires seats { vec_len seats ≡ vec_len shares }
    requires hands { vec_len hands ≡ vec_len shares }
    requires passes { vec_len passes ≡ vec_len shares }
    requires own { All (IsSeatOf shared.now.ceiling.now) seats.items }
    requires fits { All (λ p. All (λ t. FitsAt (deque_at t) p) shared.now.deques.now)
        passes.items }
    ensures { IfOk result (λ crew. vec_len crew ≡ vec_len shares) }
{
    let input = shared.input;
    let mut crew = Vec::with_capacity(input.alloc, shares.len())?;
    while let (Some(share), Some(seat), Some(own), Some(pass)) = (
        shares.pop(),
        seats.pop(),
        hands.pop(),
        passes.pop(),
    ) {
        let number = shares.len() as u16;
        let role = role_of(shared, number, own, pass)?;
        crew.push_reserved(ReadyWorker {
            worker: Worker {
                alloc: input.alloc,
                instance: input.instance,
                hub: AtDesk {
                    rt: input.rt,
                    desk: shared.desk,
                    share,
                },
                gate: input.gate,
                number,
                ceiling: shared.ceiling,
                seat,
                left: &shared.begin.tree.left,
                team: shared.team,
                enough: input.settings.gap,
            },
            settings: input.settings,
            role,
        });
    }
    Ok(crew)
}

/// Puts the root into the empty deques of the bound workers.
fn put_root(hands: &mut [Hand], searchers: usize) {
    for hand in hands.iter_mut().skip(searchers) {
        // An empty deque has room.
        let _ = hand.push(ROOT);
    }
}

/// How many numbers a deque takes in its life: those of its worker's turns, and the open leaves of a given tree.
fn room_of_deque(settings: &Settings, tree: &Regrown) -> usize {
    let leaves = match &tree.leaves {
        Some(leaves) => leaves.len(),
        None => 0,
    };
    (settings.turns as usize)
        .saturating_mul(PUSHES_OF_TURN)
        .saturating_add(leaves)
        .min(MOST_PUSHES)
}

/// The deques of all workers, each with this room. The root stands in those of the bound workers where they begin there.
fn deques(
    alloc: Global,
    workers: usize,
    room: usize,
    searchers: usize,
    at_root: bool,
) -> Result<(Vec<Hand>, Vec<Thief>, Vec<Pass>), AllocError>
    ensures fits { IfOk result (λ r. All (λ p. All (λ t. FitsAt (deque_at t) p) r.1.items) r.2.items) }
    ensures hands { IfOk result (λ r. vec_len r.0 ≡ workers) }
    ensures passes { IfOk result (λ r. vec_len r.2 ≡ workers) }
{
    let Ok((mut hands, thieves, passes)) = Pool::new(alloc, workers, room) else {
        return Err(AllocError);
    };
    if at_root {
        put_root(hands.as_mut_slice(), searchers);
    }
    Ok((hands, thieves, passes))
}

/// Lets all workers work at a desk, each in a thread of its own, and answers their shares. The words for
/// cost and bound begin with what the book has.
fn work_together<'i, R: Threads + Wait + Sync, J: Naming + Send + Sync, G: Gate + Sync>(
    input: &Input<'_, 'i, R, G>,
    desk: &Desk<'i, J>,
    shares: Vec<Share<J>>,
    begin: &Beginning<'i>,
    gap: &Gap,
) -> Result<Vec<Share<J>>, RunFault>
    requires few { (0 < vec_len shares) × (vec_len shares ≤ 2 ^ 16) }
    ensures shares { IfOk result (λ back. vec_len back ≡ vec_len shares) }
    ensures refused { IfErr result (λ e. (e ≡ refusal.Memory) ⊎ (e ≡ refusal.NoThread)) }
{
    let cost = match gap.cost {
        Some(cost) => cost.get(),
        None => u64::from(input.instance.above_ceiling()),
    };
    let Ok((ceiling, seats)) = Ceiling::new(input.alloc, shares.len(), cost, gap.bound.get()) else {
        return Err(RunFault::Memory);
    };
    let at_root = begin.tree.leaves.is_none();
    let searchers = input.settings.searchers as usize;
    let room = room_of_deque(input.settings, &begin.tree);
    let (hands, thieves, passes) = deques(input.alloc, shares.len(), room, searchers, at_root)?;
    let team = Team::new(!at_root);
    let shared = Shared {
        input,
        desk,
        ceiling: &ceiling,
        deques: thieves.as_slice(),
        team: &team,
        begin,
    };
    let crew = post_workers(&shared, shares, seats, hands, passes)?;
    all_at_once(input.rt, input.alloc, crew)
}

/// Lets all workers work at a book, and answers what it leaves.
fn run_at_desk<'i, R: Threads + Wait + Sync, J: Naming + Send + Sync, G: Gate + Sync>(
    input: &Input<'_, 'i, R, G>,
    opening: Opening<'i>,
    blanks: Blanks,
) -> Result<Outcome<'i>, RunFault>
    requires within { IsWithin input.now.settings.now }
    requires problem { opening.book.problem ≡ J.problem }
    requires neighbours { opening.book.neighbours ≡ J.neighbours }
    requires sets { opening.book.most_sets ≡ J.sets }
    requires rows { opening.book.most_rows ≡ J.rows }
    requires offered { WasOffered J.opening_cost opening.book.past }
    requires reached { IsReached J.opening_bound opening.book }
    requires workers { J.workers ≡ input.now.settings.now.searchers +
        input.now.settings.now.bounders }
    requires names { names_of blanks ≡ J.names }
    requires parts { parts_of blanks ≡ each J.workers }
    ensures problem { IfOk result (λ o. o.problem ≡ J.problem) }
    ensures neighbours { IfOk result (λ o. o.neighbours ≡ J.neighbours) }
    ensures sets { IfOk result (λ o. o.most_sets ≡ J.sets) }
    ensures rows { IfOk result (λ o. o.most_rows ≡ J.rows) }
    ensures offered { IfOk result (λ o. WasOffered J.opening_cost o.past) }
    ensures reached { IfOk result (IsReached J.opening_bound) }
    ensures refused { IfErr result (λ e. (e ≡ refusal.Memory) ⊎ (e ≡ refusal.NoThread)) }
{
    let Opening { book, begin, .. } = opening;
    let gap = book.gap();
    let workers = input.settings.searchers + input.settings.bounders;
    let Ok((desk, shares)) = Desk::<J>::open(input.alloc, book, workers as u16, blanks) else {
        return Err(RunFault::Memory);
    };
    let shares = work_together(input, &desk, shares, &begin, &gap)?;
    match desk.close(shares) {
        Ok(outcome) => Ok(outcome),
        Err(_) => unreachable!(),
    }
}

/// Lets all workers work from a first plan on, the given one or one that an insertion builds, and at a given tree if there
/// is one, and answers what they leave.
#[tactic(auto, using(crate::proofs::Starts::offered_some, crate::proofs::Starts::incumbent_no_dearer))]
fn run_within<'i, R: Threads + Wait + Sync, G: Gate + Sync>(
    input: &Input<'_, 'i, R, G>,
    begun: Begun<'_, 'i>,
) -> Result<Outcome<'i>, RunFault>
    requires within { IsWithin input.now.settings.now }
    requires start { IfSome begun.start (λ f. f.problem ≡ input.now.instance.now) }
    requires tree { IfSome begun.tree (IsTreeFor input.now.instance.now input.now.settings.now.neighbours) }
    ensures problem { IfOk result (λ o. o.problem ≡ input.now.instance.now) }
    ensures neighbours { IfOk result (λ o. o.neighbours ≡ input.now.settings.now.neighbours) }
    ensures sets { IfOk result (λ o. o.most_sets ≡ input.now.settings.now.sets) }
    ensures rows { IfOk result (λ o. o.most_rows ≡ input.now.settings.now.rows) }
    ensures served { IfOk result
        (λ o. IsServedAlone input.now.instance.now → costs_of o.past ≢ []) }
    ensures no_dearer { IfOk result (λ o. IsNoDearer begun.entry.start o.incumbent) }
    ensures reached { IfOk result (IsReached (bound_of begun.entry.tree)) }
    ensures refused { IfErr result (λ e. (e ≡ refusal.Memory) ⊎ (e ≡ refusal.LabelLimit)
        ⊎ (e ≡ refusal.NoThread)) }
{
    let Input {
        rt,
        alloc,
        instance,
        settings,
        nearness,
        gate,
    } = *input;
    let opening = Opening::new(rt, alloc, instance, settings, nearness, gate, begun)?;
    let workers = settings.searchers + settings.bounders;
    let outcome = run_at_desk::<R, Brand, G>(input, opening, Blanks::new(workers as u16))?;
    // brings in that the incumbent is the cheapest plan offered
    let _plan = outcome.plan();
    Ok(outcome)
}

/// Looks for plans and raises the bound by many workers, each in a thread of its own, at one book, and
/// answers what they leave there: the incumbent, the bound and its tree.
///
/// `BadSettings` where a setting is outside its range. `LabelLimit` where as many labels stand as the
/// settings allow before the root has a value. `NoThread` where a thread was refused; those that were
/// started have ended then. `Memory` where a growth was refused before the first worker began.
pub fn run<'i, R: Threads + Wait + Sync, G: Gate + Sync>(
    rt: &R,
    alloc: Global,
    instance: &'i Instance,
    settings: &Settings,
    gate: &G,
) -> Result<Outcome<'i>, RunFault>
    ensures problem { IfOk result (λ o. o.problem ≡ instance.now) }
    ensures neighbours { IfOk result (λ o. o.neighbours ≡ settings.now.neighbours) }
    ensures sets { IfOk result (λ o. o.most_sets ≡ settings.now.sets) }
    ensures rows { IfOk result (λ o. o.most_rows ≡ settings.now.rows) }
    ensures served { IfOk result (λ o. IsServedAlone instance.now → costs_of o.past ≢ []) }
    ensures within { IfOk result (λ _. IsWithin settings.now) }
    ensures refused { IfErr result (RefusesSettings settings.now) }
{
    run_from(
        rt,
        alloc,
        instance,
        settings,
        gate,
        Begun::nothing(instance),
    )
}

/// What `run` answers where the work goes on from a given plan, if that is cheaper than the one that an insertion
/// builds, and from a given tree. The incumbent costs at most what that plan does, and the bound is at least that of the
/// tree. Bound workers begin at its open leaves: those whose value is below the best cost, or of them those of a part.
///
/// `LabelLimit` also where a pricing at a leaf of the tree takes more labels than the settings allow, or a leaf has
/// prices of sets that no run gives: of two sets with the same customers, or together above half of the range.
pub fn run_from<'i, R: Threads + Wait + Sync, G: Gate + Sync>(
    rt: &R,
    alloc: Global,
    instance: &'i Instance,
    settings: &Settings,
    gate: &G,
    begun: Begun<'_, 'i>,
) -> Result<Outcome<'i>, RunFault>
    requires start { IfSome begun.start (λ f. f.problem ≡ instance.now) }
    requires tree { IfSome begun.tree (IsTreeFor instance.now settings.now.neighbours) }
    ensures problem { IfOk result (λ o. o.problem ≡ instance.now) }
    ensures neighbours { IfOk result (λ o. o.neighbours ≡ settings.now.neighbours) }
    ensures sets { IfOk result (λ o. o.most_sets ≡ settings.now.sets) }
    ensures rows { IfOk result (λ o. o.most_rows ≡ settings.now.rows) }
    ensures served { IfOk result (λ o. IsServedAlone instance.now → costs_of o.past ≢ []) }
    ensures no_dearer { IfOk result (λ o. IsNoDearer begun.entry.start o.incumbent) }
    ensures reached { IfOk result (IsReached (bound_of begun.entry.tree)) }
    ensures within { IfOk result (λ _. IsWithin settings.now) }
    ensures refused { IfErr result (RefusesSettings settings.now) }
{
    if !settings.is_within() {
        return Err(RunFault::BadSettings);
    }
    let nearness = Nearness::new(alloc, instance, settings.neighbours)?;
    let input = Input {
        rt,
        alloc,
        instance,
        settings,
        nearness: &nearness,
        gate,
    };
    run_within(&input, begun)
}
