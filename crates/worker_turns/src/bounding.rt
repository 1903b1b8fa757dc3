//! A worker that raises the bound.

ghost use Rattle.std.specs.Prelude.{◌≡◌, ◌≤◌};
ghost use Rattle.ceiling.specs.Seats.{IsSeatOf};

use crate::gate::{Gate, GatePoint};
use crate::hub::Hub;
use crate::nodes::{Nodes, OpenNode, Taken};
use crate::pricing::{
    Rules, expected_work, goal_at, has_done_enough, own_limit, pricing_labels, turn_work,
};
use crate::trade::is_done_at_root;
use crate::turn_fault::TurnFault;
use crate::worker::Worker;
use labelling::LabelFault;
use leaf_work::{ChildStart, Children, Raised, SplitOrDecided, met_plan, raise, split_or_decide};
use prices::Priced;
use run_settings::Settings;
use schedule::Feasible;

/// The most leaves of a turn.
const MOST_LEAVES: u32 = 10;

/// Offers a plan where it is cheaper than those known.
fn offer_if_cheaper<'i, H: Hub<'i>, G: Gate>(
    worker: &mut Worker<'_, 'i, H, G>,
    plan: Feasible<'i>,
) -> Result<(), TurnFault>
    ensures words { worker.new.ceiling ≡ worker.old.ceiling }
{
    if plan.cost().get() >= worker.target() {
        return Ok(());
    }
    worker.offer(plan)?;
    Ok(())
}

/// Splits a leaf, and keeps both children, which wait for their turn. Where another worker raised the root
/// meanwhile, the book refuses its split, and the next turn tries again.
fn split<'i, H: Hub<'i>, G: Gate>(
    worker: &mut Worker<'_, 'i, H, G>,
    number: u32,
    is_root: bool,
    children: Children<'i>,
    nodes: &mut Nodes<'_>,
) -> Result<(), TurnFault>
    ensures words { worker.new.ceiling ≡ worker.old.ceiling }
{
    let Children {
        arc,
        used,
        unused,
        used_start,
        unused_start,
    } = children;
    let (first_value, second_value) = (used.value(), unused.value());
    nodes.current = is_root.then_some(number);
    let (first, second) = worker.split(number, arc, used, unused)?;
    nodes.current = None;
    let first = OpenNode {
        number: first,
        value: first_value,
        start: used_start,
    };
    let second = OpenNode {
        number: second,
        value: second_value,
        start: unused_start,
    };
    worker.left.split();
    worker.team.split();
    let kept = nodes.push_children(first, second);
    worker.pass(GatePoint::Split);
    kept
}

/// Offers the plan of a leaf whose region leaves no arc open where it is cheaper than those known, and gives the leaf
/// its decided prices where their value is above this one.
fn bring_decided<'i, H: Hub<'i>, G: Gate>(
    worker: &mut Worker<'_, 'i, H, G>,
    number: u32,
    value: i128,
    decided: Priced<'i>,
    plan: Option<Feasible<'i>>,
) -> Result<(), TurnFault>
    ensures words { worker.new.ceiling ≡ worker.old.ceiling }
{
    worker.left.finish();
    if let Some(plan) = plan {
        offer_if_cheaper(worker, plan)?;
    }
    if decided.value() > value {
        return worker.reprice(number, decided);
    }
    Ok(())
}

/// Splits a leaf, with the raised prices at both children, or brings the decided leaf where no arc is left to split
/// it by.
fn bring_split_or_decided<'i, H: Hub<'i>, G: Gate>(
    worker: &mut Worker<'_, 'i, H, G>,
    number: u32,
    raised: Raised<'i>,
    labels: usize,
    nodes: &mut Nodes<'_>,
) -> Result<(), TurnFault>
    ensures words { worker.new.ceiling ≡ worker.old.ceiling }
{
    match split_or_decide(&raised, &mut nodes.pool, &mut nodes.state, Some(labels)) {
        Ok(SplitOrDecided::Split(children)) => {
            let is_root = raised.priced.region().is_root();
            split(worker, number, is_root, children, nodes)
        }
        Ok(SplitOrDecided::Decided(decided, plan)) => {
            bring_decided(worker, number, raised.priced.value(), decided, plan)
        }
        Err(LabelFault::LabelLimit) => {
            worker.left.finish();
            worker.reprice(number, raised.priced)
        }
        Err(LabelFault::Memory) => Err(TurnFault::EndsWork),
    }
}

/// Gives the root its raised prices, to which the next turn returns as long as it rises or sets are added, and another
/// leaf where they end the work at it; splits it elsewhere.
fn bring<'i, H: Hub<'i>, G: Gate>(
    worker: &mut Worker<'_, 'i, H, G>,
    number: u32,
    raised: Raised<'i>,
    is_raised: bool,
    rules: Rules,
    nodes: &mut Nodes<'_>,
) -> Result<(), TurnFault>
    ensures words { worker.new.ceiling ≡ worker.old.ceiling }
{
    if raised.priced.value() >= i128::from(worker.target()) {
        worker.left.finish();
        return worker.reprice(number, raised.priced);
    }
    // The first worker alone splits the root, so that the tree begins with prices and routes that belong together.
    let is_root = raised.priced.region().is_root();
    let goes_on = is_raised || raised.added > 0;
    let is_flat = raised.is_flat(&nodes.state);
    if is_root && (nodes.stays_at_root(goes_on, is_flat) || rules.place > 0) {
        nodes.current = Some(number);
        return if is_raised {
            worker.reprice(number, raised.priced)
        } else {
            Ok(())
        };
    }
    bring_split_or_decided(worker, number, raised, rules.labels, nodes)
}

/// Offers the routes that make up the prices raised last, where they are a plan that is cheaper than those
/// known.
fn offer_routes<'i, H: Hub<'i>, G: Gate>(
    worker: &mut Worker<'_, 'i, H, G>,
    nodes: &Nodes<'_>,
) -> Result<(), TurnFault>
    ensures words { worker.new.ceiling ≡ worker.old.ceiling }
{
    match met_plan(worker.instance, &nodes.pool)? {
        Some(plan) => offer_if_cheaper(worker, plan),
        None => Ok(()),
    }
}

/// The leaf with prices of a higher value, if some are found.
fn raise_leaf<'i, H: Hub<'i>, G: Gate>(
    worker: &mut Worker<'_, 'i, H, G>,
    start: Option<ChildStart>,
    is_again: bool,
    leaf: Priced<'i>,
    rules: Rules,
    nodes: &mut Nodes<'_>,
) -> Raised<'i>
    ensures words { worker.new.ceiling ≡ worker.old.ceiling }
{
    let cost = worker.gap().cost;
    let goal = goal_at(&leaf, nodes, cost, is_again, worker.target(), rules);
    raise(&mut nodes.pool, &mut nodes.state, leaf, start, &goal)
}

/// Raises the value of a leaf, and brings what came of it to the book.
fn work_at<'i, H: Hub<'i>, G: Gate>(
    worker: &mut Worker<'_, 'i, H, G>,
    taken: Taken,
    leaf: Priced<'i>,
    rules: Rules,
    nodes: &mut Nodes<'_>,
) -> Result<(), TurnFault>
    ensures words { worker.new.ceiling ≡ worker.old.ceiling }
{
    let Taken {
        number,
        start,
        is_again,
        ..
    } = taken;
    let before = leaf.value();
    let raised = raise_leaf(worker, start, is_again, leaf, rules, nodes);
    worker.pass(GatePoint::Priced);
    offer_routes(worker, nodes)?;
    let is_raised = raised.priced.value() > before;
    bring(worker, number, raised, is_raised, rules, nodes)
}

/// What became of a turn at a leaf.
#[derive(Clone, Copy, Debug, PartialEq, Eq)]
enum Found {
    /// The worker worked at a leaf.
    Leaf,
    /// It found none.
    None,
    /// There was nothing to be done, or it was ahead of the turns that it made.
    Enough,
}

/// Takes a node, unless there is none, cost and bound are near enough, or the worker is ahead of the turns that
/// it made; and works at it, unless its value reaches the cost.
fn work_on<'i, H: Hub<'i>, G: Gate>(
    worker: &mut Worker<'_, 'i, H, G>,
    rules: Rules,
    made: u32,
    tries: u32,
    nodes: &mut Nodes<'_>,
) -> Result<Found, TurnFault>
    ensures words { worker.new.ceiling ≡ worker.old.ceiling }
{
    if worker.is_closed() || has_done_enough(nodes, made) {
        return Ok(Found::Enough);
    }
    let limit = own_limit(worker.gap().bound, worker.target());
    let Some(taken) = nodes.wait(limit, tries)? else {
        return Ok(Found::None);
    };
    if taken.is_stolen {
        worker.pass(GatePoint::Stolen);
    }
    let leaf = worker.hub.look(taken.number)?;
    worker.pass(GatePoint::Looked);
    if leaf.value() < i128::from(worker.target()) {
        work_at(worker, taken, leaf, rules, nodes)?;
    } else {
        worker.left.finish();
    }
    Ok(Found::Leaf)
}

/// A bound worker's nodes, what it goes by, and how many turns it made with them.
#[derive(Drop)]
pub(crate) struct Bounding<'p> {
    nodes: Nodes<'p>,
    rules: Rules,
    made: u32,
}

impl<'p> Bounding<'p> {
    /// These nodes, for a worker of this place among the bound workers, or behind them, where it finds no sets and no
    /// rows.
    pub(crate) fn new(settings: &Settings, place: u32, nodes: Nodes<'p>) -> Bounding<'p> {
        let customers = nodes.customers;
        let part = |all: u32| {
            if place < settings.bounders {
                (all / settings.bounders.max(1)) as usize
            } else {
                0
            }
        };
        let rules = Rules {
            labels: pricing_labels(settings, customers),
            sets: part(settings.sets),
            rows: part(settings.rows),
            place,
            work: turn_work(customers).saturating_mul(u64::from(settings.turns)),
        };
        let work = expected_work(settings, customers);
        Bounding {
            nodes: nodes.for_work(work),
            rules,
            made: 0,
        }
    }

    /// Whether the worker has done its part at the root.
    pub(crate) fn is_done_at_root(&self) -> bool {
        is_done_at_root(self.rules.place, self.made)
    }

    /// Leaves the open nodes for others to steal.
    pub(crate) fn leave(&mut self) {
        self.nodes.leave();
    }

    /// Works at one leaf after the other, until it has done what the turns so far are worth, and answers whether there
    /// was something to be done. It tries so often to find one.
    pub(crate) fn turn<'i, H: Hub<'i>, G: Gate>(
        &mut self,
        worker: &mut Worker<'_, 'i, H, G>,
        tries: u32,
    ) -> Result<bool, TurnFault>
        ensures words { worker.new.ceiling ≡ worker.old.ceiling }
    {
        let made = self.made;
        self.made = made.saturating_add(1);
        for leaf in 0..MOST_LEAVES {
            match work_on(worker, self.rules, made, tries, &mut self.nodes)? {
                Found::Leaf => {}
                Found::None => return Ok(leaf > 0),
                Found::Enough => return Ok(true),
            }
        }
        Ok(true)
    }
}
