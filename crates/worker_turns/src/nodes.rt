//! What a bound worker has: the open nodes, and the routes that it met.

ghost use Rattle.std.specs.Prelude.{◌≡◌, IfOk};
ghost use Rattle.std.specs.List.{All};
ghost use Rattle.node_pool.specs.Deques.{FitsAt};
ghost use Rattle.node_pool.specs.Ends.{deque_at};

use crate::turn_fault::TurnFault;
use fronts::Nearness;
use leaf_work::{ChildStart, PricingState, RoutePool, counted_routes};
use node_pool::{Hand, Pass, Stolen, Thief};
use schedule::Feasible;
use std::alloc::{AllocError, Global};
use std::thread::yield_now;

/// A leaf that waits for its turn, with its value in tenths when it was made, and where its ascent starts,
/// if it is known.
#[derive(Drop)]
pub(crate) struct OpenNode {
    pub(crate) number: u32,
    pub(crate) value: i128,
    pub(crate) start: Option<ChildStart>,
}

/// For this many customers a turn at the root may be in vain.
const CUSTOMERS_OF_PATIENCE: u16 = 150;

/// After this many tries to find a leaf the processor is given away.
const TRIES_BETWEEN: u32 = 2_000;

/// How often a turn of a bound worker tries to find a leaf, which takes about as long as a turn's work, and how often one
/// in which a worker lends a hand; and how often a worker tries in vain before its turns try once each.
pub(crate) const TRIES_OF_TURN: u32 = 200_000;

pub(crate) const TRIES_OF_HAND: u32 = 40_000;

const MOST_TRIES: u32 = 5_000_000;

/// What a bound worker has: the leaves that it made, the end of a deque of its own, in which one of them
/// stands for others to steal, the deques that it steals from, and the routes that it met, whatever the
/// leaf.
#[derive(Drop)]
pub struct Nodes<'p> {
    open: Vec<OpenNode>,
    own: Hand,
    /// The leaf that stands in the worker's own deque, if it is still there.
    shared: Option<OpenNode>,
    deques: &'p [Thief],
    pass: Pass,
    /// How often it tried to steal from the deques: each time it begins at the next one.
    tries: usize,
    /// The leaf to go on with.
    pub(crate) current: Option<u32>,
    /// How many turns in a row raised nothing at the root.
    idle_at_root: u16,
    /// How often the worker tried in vain to find a leaf since it had one.
    missed: u32,
    pub(crate) pool: RoutePool,
    pub(crate) state: PricingState<'p>,
    /// How many routes count where prices are raised.
    pub(crate) routes: u16,
    pub(crate) customers: u16,
    ghost fits: { All (λ t. FitsAt (deque_at t) pass) deques.now },
}

/// A node that a worker took.
#[derive(Drop)]
pub(crate) struct Taken {
    pub(crate) number: u32,
    pub(crate) start: Option<ChildStart>,
    pub(crate) is_stolen: bool,
    /// Whether the worker raised its prices in the turn before, too.
    pub(crate) is_again: bool,
}

/// Takes a leaf of the least value out of a list.
fn take_least(open: &mut Vec<OpenNode>) -> Option<OpenNode> {
    let mut least: Option<(usize, i128)> = None;
    for (place, node) in open.iter().enumerate() {
        if least.is_none_or(|(_, value)| node.value < value) {
            least = Some((place, node.value));
        }
    }
    let (place, _) = least?;
    if place < open.len() {
        Some(open.swap_remove(place))
    } else {
        None
    }
}

/// The leaf that the worker took back from its own deque: the one that it shared, or else the root, which
/// stands there at the start.
fn came_back(number: u32, shared: Option<OpenNode>) -> OpenNode {
    match shared {
        Some(node) if node.number == number => node,
        _ => OpenNode {
            number,
            value: 0,
            start: None,
        },
    }
}

/// Tries each deque once, from this one on, until one gives a number. The worker's own is empty then.
fn steal(deques: &[Thief], from: usize, pass: &mut Pass) -> Option<u32>
    requires { All (λ t. FitsAt (deque_at t) pass.old) deques.now }
    ensures { All (λ t. FitsAt (deque_at t) pass.new) deques.now }
{
    let mut place = from;
    for _deque in 0..deques.len() {
        if place >= deques.len() {
            place = 0;
        }
        if let Stolen::One(number) = deques[place].steal(pass) {
            return Some(number);
        }
        place += 1;
    }
    None
}

impl<'p> Nodes<'p> {
    /// The nodes of the worker that has this end of one of the deques, with the tables of the instance, and the routes
    /// of a plan to begin with, if there is one; refused where memory is. No contract: it decides only how the worker
    /// works.
    pub fn new(
        alloc: Global,
        nearness: &'p Nearness<'p>,
        plan: Option<&Feasible<'_>>,
        own: Hand,
        deques: &'p [Thief],
        pass: Pass,
    ) -> Result<Nodes<'p>, AllocError>
        requires { All (λ t. FitsAt (deque_at t) pass) deques.now }
    {
        let routes = plan.map(|plan| plan.routes());
        let instance = nearness.instance;
        let pool = RoutePool::of_routes(alloc, instance, routes.unwrap_or(&[]))?;
        Ok(Nodes {
            open: Vec::new(alloc),
            own,
            shared: None,
            deques,
            pass,
            tries: 0,
            current: None,
            idle_at_root: 0,
            missed: 0,
            pool,
            state: PricingState::new(alloc, nearness),
            routes: counted_routes(instance, routes),
            customers: instance.customer_count(),
        })
    }

    /// These nodes, for so much work, beside which pricings are dear or aren't.
    pub(crate) fn for_work(mut self, work: u64) -> Nodes<'p> {
        self.state.expect(work);
        self
    }

    /// Takes up a leaf of a given tree, with its value in tenths, as one of the worker's own; refused where memory is.
    /// No contract: it decides only where the worker works.
    pub fn take_up(&mut self, number: u32, value: i128) -> Result<(), AllocError> {
        self.open.push(OpenNode {
            number,
            value,
            start: None,
        })?;
        Ok(())
    }

    /// Keeps a leaf that waits for its turn. Where memory is refused, the worker's work ends.
    fn push(&mut self, node: OpenNode) -> Result<(), TurnFault> {
        match self.open.push(node) {
            Ok(()) => Ok(()),
            Err(_) => Err(TurnFault::EndsWork),
        }
    }

    /// Puts the leaf of the least value that is left into the worker's own deque, for others to steal.
    /// Where the deque takes no more, the worker's work ends.
    fn share_next(&mut self) -> Result<(), TurnFault> {
        let Some(next) = take_least(&mut self.open) else {
            return Ok(());
        };
        match self.own.push(next.number) {
            Ok(()) => {
                self.shared = Some(next);
                Ok(())
            }
            Err(_) => Err(TurnFault::EndsWork),
        }
    }

    /// Takes the leaf back that the worker shares, unless somebody stole it.
    fn take_back(&mut self) -> Result<(), TurnFault> {
        let shared = self.shared.take();
        match self.own.pop() {
            Some(number) => self.push(came_back(number, shared)),
            None => Ok(()),
        }
    }

    /// Takes the leaf of the least value that the worker made and nobody stole, and shares the next.
    fn take_own(&mut self) -> Result<Option<OpenNode>, TurnFault> {
        self.take_back()?;
        let Some(least) = take_least(&mut self.open) else {
            return Ok(None);
        };
        self.share_next()?;
        Ok(Some(least))
    }

    /// Keeps both children of a leaf, and shares one leaf at once: a worker that has none may be looking.
    /// Where memory is refused or the deque is full, the worker's work ends.
    pub(crate) fn push_children(
        &mut self,
        first: OpenNode,
        second: OpenNode,
    ) -> Result<(), TurnFault> {
        self.push(first)?;
        self.push(second)?;
        match self.take_own()? {
            Some(least) => self.push(least),
            None => Ok(()),
        }
    }

    /// Whether the work goes on at the root after a turn there, which led somewhere or didn't: with many
    /// customers the first rises are in vain. Where the next ones promise little it doesn't.
    pub(crate) fn stays_at_root(&mut self, goes_on: bool, is_flat: bool) -> bool {
        self.idle_at_root = if goes_on {
            0
        } else {
            self.idle_at_root.saturating_add(1)
        };
        !is_flat && self.idle_at_root <= self.customers / CUSTOMERS_OF_PATIENCE
    }

    /// Takes a leaf that another worker shares, where none of the worker's own has a value up to a limit, and shares
    /// the next of its own.
    fn take_stolen(&mut self, limit: i128) -> Result<Option<Taken>, TurnFault> {
        self.take_back()?;
        if self.open.iter().any(|node| node.value <= limit) {
            return Ok(None);
        }
        self.tries = self.tries.wrapping_add(1);
        let from = self.tries % self.deques.len().max(1);
        let Some(number) = steal(self.deques, from, &mut self.pass) else {
            return Ok(None);
        };
        self.share_next()?;
        Ok(Some(Taken {
            number,
            start: None,
            is_stolen: true,
            is_again: false,
        }))
    }

    /// The leaf to go on with, else that of the least value of the worker's own, so that the bound rises; where
    /// that is above a limit, one of another worker comes before it. Where memory is refused or the deque is full,
    /// the worker's work ends.
    fn take(&mut self, limit: i128) -> Result<Option<Taken>, TurnFault> {
        if let Some(number) = self.current.take() {
            return Ok(Some(Taken {
                number,
                start: None,
                is_stolen: false,
                is_again: true,
            }));
        }
        if let Some(stolen) = self.take_stolen(limit)? {
            return Ok(Some(stolen));
        }
        let Some(least) = self.take_own()? else {
            return Ok(None);
        };
        Ok(Some(Taken {
            number: least.number,
            start: least.start,
            is_stolen: false,
            is_again: false,
        }))
    }

    /// Puts the open leaves into the worker's own deque, for others to steal, as far as it takes them.
    pub(crate) fn leave(&mut self) {
        for _node in 0..self.open.len() {
            let Some(node) = self.open.pop() else {
                return;
            };
            if self.own.push(node.number).is_err() {
                // It has just made room for the node.
                let _ = self.open.push(node);
                return;
            }
        }
    }

    /// Takes a node, one of another worker first where the worker's own have values above a limit. Where there is
    /// none, it tries so often to steal one that another shares, and now and then gives the processor away, so that
    /// idle turns aren't used up before the others have leaves to share.
    pub(crate) fn wait(&mut self, limit: i128, tries: u32) -> Result<Option<Taken>, TurnFault> {
        let tries = if self.missed < MOST_TRIES { tries } else { 1 };
        for _try in 0..tries {
            if let Some(taken) = self.take(limit)? {
                self.missed = 0;
                return Ok(Some(taken));
            }
            self.missed = self.missed.saturating_add(1);
            if self.missed % TRIES_BETWEEN == 0 {
                yield_now();
            }
        }
        Ok(None)
    }
}
