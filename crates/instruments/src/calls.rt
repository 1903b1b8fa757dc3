//! Calls of the library on small instances, so that allocations can be refused in them. For each name the
//! line `ready` is printed once all stands that its call needs, and then what came of the call, twice: the
//! second is made with what a refusal of the first gave back.

use crate::given::tell_given;
use crate::measures::{PlanSearcher, searcher_of};
use crate::starts::{Host, WRONG, made, tell_line, tell_ready};
use branching::Region;
use certificate::Cert;
use checker::check;
use insertion::{Built, Weights, build};
use labelling::{Hints, least};
use moves::{Move, MoveFault, Place, apply};
use prices::{Priced, improve};
use schedule::Feasible;
use solomon_reader::{Instance, read};
use std::alloc::{AllocError, Global};
use std::fmt::{Debug, Display};
use std::sync::Wait;
use std::thread::Threads;
use std::{fmt, io};
use tenths::MemorySink;
use test_starts::{DEPOT, IN_LINE, instance_text, plan_at};
use vrptw::{Answer, NoGate, Settings, StartFault, solve_from};

/// Two customers to the right of the depot, and two above it.
const CROSSED: &str =
    "1 10 0 1 0 1000 0\n2 20 0 1 0 1000 0\n3 0 10 1 0 1000 0\n4 0 20 1 0 1000 0\n";

/// Two customers far from the depot and near to each other.
const NEAR: &str = "1 30 40 1 0 1000 0\n2 33 44 1 0 1000 0\n";

/// A depot with a demand, and three customers close to each other.
const NEAR_DEPOT: &str = "0 0 1 0 0 1000 0\n";

const APART: &str = "1 100 1 1 0 1000 0\n2 100 2 1 0 1000 0\n3 100 0 1 0 1000 0\n";

/// Routes of them that cross.
const ROUTES: [&[u16]; 2] = [&[1, 4], &[3, 2]];

/// The ends of both routes change places.
const CANDIDATE: Move = Move::TwoOptStar {
    first: Place {
        route: 0,
        position: 1,
    },
    second: Place {
        route: 1,
        position: 1,
    },
};

/// How often each call is made.
const CALLS: u32 = 2;

/// A plan's cost in tenths, and its routes.
#[derive(Clone, Copy)]
struct Shown<'a, 'i>(&'a Feasible<'i>);

impl Display for Shown<'_, '_> {
    fn fmt<W: fmt::Write>(&self, f: &mut fmt::Formatter<W>) -> fmt::Result {
        let (cost, routes) = (self.0.cost().get(), self.0.routes());
        write!(f, "{cost} {routes:?}")
    }
}

/// Builds a plan, and prints what came of it.
fn tell_built<R: Host>(rt: &R, instance: &Instance) -> io::Result<()> {
    match &build(rt.alloc(), instance, &Weights::plain()) {
        Ok(Built::Whole(plan)) => println!(rt; "Whole {}", Shown(plan)),
        Ok(Built::Part { .. }) => println!(rt; "Part"),
        Err(fault) => tell_line(rt, fault),
    }
}

/// What came of a move: the plan after it, or the plan that came back, and why.
#[derive(Drop)]
struct Moved<'i> {
    plan: Feasible<'i>,
    fault: Option<MoveFault>,
}

impl<'i> Moved<'i> {
    /// The plan that came back, or else another.
    fn back_or(self, other: Feasible<'i>) -> Feasible<'i> {
        match self.fault {
            Some(_) => self.plan,
            None => other,
        }
    }
}

impl Display for Moved<'_> {
    fn fmt<W: fmt::Write>(&self, f: &mut fmt::Formatter<W>) -> fmt::Result {
        let plan = Shown(&self.plan);
        match self.fault {
            None => write!(f, "Ok {plan}"),
            Some(fault) => write!(f, "{fault} back {plan}"),
        }
    }
}

/// Makes the move.
fn move_in(alloc: Global, plan: Feasible<'_>) -> Moved<'_> {
    match apply(alloc, plan, &CANDIDATE) {
        Ok(plan) => Moved { plan, fault: None },
        Err((plan, fault)) => Moved {
            plan,
            fault: Some(fault),
        },
    }
}

/// Makes the move twice, once more in the plan that came back, or else in another, and prints what came of it.
fn tell_moved<'i, R: Host>(rt: &R, plan: Feasible<'i>, other: Feasible<'i>) -> io::Result<()> {
    let first = move_in(rt.alloc(), plan);
    tell_line(rt, &first)?;
    let second = move_in(rt.alloc(), first.back_or(other));
    tell_line(rt, &second)
}

/// Makes the move twice, and prints what came of it.
fn tell_applied<R: Host>(rt: &R, instance: &Instance) -> io::Result<()> {
    let plan = made(plan_at(rt.alloc(), instance, &ROUTES))?;
    let other = made(plan_at(rt.alloc(), instance, &ROUTES))?;
    tell_ready(rt)?;
    tell_moved(rt, plan, other)
}

/// Descends, and prints what came of it.
fn tell_descent<R: Host>(rt: &R, searcher: &mut PlanSearcher<'_>) -> io::Result<()> {
    let came = searcher.descend();
    let plan = Shown(searcher.plan());
    match came {
        Ok(()) => println!(rt; "Ok {plan}"),
        Err(fault) => println!(rt; "{fault} held {plan}"),
    }
}

/// Descends twice from the plan whose routes cross, and prints what came of it.
fn tell_descents<R: Host>(rt: &R, instance: &Instance) -> io::Result<()> {
    let plan = made(plan_at(rt.alloc(), instance, &ROUTES))?;
    tell_ready(rt)?;
    let mut searcher = searcher_of(rt.alloc(), plan);
    for _ in 0..CALLS {
        tell_descent(rt, &mut searcher)?;
    }
    Ok(())
}

/// Prices at which a relaxed route that remembers nobody visits the second customer twice.
const PRICES: [i64; 2] = [0, 1_100_000];

/// Steps of which each raises the value.
const STEPS: [i64; 3] = [64_000, 32_000, 16_000];

/// Prints a relaxed route.
fn tell_found<R: Host>(rt: &R, found: &labelling::Least) -> io::Result<()> {
    println!(rt; "Ok {:?} {:?}", found.value, found.route)
}

/// Finds a relaxed route of least reduced cost, and prints what came of it.
fn tell_least<R: Host>(rt: &R, instance: &Instance) -> io::Result<()> {
    if instance.customer_count() != 2 {
        return Err(io::Error::from(WRONG));
    }
    let region = Region::root(rt.alloc(), 2);
    match &least(rt.alloc(), instance, &region, &PRICES, 0, None) {
        Ok(found) => tell_found(rt, found),
        Err(fault) => tell_line(rt, fault),
    }
}

/// The root of an instance, for one neighbour.
fn root_of<'i>(alloc: Global, instance: &'i Instance) -> io::Result<Priced<'i>> {
    made(Priced::root(alloc, instance, 1, None, &Hints::none(alloc)).ok())
}

/// Prints prices and their value.
fn tell_best<R: Host>(rt: &R, best: &Priced<'_>) -> io::Result<()> {
    let (value, prices) = (best.value(), best.prices());
    println!(rt; "best {value} {prices:?}")
}

/// Improves prices, and prints the best that were found.
fn tell_improvement<R: Host>(rt: &R, priced: Priced<'_>) -> io::Result<()> {
    let best = improve(rt.alloc(), priced, &STEPS, None);
    tell_best(rt, &best)
}

/// Improves the prices of two roots, and prints the best that were found.
fn tell_improved<R: Host>(rt: &R, instance: &Instance) -> io::Result<()> {
    let first = root_of(rt.alloc(), instance)?;
    let second = root_of(rt.alloc(), instance)?;
    tell_ready(rt)?;
    tell_improvement(rt, first)?;
    tell_improvement(rt, second)
}

/// A tree of three leaves, whose bound is the cost of the solution.
const CERTIFICATE: &[u8] =
    b"VRPTW-CERT 1\nINSTANCE T\nCUSTOMERS 3\nNEIGHBOURS 8\nBOUND 401.0\nTREE\nS 1 2\nP 0 2010000 2000000\nS 2 1\nP 0 2010000 2000000\nP 1990000 2000000 20000\nEND\n";

const SOLUTION: &[u8] = b"Route #1: 2 1\nRoute #2: 3\nCost 401.0\n";

/// The most pairs of time and cost of a check.
const STATES: usize = 1_000_000;

/// Prints what came of a call that answers a value or a fault.
fn tell_outcome<R: Host, T: Debug, E: Display>(rt: &R, outcome: &Result<T, E>) -> io::Result<()> {
    match outcome {
        Ok(value) => println!(rt; "Ok {value:?}"),
        Err(fault) => println!(rt; "{fault}"),
    }
}

/// The text that a sink took.
fn taken(sink: &MemorySink) -> &str {
    str::from_utf8(sink.as_slice()).unwrap_or("")
}

/// Prints an answer of the solver, and both texts in quotes.
fn tell_answer<R: Host>(
    rt: &R,
    outcome: &Result<Answer, StartFault>,
    plan: &str,
    tree: &str,
) -> io::Result<()> {
    match outcome {
        Ok(answer) => println!(rt; "Ok {answer:?} {plan:?} {tree:?}"),
        Err(fault) => println!(rt; "{fault} {plan:?} {tree:?}"),
    }
}

/// Solves an instance by few turns of one worker of each kind, from a plan if there is one, and prints the answer
/// and both texts in quotes.
fn tell_solved<R: Host + Threads + Wait>(
    rt: &R,
    text: &[u8],
    start: Option<&[u8]>,
) -> io::Result<()> {
    let (alloc, mut settings) = (rt.alloc(), Settings::default());
    (settings.searchers, settings.bounders, settings.turns) = (1, 1, 2);
    let (mut first, mut second) = (MemorySink::new(alloc), MemorySink::new(alloc));
    let outcome = solve_from(
        rt,
        alloc,
        text,
        start,
        &settings,
        &NoGate,
        &mut first,
        &mut second,
    );
    tell_answer(rt, &outcome, taken(&first), taken(&second))
}

/// Writes a certificate, and prints what came of it and its text in quotes.
fn tell_written<R: Host>(rt: &R, cert: &Cert) -> io::Result<()> {
    let mut sink = MemorySink::new(rt.alloc());
    let outcome = certificate::write(cert, &mut sink);
    let text = taken(&sink);
    match outcome {
        Ok(()) => println!(rt; "Ok {text:?}"),
        Err(fault) => println!(rt; "{fault} {text:?}"),
    }
}

/// Makes a call to which nothing is given back, and prints what came of it; of a certificate that is written also
/// its text in quotes.
fn tell_once<R: Host + Threads + Wait>(
    rt: &R,
    name: &str,
    text: &[u8],
    instance: &Instance,
    cert: &Cert,
) -> io::Result<()> {
    let (alloc, solution) = (rt.alloc(), Some(SOLUTION));
    match name {
        "build" => tell_built(rt, instance),
        "least" => tell_least(rt, instance),
        "read" => tell_outcome(rt, &certificate::read(alloc, CERTIFICATE)),
        "write" => tell_written(rt, cert),
        "check" => tell_outcome(rt, &check(alloc, text, CERTIFICATE, solution, STATES)),
        "solve_two" | "solve_three" => tell_solved(rt, text, None),
        "solve_from" => tell_solved(rt, text, solution),
        _ => Err(io::Error::from(WRONG)),
    }
}

/// Makes a call twice to which nothing is given back.
fn tell_twice<R: Host + Threads + Wait>(
    rt: &R,
    name: &str,
    text: &[u8],
    instance: &Instance,
) -> io::Result<()> {
    let cert = made(certificate::read(rt.alloc(), CERTIFICATE).ok())?;
    tell_ready(rt)?;
    for _ in 0..CALLS {
        tell_once(rt, name, text, instance, &cert)?;
    }
    Ok(())
}

/// Makes the call of a name twice, for the instance that is read from a text.
fn tell_on<R: Host + Threads + Wait>(
    rt: &R,
    name: &str,
    text: &[u8],
    instance: &Instance,
) -> io::Result<()> {
    match name {
        "apply" => tell_applied(rt, instance),
        "descend" => tell_descents(rt, instance),
        "improve" => tell_improved(rt, instance),
        "offer" | "reprice" | "split" => tell_given(rt, instance, name),
        _ => tell_twice(rt, name, text, instance),
    }
}

/// The text of the instance that the call of a name needs.
fn text_of(alloc: Global, name: &str) -> Result<String, AllocError> {
    let (fleet, capacity, depot, customers) = match name {
        "build" | "apply" | "descend" => (2, 4, DEPOT, CROSSED),
        "least" | "improve" => (1, 3, DEPOT, NEAR),
        "check" | "solve_three" | "solve_from" => (2, 2, NEAR_DEPOT, APART),
        "solve_two" => (2, 1, DEPOT, IN_LINE),
        _ => (2, 2, DEPOT, IN_LINE),
    };
    instance_text(alloc, fleet, capacity, depot, customers)
}

/// Makes the call of a name twice, for the instance that it needs.
fn tell<R: Host + Threads + Wait>(rt: &R, name: &str) -> io::Result<()> {
    let text = made(text_of(rt.alloc(), name).ok())?;
    let instance = made(read(rt.alloc(), text.as_bytes()).ok())?;
    tell_on(rt, name, text.as_bytes(), &instance)
}

pub(crate) fn tell_calls<R: Host + Threads + Wait>(rt: &R, names: &[&str]) -> io::Result<()> {
    for name in names {
        tell(rt, name)?;
    }
    Ok(())
}
