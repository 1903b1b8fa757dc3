//! Rows of the library: the calls of a script, each with its outcome below it on lines that begin with two
//! blanks. A line that begins with `#` is a title.
//!
//! In texts `|` stands for a line feed and `~` for the byte 128. A list is a word with commas between its
//! numbers, and a hyphen where there is none; in it `9*0` stands for nine zeros. A place is a route and a
//! position, and a chain has its length behind them. Calls:
//!
//! - `instance FLEET CAPACITY ROWS` and `bytes TEXT` read an instance, to which later calls refer;
//!   `line FLEET CAPACITY COUNT,X,Y,STEP ROWS` reads one of the depot, this many customers from (X,Y) on,
//!   each a step to the right of the one before, and the rows. `same FLEET CAPACITY ROWS` compares one.
//! - `ceiling`, `walk ROUTE` and `joins` ask the instance, `build MU LAMBDA A1` builds a plan, `run` lets workers of
//!   both kinds work at it, and `alone` closes it. A region is
//!   `root`, `used:FROM,TO` or `unused:FROM,TO`; `leaf REGION NEIGHBOURS PRICES` values prices, with a limit
//!   of labels if one is behind them, and so does `least` labels; `met REGION NEIGHBOURS PRICES ROUTE` labels
//!   where a route is known, and tells the reduced costs of further routes; `steps REGION NEIGHBOURS PRICES
//!   STEPS` improves prices.
//! - `bounder REGION NEIGHBOURS PRICES NUMBER TURNS LABELS ROOM HOW` has a worker of this number raise the bound over
//!   a fake of the book that has this leaf; its deque takes this many numbers, and has the root, or another deque
//!   where it is `stolen`, or `both`; no number is a leaf's where the fake is `bare`, and it refuses splits by the
//!   fault that is named. `searcher REGION NEIGHBOURS PRICES FIRST FAULT BOUND` has one look for plans, where from the
//!   first of these offers on each is refused so.
//! - `book EVENTS,LEAVES,DEPTH REGION STEPS` opens a book with these limits, of prices of 0 at a region, and takes
//!   steps there, whose parts stand between strokes: `offer/ROUTE/ROUTE..`, or `foreign/ROUTE..` of a plan of the
//!   instance read before, `reprice/LEAF/REGION/PRICES`, `split/LEAF/ARC/REGION/PRICES`, with these prices at both
//!   children of the region, `value/LEAF`, and `gap`. Behind the depth may stand how many sets may have prices, and
//!   behind the prices of `reprice` a set's customers, and its need and price; then the sets listed and the nodes of
//!   the tree are told at the end.
//! - `plan ROUTES` checks a plan, to which `routes`, `trees`, `move KIND FROM TO`, `bests`, `shake COUNT WORDS`,
//!   `turn WORDS` and `descend` refer; the plan behind a descent is the next one.
//! - `root NUMBER`, `distance POINT POINT` and `lists` stand alone.
#![tactic(auto)]

mod books;
mod candidates;
mod fake;
pub mod few;
mod instances;
mod joins;
mod leaves;
mod outcomes;
mod plans;
pub mod script;
mod words;
mod workers;

use crate::books::tell_book;
use crate::candidates::{tell_bests, tell_move};
use crate::instances::{HIGH, tell_build, tell_instance, tell_same, tell_walk, text_by};
use crate::joins::{tell_joins, tell_lists};
use crate::leaves::tell_leaf;
use crate::outcomes::{tell_alone, tell_run};
use crate::plans::{descend, plan_of, routes_of, tell_drawn, tell_plan, tell_routes, tell_trees};
use crate::words::pair_of;
use solomon_reader::{Instance, read};
use std::alloc::Global;
use std::io;
use std::rt::Runtime;
use std::sync::Wait;
use std::thread::Threads;
use tenths::{Point, distance, root};
use test_starts::{Rows, behind, bytes_meant};

/// The instance and the routes to which calls refer, and the instance that was read before.
#[derive(Drop)]
struct State {
    instance: Option<Instance>,
    earlier: Option<Instance>,
    routes: Vec<Vec<u16>>,
}

/// Tells what comes of a call that needs a plan, or checks one.
fn tell_of_plan<R: AllocGlobal + Threads + Sync>(
    rt: &R,
    told: &mut String,
    instance: &Instance,
    held: &mut Vec<Vec<u16>>,
    words: &[&str],
) -> Option<()> {
    let alloc = rt.alloc();
    match words {
        ["plan", routes @ ..] => {
            *held = routes_of(alloc, routes)?;
            tell_plan(told, instance, held.clone().ok()?)
        }
        ["routes"] => tell_routes(told, &plan_of(instance, held)?),
        ["trees"] => tell_trees(alloc, told, &plan_of(instance, held)?),
        ["move", kind, from, to] => {
            tell_move(alloc, told, plan_of(instance, held)?, [kind, from, to])
        }
        ["bests"] => tell_bests(rt, told, &plan_of(instance, held)?),
        ["shake", count, draws] => {
            let count = Some(count.parse().ok()?);
            tell_drawn(alloc, told, plan_of(instance, held)?, count, draws)
        }
        ["turn", draws] => tell_drawn(alloc, told, plan_of(instance, held)?, None, draws),
        ["descend"] => {
            *held = descend(rt, told, plan_of(instance, held)?)?;
            Some(())
        }
        _ => None,
    }
}

/// Tells what comes of a call that needs an instance or a plan.
fn tell_held<R: AllocGlobal + Threads + Wait + Sync>(
    rt: &R,
    told: &mut String,
    state: &mut State,
    line: &str,
    words: &[&str],
) -> Option<()> {
    let (alloc, instance) = (rt.alloc(), state.instance.as_ref()?);
    match words {
        ["same", ..] => tell_same(alloc, told, instance, text_by(alloc, line, words)?.as_str()),
        ["ceiling"] => writeln!(told, "{}", instance.ceiling().get()).ok(),
        ["walk", route] => tell_walk(alloc, told, instance, route),
        ["joins"] => tell_joins(alloc, told, instance),
        ["run"] => tell_run(rt, told, instance),
        ["alone"] => tell_alone(alloc, told, instance),
        ["build", mu, lambda, a1] => tell_build(alloc, told, instance, [mu, lambda, a1]),
        [
            call @ ("leaf" | "least" | "met" | "steps" | "bounder" | "lender" | "searcher"),
            region,
            neighbours,
            prices,
            rest @ ..,
        ] => {
            let leaf = [*region, *neighbours, *prices];
            tell_leaf(alloc, told, instance, call, leaf, rest)
        }
        ["book", limits, region, steps @ ..] => {
            let instances = (instance, state.earlier.as_ref());
            tell_book(alloc, told, instances, [limits, region], steps)
        }
        _ => tell_of_plan(rt, told, instance, &mut state.routes, words),
    }
}

/// Reads an instance, which is held, and tells what was read or the fault.
fn read_held(alloc: Global, told: &mut String, state: &mut State, text: &[u8]) -> Option<()> {
    match read(alloc, text) {
        Ok(instance) => {
            let outcome = tell_instance(told, &instance);
            state.earlier = state.instance.replace(instance);
            outcome
        }
        Err(fault) => {
            state.instance = None;
            writeln!(told, "{fault}").ok()
        }
    }
}

/// Tells what comes of a call, if it is one.
fn tell_call<R: AllocGlobal + Threads + Wait + Sync>(
    rt: &R,
    told: &mut String,
    state: &mut State,
    line: &str,
    words: &[&str],
) -> Option<()> {
    let alloc = rt.alloc();
    match words {
        ["instance" | "line", ..] => {
            let text = text_by(alloc, line, words)?;
            read_held(alloc, told, state, text.as_bytes())
        }
        ["bytes", ..] => {
            let text = bytes_meant(alloc, behind(line, 1), HIGH).ok()?;
            read_held(alloc, told, state, text.as_slice())
        }
        ["root", number] => writeln!(told, "{}", root(number.parse().ok()?)).ok(),
        ["distance", from, to] => {
            let ((x, y), to) = (pair_of(from)?, pair_of(to)?);
            let to = Point { x: to.0, y: to.1 };
            writeln!(told, "{}", distance(Point { x, y }, to).get()).ok()
        }
        ["lists"] => tell_lists(alloc, told),
        _ => tell_held(rt, told, state, line, words),
    }
}

/// Takes a line of a script, and makes its call, if it is one.
fn tell_line<R: Runtime + AllocGlobal + Threads + Wait + Sync>(
    rt: &R,
    rows: &mut Rows,
    state: &mut State,
    line: &str,
) -> io::Result<()> {
    if !rows.take(rt, line)? {
        return Ok(());
    }
    let words: Vec<&str> = line.split_whitespace().collect(rt.alloc())?;
    let told = &mut rows.told;
    if tell_call(rt, told, state, line, words.as_slice()).is_none() {
        told.clear();
        writeln!(told, "not understood")?;
    }
    Ok(())
}

/// Makes the calls of a script, and prints the rows that don't hold and how many do. No contract: it only prints.
pub fn tell_rows<R: Runtime + AllocGlobal + Threads + Wait + Sync>(
    rt: &R,
    script: &str,
) -> io::Result<()> {
    let mut state = State {
        instance: None,
        earlier: None,
        routes: Vec::new(rt.alloc()),
    };
    let mut rows = Rows::new(rt.alloc());
    for line in script.lines() {
        tell_line(rt, &mut rows, &mut state, line)?;
    }
    rows.end(rt, "test_library")
}
