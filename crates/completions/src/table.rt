//! Bounds on the completions of routes, by a table from the latest time back, and one from the greatest load down
//! (the completion bounds of Christofides, Mingozzi and Toth 1981). Of what is remembered a bound sees only that
//! a route doesn't come back to a customer at once.

ghost use Rattle.std.specs.Prelude.{◌≡◌, ◌+◌, ◌*◌, ◌<◌, ◌≤◌, ℕ, length, IfOk, IsFalse, pos, ◌+ℤ◌, ℤ, ◌≤ℤ◌, ◌⊎◌, IfSome};
ghost use Rattle.std.specs.List.{All};
ghost use Rattle.solomon_reader.specs.declared.limits.TheConstants.{MOST_TIME, MOST_CAPACITY};
ghost use Rattle.solomon_reader.specs.States.{CanEnd, most_grains};
ghost use Rattle.completions.specs.Completions.{most_paid, IsCut, IsSmall, IsBound, IsEndBound, IsBoundWith, IsRowBound, IsOnward, IsBelowStep, IsJoined, IsBrink, AreVisitBounds, IsPart};
ghost use Rattle.fronts.specs.Fronts.{bare_state, IsBounded};
ghost use Rattle.fronts.specs.Steps.{IsOpenStep};
ghost use Rattle.fronts.specs.Tables.{IsAllowedRow};
ghost use Rattle.fronts.specs.Tasks.{pricing_of};

use crate::bound::{Bound, RowBound};
use crate::brink::{Brink, is_low_enough};
use crate::grid::{Corner, Grid, Loads};
use crate::part::{Part, part_length, parts_of};
use fronts::{CustomerSet, Front, Step, Task};
use solomon_reader::{MOST_CAPACITY, MOST_PRICE, MOST_TIME};
use std::alloc::AllocError;

/// All prices of the customers of one vehicle together, in grains.
const MOST_PAID: i64 = MOST_PRICE as i64 * MOST_CAPACITY as i64;

/// With room for more stops than this many loads say little.
const MOST_LOADS: u32 = 80;

/// What bounds all that may follow from any row at any time, with any load.
fn unknown(task: &Task<'_>) -> Bound
    ensures { (v t d : ℕ) → IsBound (pricing_of task.now) v t d result }
{
    Bound {
        room: task.instance.capacity(),
        next: 0,
        least: -MOST_PAID,
        other: -MOST_PAID,
    }
}

/// What bounds all that may follow from a row at a time with a load, as far as the bounds at a place tell.
#[inline(always)]
pub(crate) fn bound_in(
    task: &Task<'_>,
    bounds: &[RowBound],
    place: usize,
    v: u16,
    time: u64,
    load: u32,
) -> Bound
    requires { All (IsRowBound (pricing_of task.now)) bounds.now }
    ensures { IsBound (pricing_of task.now) v time load result }
{
    if place >= bounds.len() {
        return unknown(task);
    }
    let found = &bounds[place];
    if found.row != v || u64::from(found.from) > time || u32::from(found.load) > load {
        return unknown(task);
    }
    found.bound
}

/// The lesser of two numbers.
fn lesser(a: i64, b: i64) -> i64
    ensures first { result ≤ℤ a }
    ensures second { result ≤ℤ b }
    ensures one { (result ≡ a) ⊎ (result ≡ b) }
{
    if a <= b { a } else { b }
}

/// The greater of two numbers.
fn greater(a: i64, b: i64) -> i64
    ensures first { a ≤ℤ result }
    ensures second { b ≤ℤ result }
    ensures one { (result ≡ a) ⊎ (result ≡ b) }
{
    if a <= b { b } else { a }
}

/// What a step of this cost and what follows on it add, no less than all prices together.
fn added(cost: i64, least: i64) -> i64
    requires low { pos 0 ≤ℤ (cost +ℤ pos (most_grains * MOST_CAPACITY)) }
    requires high { cost ≤ℤ pos (most_grains * MOST_CAPACITY) }
    requires least { IsCut least }
    ensures low { pos 0 ≤ℤ (result +ℤ pos most_paid) }
    ensures high { result ≤ℤ pos (3 * most_paid) }
    ensures least { IsBelowStep cost least result }
{
    let sum = cost + least;
    if sum >= -MOST_PAID { sum } else { -MOST_PAID }
}

/// The least that follows on a step from v, where these bounds hold from there on. A route that comes from v
/// goes back there at once only where the customer's neighbour list doesn't hold v. The task is named by the
/// contract alone.
fn least_onward(_task: &Task<'_>, on: Bound, v: u16, step: &Step, time: u64, load: u32) -> i64
    requires on { IsBound (pricing_of _task.now) step.now.customer time load on }
    requires step { IsOpenStep (pricing_of _task.now) v step.now }
    ensures { IsOnward (pricing_of _task.now) v step.now.customer time load result }
{
    if on.next == v && step.is_recalled {
        return on.other;
    }
    on.least
}

/// The customer that comes next where the least is added: j where a step there adds less than the bound says.
fn next_of(bound: &Bound, j: u16, value: i64) -> u16
    ensures { let b = bound.now in
        ((result ≡ j) × (value ≤ℤ b.least)) ⊎ ((result ≡ b.next) × (b.least ≤ℤ value)) }
{
    if value < bound.least { j } else { bound.next }
}

/// What is no more than the least without the next customer, and where customer j is another one, than the lesser of a
/// bound's least and of what a step to j adds.
fn other_of(bound: &Bound, j: u16, value: i64) -> i64
    ensures { let b = bound.now in
        ((j ≡ b.next) × (result ≡ b.other))
        ⊎ (((b.least ≤ℤ result) × (value ≤ℤ result)) × ((result ≡ b.least) ⊎ (result ≡ value))) }
{
    if j == bound.next {
        return bound.other;
    }
    greater(bound.least, value)
}

/// What bounds both what a bound does, and a step to customer j of this load and cost with what follows
/// on it.
fn joined(bound: Bound, j: u16, next: &Front, room: u16, least: i64) -> Bound
    requires bound { IsSmall bound }
    requires room { room ≤ MOST_CAPACITY }
    requires least { IsCut least }
    requires load { next.now.load ≤ MOST_CAPACITY }
    requires low { pos 0 ≤ℤ (next.now.cost +ℤ pos (most_grains * MOST_CAPACITY)) }
    requires high { next.now.cost ≤ℤ pos (most_grains * MOST_CAPACITY) }
    ensures { IsJoined bound j next.now.load next.now.cost room least result }
{
    let room = (next.load + u32::from(room)).min(u32::from(MOST_CAPACITY)) as u16;
    let value = added(next.cost, least);
    Bound {
        room: bound.room.max(room),
        next: next_of(&bound, j, value),
        least: lesser(bound.least, value),
        other: lesser(bound.other, other_of(&bound, j, value)),
    }
}

/// Whether a front may end, whatever is remembered.
fn can_end(task: &Task<'_>, front: &Front, rows: &CustomerSet) -> bool
    requires rows { IsAllowedRow task.now.region.now front.now.last rows.now }
    requires bounded { IsBounded task.now.instance.now front.now }
    ensures no { IsFalse result → ¬ CanEnd (pricing_of task.now) (bare_state front.now) }
{
    rows.contains(0) && front.is_back_in_time(task.instance)
}

/// What bounds the end at a front, with any load.
fn end_bound(task: &Task<'_>, front: &Front, rows: &CustomerSet) -> Bound
    requires rows { IsAllowedRow task.now.region.now front.now.last rows.now }
    requires bounded { IsBounded task.now.instance.now front.now }
    requires load { front.now.load ≡ 0 }
    requires cost { front.now.cost ≡ pos 0 }
    ensures { (d : ℕ) → IsEndBound (pricing_of task.now) front.now.last front.now.time d result }
{
    let mut least = MOST_PAID;
    if can_end(task, front, rows) {
        least = lesser(front.end_cost(task.instance), MOST_PAID);
    }
    Bound {
        room: 0,
        next: 0,
        least,
        other: least,
    }
}

/// The bounds of a grid, as far as they stand.
#[derive(Drop)]
struct Filled<'f, 'i> {
    task: &'f Task<'i>,
    grid: Grid<'f>,
    bounds: &'f [RowBound],
    brinks: &'f [Brink],
    ghost at_rows: { All (IsRowBound (pricing_of task.now)) bounds.now },
    ghost at_brinks: { All (IsBrink (pricing_of task.now)) brinks.now },
}

/// What bounds a step, too, for which a front is in time, where it has at least this load.
#[inline(always)]
fn with_step(filled: &Filled<'_, '_>, front: &Front, load: u32, step: &Step, bound: Bound) -> Bound
    requires bounded { IsBounded filled.now.task.now.instance.now front.now }
    requires empty { front.now.load ≡ 0 }
    requires cost { front.now.cost ≡ pos 0 }
    requires load { load ≤ MOST_CAPACITY }
    requires step { IsOpenStep (pricing_of filled.now.task.now) front.now.last step.now }
    requires soon { front.now.time ≤ step.now.latest }
    requires small { IsSmall bound }
    ensures { let f = front.now in
        IsBoundWith (pricing_of filled.now.task.now) f.last f.time load step.now.customer bound result }
{
    let task = filled.task;
    let next = task.after(front, step);
    if is_low_enough(task, filled.brinks, &next, step, &bound) {
        return bound;
    }
    let load = load + u32::from(step.demand);
    if load > u32::from(task.instance.capacity()) {
        return bound;
    }
    let place = filled.grid.place_after(step, next.time, load);
    let on = bound_in(task, filled.bounds, place, step.customer, next.time, load);
    let least = least_onward(task, on, front.last, step, next.time, load);
    joined(bound, step.customer, &next, on.room, least)
}

/// What bounds the end at a front, as another bound does, and is no more than a seed.
fn with_seed(task: &Task<'_>, front: &Front, end: Bound, seed: Bound) -> Bound
    requires end { (d : ℕ) → IsEndBound (pricing_of task.now) front.now.last front.now.time d end }
    requires seed { IsSmall seed }
    ensures { (d : ℕ) → IsEndBound (pricing_of task.now) front.now.last front.now.time d result }
{
    Bound {
        room: seed.room,
        next: next_of(&seed, 0, end.least),
        least: lesser(seed.least, end.least),
        other: lesser(seed.other, end.least),
    }
}

/// What bounds all that may follow from a row from there on, and how many customers were looked at.
fn bound_from(filled: &Filled<'_, '_>, v: u16, corner: Corner, seed: Bound) -> (Bound, u64)
    requires seed { IsSmall seed }
    requires v { v < length filled.now.task.now.instance.now.rows }
    requires from { corner.from ≤ 20 * MOST_TIME }
    requires load { corner.load ≤ MOST_CAPACITY }
    ensures { IsBound (pricing_of filled.now.task.now) v corner.from corner.load result.0 }
{
    let task = filled.task;
    task.instance.law_of_limits();
    let rows = task.rows_from(v);
    let front = Front {
        last: v,
        time: u64::from(corner.from),
        load: 0,
        cost: 0,
    };
    let load = u32::from(corner.load);
    let end = end_bound(task, &front, rows);
    let mut bound = with_seed(task, &front, end, seed);
    let mut work: u64 = 0;
    for step in task.steps_from(v) {
        if step.is_late(front.time) {
            return (bound, work);
        }
        bound = with_step(filled, &front, load, step, bound);
        work = work.saturating_add(1);
    }
    (bound, work)
}

/// What the bound of a row begins as: what it is in the next slot, where that has a place, or what leaves nothing out.
/// Any bound serves. The task is named by the contract alone.
fn seed_at(_task: &Task<'_>, bounds: &[RowBound], later: Option<usize>, v: u16) -> Bound
    requires { All (IsRowBound (pricing_of _task.now)) bounds.now }
    ensures { IsSmall result }
{
    if let Some(place) = later {
        if place < bounds.len() && bounds[place].row == v {
            return bounds[place].bound;
        }
    }
    Bound {
        room: 0,
        next: 0,
        least: MOST_PAID,
        other: MOST_PAID,
    }
}

/// Notes what follows on a visit of a row that ends at the corner or later, if it bounds each load. The task is named
/// by the contract alone.
fn note(_task: &Task<'_>, brinks: &mut [Brink], bound: &Bound, v: u16, corner: Corner)
    requires brinks { All (IsBrink (pricing_of _task.now)) brinks.old }
    requires bound { IsBound (pricing_of _task.now) v corner.from corner.load bound.now }
    ensures { All (IsBrink (pricing_of _task.now)) brinks.new }
{
    let row = usize::from(v);
    if corner.load > 0 || row >= brinks.len() {
        return;
    }
    brinks[row] = Brink {
        least: bound.least,
        from: corner.from,
        row: v,
        room: bound.room,
    };
}

/// Puts in the bounds of a customer in a slot, if it has some, and says how many customers were looked at.
fn fill_at(
    task: &Task<'_>,
    grid: Grid<'_>,
    bounds: &mut [RowBound],
    brinks: &mut [Brink],
    v: u16,
    slot: u32,
) -> u64
    requires bounds { All (IsRowBound (pricing_of task.now)) bounds.old }
    requires brinks { All (IsBrink (pricing_of task.now)) brinks.old }
    requires v { v < length task.now.instance.now.rows }
    ensures bounds { All (IsRowBound (pricing_of task.now)) bounds.new }
    ensures brinks { All (IsBrink (pricing_of task.now)) brinks.new }
{
    let Some(corner) = grid.corner(v, slot) else {
        return 0;
    };
    let place = grid.place(v, u64::from(corner.from), u32::from(corner.load));
    let seed = seed_at(task, bounds, grid.later(place), v);
    let filled = Filled {
        task,
        grid,
        bounds,
        brinks,
    };
    let (bound, work) = bound_from(&filled, v, corner, seed);
    note(task, brinks, &bound, v, corner);
    if place < bounds.len() {
        bounds[place] = RowBound {
            bound,
            from: corner.from,
            row: v,
            load: corner.load,
        };
    }
    work
}

/// Puts in the bounds of all customers in a slot, and says how many customers were looked at.
fn fill_slot(
    task: &Task<'_>,
    grid: Grid<'_>,
    bounds: &mut [RowBound],
    brinks: &mut [Brink],
    slot: u32,
) -> u64
    requires bounds { All (IsRowBound (pricing_of task.now)) bounds.old }
    requires brinks { All (IsBrink (pricing_of task.now)) brinks.old }
    ensures bounds { All (IsRowBound (pricing_of task.now)) bounds.new }
    ensures brinks { All (IsBrink (pricing_of task.now)) brinks.new }
{
    let mut work: u64 = 0;
    for v in 1..task.instance.customer_count() + 1 {
        work = work.saturating_add(fill_at(task, grid, bounds, brinks, v, slot));
    }
    work
}

/// Puts in all bounds, those of the last slot first, and says how many customers were looked at.
fn fill(task: &Task<'_>, grid: Grid<'_>, bounds: &mut [RowBound], brinks: &mut [Brink]) -> u64
    requires bounds { All (IsRowBound (pricing_of task.now)) bounds.old }
    requires brinks { All (IsBrink (pricing_of task.now)) brinks.old }
    ensures { All (IsRowBound (pricing_of task.now)) bounds.new }
{
    let last = grid.last();
    let mut work: u64 = 0;
    for past in 0..last.saturating_add(1) {
        let slot = last.saturating_sub(past);
        work = work.saturating_add(fill_slot(task, grid, bounds, brinks, slot));
    }
    work
}

/// The bounds of a grid, and how many customers were looked at for them.
fn bounds_of(task: &Task<'_>, grid: Grid<'_>) -> Result<(Vec<RowBound>, u64), AllocError>
    ensures { IfOk result (λ b. All (IsRowBound (pricing_of task.now)) b.0.items) }
{
    let bound = unknown(task);
    let unseen = Brink {
        least: bound.least,
        from: 0,
        row: 0,
        room: bound.room,
    };
    let nothing = RowBound {
        bound,
        from: 0,
        row: 0,
        load: 0,
    };
    let mut bounds = vec![in task.alloc; nothing; grid.count(task.instance)]?;
    let mut brinks = vec![in task.alloc; unseen; grid.noted(task.instance)]?;
    let work = fill(task, grid, bounds.as_mut_slice(), brinks.as_mut_slice());
    Ok((bounds, work))
}

/// The slots of load of a task, if bounds for them pay: where an earlier search was this much work, and few
/// customers fit a vehicle.
fn loads_for(task: &Task<'_>, work: u64) -> Option<Loads> {
    let loads = Loads::new(task.instance);
    let customers = u64::from(task.instance.customer_count());
    let filling = customers
        .saturating_mul(customers)
        .saturating_mul(u64::from(loads.count()));
    (loads.count() <= MOST_LOADS && work > filling).then_some(loads)
}

/// Bounds on what may follow from each row at each time, and where those pay, with each load.
#[derive(Drop)]
pub struct Completions<'t, 'i> {
    /// What they are the bounds of.
    pub task: &'t Task<'i>,
    by_time: Vec<RowBound>,
    by_load: Vec<RowBound>,
    loads: Option<Loads>,
    parts: Vec<Part>,
    work: u64,
    ghost at_parts: { All (IsPart (pricing_of task.now)) parts.items },
    ghost at_times: { All (IsRowBound (pricing_of task.now)) by_time.items },
    ghost at_loads: { All (IsRowBound (pricing_of task.now)) by_load.items },
}

impl<'t, 'i> Completions<'t, 'i> {
    /// Bounds that hold of anything.
    pub fn unknown(task: &'t Task<'i>) -> Completions<'t, 'i>
        ensures { result.task.now ≡ task.now }
    {
        Completions {
            task,
            by_time: Vec::new(task.alloc),
            by_load: Vec::new(task.alloc),
            loads: None,
            parts: Vec::new(task.alloc),
            work: 0,
        }
    }

    /// The bounds of a task, after a search that was this much work.
    pub fn new(task: &'t Task<'i>, work: u64) -> Result<Completions<'t, 'i>, AllocError>
        ensures { IfOk result (λ c. c.task.now ≡ task.now) }
    {
        let (by_time, time_work) = bounds_of(task, Grid::Times(task.slots))?;
        let loads = loads_for(task, work);
        let (by_load, load_work) = match loads {
            Some(loads) => bounds_of(task, Grid::Loads(task.slots, loads))?,
            None => (Vec::new(task.alloc), 0),
        };
        let parts = parts_of(task, by_time.as_slice())?;
        Ok(Completions {
            task,
            by_time,
            by_load,
            loads,
            parts,
            work: time_work.saturating_add(load_work),
        })
    }

    /// How many customers were looked at for them. No contract: it only measures.
    pub fn work(&self) -> u64 {
        self.work
    }

    /// What bounds all that may follow from a row at a time, in tenths, with any load.
    pub fn at(&self, v: u16, time: u64) -> Bound
        ensures { (d : ℕ) → IsBound (pricing_of self.now.task.now) v time d result }
    {
        let place = self.task.slots.place(v, time);
        bound_in(self.task, self.by_time.as_slice(), place, v, time, 0)
    }

    /// The least that what follows on a visit of each row adds, where the visit ends at a time, in tenths, or later;
    /// nothing where it isn't known.
    pub fn leasts_from(&self, time: u64) -> &[i64]
        ensures { AreVisitBounds (pricing_of self.now.task.now) time result.now }
    {
        let number = time / part_length(self.task).max(1);
        match self.parts.get(number as usize) {
            Some(part) if part.from <= time => part.leasts.as_slice(),
            _ => &[],
        }
    }

    /// What bounds all that may follow from a row at a time, in tenths, with a load, if there are bounds by load.
    pub fn at_load(&self, v: u16, time: u64, load: u32) -> Option<Bound>
        ensures { IfSome result (IsBound (pricing_of self.now.task.now) v time load) }
    {
        let loads = self.loads?;
        let place = Grid::Loads(self.task.slots, loads).place(v, time, load);
        Some(bound_in(self.task, self.by_load.as_slice(), place, v, time, load))
    }
}
