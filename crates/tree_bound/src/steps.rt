//! The steps from a label.

ghost use Rattle.std.specs.Prelude.{◌≡◌, ◌↔◌, ℕ, ◌+◌, ◌*◌, ◌<◌, ◌≤◌, length, true, IfOk, IfSome, IsTrue, ℤ, ◌+ℤ◌, ◌≤ℤ◌};
ghost use Rattle.solomon_reader.specs.declared.limits.TheConstants.{MOST_TIME, MOST_PRICE};
ghost use Rattle.solomon_reader.specs.Problem.{demand};
ghost use Rattle.solomon_reader.specs.Region.{IsAllowed};
ghost use Rattle.solomon_reader.specs.SubsetRows.{charged_at, bits_after};
ghost use Rattle.solomon_reader.specs.States.{begins, step, IsAtMost};
ghost use Rattle.leaf_arcs.specs.Arcs.{IsAllowedArc, AreAllowedArcs, IsArcRow};
ghost use Rattle.leaf_arcs.specs.Floors.{IsFloor};
ghost use Rattle.leaf_arcs.specs.Leaves.{problem_of, region_in, rows_in, pricing_of};
ghost use Rattle.row_charges.specs.Bits.{bit_of};
ghost use Rattle.solomon_reader.specs.Covering.{IsDear};
ghost use Rattle.tree_bound.specs.Cover.{Adds};
ghost use Rattle.tree_bound.specs.Labels.{state_of, IsBounded, IsLabel, IsTable};
ghost use Rattle.tree_bound.specs.Steps.{route_value, CanExtend, IsExtension, TakesStep, TakesSteps, ClosesRoute};

use crate::fault::BoundFault;
use crate::label::Label;
use crate::table::{Table, keep};
use leaf_arcs::{AllowedArc, ArcRow, Floor, Leaf, Task, contains};
use row_charges::RowBits;

/// When service at a further customer begins, in tenths.
fn begins(leaf: &Leaf<'_, '_>, load: usize, label: &Label, arc: &AllowedArc) -> u64
    requires bounded { IsBounded (problem_of leaf.now) load label.now }
    requires arc { IsAllowedArc (pricing_of leaf.now) label.now.customer arc.now }
    ensures is { let q = pricing_of leaf.now in
        result ≡ begins (problem_of leaf.now) (state_of q load label.now) arc.now.to }
    ensures small { result ≤ 30 * MOST_TIME }
{
    (label.time + arc.travel).max(arc.ready)
}

/// Whether load, window and memory leave a step.
pub(crate) fn can_extend(leaf: &Leaf<'_, '_>, load: usize, label: &Label, arc: &AllowedArc) -> bool
    requires bounded { IsBounded (problem_of leaf.now) load label.now }
    requires arc { IsAllowedArc (pricing_of leaf.now) label.now.customer arc.now }
    ensures { IsTrue result ↔ CanExtend (pricing_of leaf.now) load label.now arc.now.to }
{
    let network = leaf.network;
    let capacity = usize::from(network.neighbours.instance.capacity());
    if load + usize::from(arc.demand) > capacity {
        return false;
    }
    if begins(leaf, load, label, arc) > arc.due {
        return false;
    }
    !contains(label.memory, arc.bit)
}

/// What a stop at a row of the instance costs, in grains, and the bits behind it. Where no row has a price, nothing
/// is looked up.
fn charged(leaf: &Leaf<'_, '_>, bits: RowBits, j: u16) -> (u64, RowBits)
    requires { j < length (problem_of leaf.now).rows }
    ensures is { result.0 ≡ charged_at (rows_in leaf.now) (bit_of bits) j }
    ensures low { result.0 ≤ MOST_PRICE }
    ensures bits { let q = pricing_of leaf.now in
        (i : ℕ) → bit_of result.1 i ≡ bits_after q.problem q.neighbours q.rows (bit_of bits) j i }
{
    let rows = leaf.rows;
    if rows.rows.is_empty() {
        return (0, RowBits::none());
    }
    (rows.charge(bits, j), rows.after(bits, j))
}

/// The label with one more stop.
pub(crate) fn extend(leaf: &Leaf<'_, '_>, load: usize, label: &Label, arc: &AllowedArc) -> Label
    requires bounded { IsBounded (problem_of leaf.now) load label.now }
    requires arc { IsAllowedArc (pricing_of leaf.now) label.now.customer arc.now }
    requires can { CanExtend (pricing_of leaf.now) load label.now arc.now.to }
    ensures { let q = pricing_of leaf.now in
        IsExtension q load label.now (load + arc.now.demand) arc.now.to result }
{
    let network = leaf.network;
    let (charge, bits) = charged(leaf, label.bits, arc.to);
    Label {
        customer: arc.to,
        memory: network
            .neighbours
            .remember(label.customer, label.memory, arc.to),
        time: begins(leaf, load, label, arc) + arc.service,
        cost: label.cost + arc.value + charge as i64,
        bits,
        active: true,
    }
}

/// Whether the best so far is at most a cost with this much more.
fn is_dear_with(best: Option<i64>, cost: i64, more: i64) -> bool
    ensures { IsTrue result → (y : ℤ) → (cost +ℤ more) ≤ℤ y → IsAtMost best y }
{
    match (best, cost.checked_add(more)) {
        (Some(best), Some(least)) => best <= least,
        _ => false,
    }
}

/// What anything that may come after a label adds at least, where a floor is known.
pub(crate) fn floor_of(
    task: &Task<'_, '_>,
    floor: Option<Floor>,
    load: usize,
    label: &Label,
) -> Option<i64>
    requires { let q = pricing_of task.now.leaf in
        IfSome floor (λ f. IsFloor q label.now.customer label.now.time load f) }
    ensures { let q = pricing_of task.now.leaf in
        IfSome result (λ h. Adds q (state_of q load label.now) h) }
{
    let network = task.leaf.network;
    let (row, memory) = (label.customer, label.memory);
    let floor = floor?;
    if !network.neighbours.recalls(row, memory, row) {
        return None;
    }
    if network.neighbours.recalls(row, memory, floor.next) {
        return Some(floor.other);
    }
    Some(floor.least)
}

/// Whether all that may come after a label is dear: the floor says that it costs at least the best so far.
pub(crate) fn is_dear(task: &Task<'_, '_>, load: usize, label: &Label, best: Option<i64>) -> bool
    ensures { let q = pricing_of task.now.leaf in
        IsTrue result → IsDear q best (state_of q load label.now) }
{
    let by_time = task.floor_at(label.customer, label.time, load);
    if let Some(more) = floor_of(task, by_time, load, label) {
        if is_dear_with(best, label.cost, more) {
            return true;
        }
    }
    let by_both = task.near_floor_at(label.customer, label.time, load);
    match floor_of(task, by_both, load, label) {
        Some(more) => is_dear_with(best, label.cost, more),
        None => false,
    }
}

/// Whether all that may come after the step over an arc is dear, whatever is remembered and charged.
fn is_dear_step(
    task: &Task<'_, '_>,
    load: usize,
    label: &Label,
    arc: &AllowedArc,
    best: Option<i64>,
) -> bool
    requires bounded { IsBounded (problem_of task.now.leaf) load label.now }
    requires arc { IsAllowedArc (pricing_of task.now.leaf) label.now.customer arc.now }
    requires can { CanExtend (pricing_of task.now.leaf) load label.now arc.now.to }
    ensures { let q = pricing_of task.now.leaf in
        IsTrue result → IsDear q best (step q (state_of q load label.now) arc.now.to) }
{
    let time = begins(&task.leaf, load, label, arc) + arc.service;
    let load = load + usize::from(arc.demand);
    let cost = label.cost + arc.value;
    if let Some(floor) = task.floor_at(arc.to, time, load) {
        if is_dear_with(best, cost, floor.least) {
            return true;
        }
    }
    match task.near_floor_at(arc.to, time, load) {
        Some(floor) => is_dear_with(best, cost, floor.least),
        None => false,
    }
}

/// Takes the step from a label over an arc, unless all that may come after it is dear.
fn take_step(
    task: &Task<'_, '_>,
    table: &mut Table,
    load: usize,
    label: &Label,
    arc: &AllowedArc,
    best: Option<i64>,
) -> Result<(), BoundFault>
    requires table { IsTable (pricing_of task.now.leaf) table.old.buckets.items (load + 1) }
    requires label { IsLabel (pricing_of task.now.leaf) load label.now }
    requires arc { IsAllowedArc (pricing_of task.now.leaf) label.now.customer arc.now }
    requires allowed { IsAllowed (region_in task.now.leaf) (label.now.customer, arc.now.to) }
    ensures { let q = pricing_of task.now.leaf in
        IfOk result (λ _. TakesStep q best table.old.buckets.items table.new.buckets.items
        load label.now arc.now.to) }
{
    let leaf = &task.leaf;
    if !can_extend(leaf, load, label, arc) || is_dear_step(task, load, label, arc, best) {
        return Ok(());
    }
    let longer = extend(leaf, load, label, arc);
    let load = load + usize::from(arc.demand);
    if is_dear(task, load, &longer, best) {
        return Ok(());
    }
    keep(table, leaf.rows, load, &longer)?;
    Ok(())
}

/// Takes each step from a label.
pub(crate) fn take_steps(
    task: &Task<'_, '_>,
    table: &mut Table,
    load: usize,
    label: &Label,
    arcs: &[AllowedArc],
    best: Option<i64>,
) -> Result<(), BoundFault>
    requires table { IsTable (pricing_of task.now.leaf) table.old.buckets.items (load + 1) }
    requires label { IsLabel (pricing_of task.now.leaf) load label.now }
    requires arcs { AreAllowedArcs (pricing_of task.now.leaf) label.now.customer arcs.now }
    ensures { let q = pricing_of task.now.leaf in
        IfOk result (λ _. TakesSteps q best table.old.buckets.items table.new.buckets.items
        load label.now arcs.now (length arcs.now)) }
{
    for arc in arcs {
        take_step(task, table, load, label, arc, best)?;
    }
    Ok(())
}

/// The reduced cost of the route that ends at a label, in grains.
fn route_value(leaf: &Leaf<'_, '_>, row: &ArcRow, load: usize, label: &Label) -> i64
    requires bounded { IsBounded (problem_of leaf.now) load label.now }
    requires row { IsArcRow (pricing_of leaf.now) label.now.customer row.now }
    ensures { result ≡ route_value (problem_of leaf.now) label.now }
{
    let grains = 1000 * row.back;
    label.cost + grains as i64
}

/// The best after the return to the depot from a label.
pub(crate) fn close_route(
    leaf: &Leaf<'_, '_>,
    row: &ArcRow,
    load: usize,
    label: &Label,
    best: Option<i64>,
) -> Option<i64>
    requires bounded { IsBounded (problem_of leaf.now) load label.now }
    requires row { IsArcRow (pricing_of leaf.now) label.now.customer row.now }
    ensures { ClosesRoute (pricing_of leaf.now) load label.now best result }
{
    let network = leaf.network;
    let closing = network.neighbours.instance.due(0);
    if !row.ends || label.time + row.back > closing {
        return best;
    }
    let value = route_value(leaf, row, load, label);
    match best {
        Some(least) if least <= value => best,
        _ => Some(value),
    }
}
