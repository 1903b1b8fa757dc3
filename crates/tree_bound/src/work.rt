//! The least reduced cost of a leaf, by a table over last customer, load and memory.

ghost use Rattle.std.specs.Prelude.{◌≡◌, ◌+◌, ◌<◌, length, [], true, List, IfOk, IsTrue, IsFalse};
ghost use Rattle.solomon_reader.specs.States.{start, IsSameState};
ghost use Rattle.leaf_arcs.specs.Leaves.{pricing_of};
ghost use Rattle.tree_bound.specs.Labels.{state_of, IsLabel, IsTable, AreLabels};
ghost use Rattle.tree_bound.specs.Steps.{IsDone, IsPassed};
ghost use Rattle.tree_bound.specs.Leaves.{IsWorkedIn, IsSweptIn, IsLeastBelowIn};
ghost use Rattle.tree_bound.specs.declared.label.Label.{Label};

use crate::bucket::Bucket;
use crate::fault::BoundFault;
use crate::label::Label;
use crate::steps::{close_route, is_dear, take_steps};
use crate::table::{Table, empty_table, settle};
use leaf_arcs::{Leaf, Task};
use row_charges::RowBits;
use std::alloc::Global;
use std::mem;

/// Finer floors are made once as many labels stand as a part of their slots, one in this many.
const SLOTS_A_LABEL: usize = 4;

/// Coarser floors are made for the next leaf where fewer labels stood than one in this many slots.
const SLOTS_A_FEW: usize = 32;

/// The least reduced cost of a leaf, and how fine floors of the next one are to be.
#[derive(Clone, Copy)]
pub(crate) struct LeastCost {
    pub(crate) cost: Option<i64>,
    pub(crate) level: usize,
}

/// Works a label: counts the route that ends there, and takes its steps.
fn work_label(
    task: &Task<'_, '_>,
    table: &mut Table,
    load: usize,
    label: &Label,
    best: Option<i64>,
) -> Result<Option<i64>, BoundFault>
    requires table { IsTable (pricing_of task.now.leaf) table.old.buckets.items (load + 1) }
    requires label { IsLabel (pricing_of task.now.leaf) load label.now }
    ensures { let q = pricing_of task.now.leaf in
        IfOk result (λ after. IsDone q table.old.buckets.items table.new.buckets.items
        load label.now best after) }
{
    let row = &task.rows[label.customer as usize];
    let after = close_route(&task.leaf, row, load, label, best);
    take_steps(task, table, load, label, row.arcs.as_slice(), after)?;
    Ok(after)
}

/// Whether a label has to be worked: it stands, no settled one dominates it, and what may come after it
/// isn't dear.
fn is_open(
    task: &Task<'_, '_>,
    settled: &Bucket,
    load: usize,
    label: &Label,
    best: Option<i64>,
) -> bool
    ensures open { IsTrue result → label.now.active ≡ true }
    ensures passed { let q = pricing_of task.now.leaf in
        IsFalse result → IsPassed q best settled.now load label.now }
{
    label.active && !settled.dominates(task.leaf.rows, label) && !is_dear(task, load, label, best)
}

/// Works the labels of a load.
fn work_labels(
    task: &Task<'_, '_>,
    table: &mut Table,
    settled: &mut Bucket,
    load: usize,
    labels: &[Label],
    best: Option<i64>,
) -> Result<Option<i64>, BoundFault>
    requires labels { AreLabels (pricing_of task.now.leaf) load labels.now }
    requires begun { IsWorkedIn task.now table.old.buckets.items settled.old load labels.now 0 best }
    ensures { IfOk result (λ after. IsWorkedIn task.now table.new.buckets.items settled.new load labels.now (length labels.now) after) }
{
    let mut best = best;
    for label in labels {
        if is_open(task, settled, load, label, best) {
            best = work_label(task, table, load, label, best)?;
            settle(table, task.leaf.rows, settled, label)?;
        } else {
            table.standing = table.standing.saturating_sub(usize::from(label.active));
        }
    }
    Ok(best)
}

/// Takes the labels of a load out and works them. Each goes on counting as a settled one, or no longer
/// where a settled one dominates it or it is dear now.
fn work_load(
    task: &Task<'_, '_>,
    table: &mut Table,
    settled: &mut Bucket,
    load: usize,
    best: Option<i64>,
) -> Result<Option<i64>, BoundFault>
    requires load { load < length table.old.buckets.items }
    requires swept { IsSweptIn task.now table.old.buckets.items settled.old load best }
    ensures { IfOk result (λ after. IsSweptIn task.now table.new.buckets.items settled.new
        (load + 1) after) }
{
    let bucket = mem::replace(&mut table.buckets[load], Bucket::new(table.alloc));
    let after = work_labels(task, table, settled, load, bucket.labels(), best)?;
    Ok(after)
}

/// Adds finer floors, if there are any, where many labels stand.
fn refine(alloc: Global, task: &mut Task<'_, '_>, standing: usize) -> Result<(), BoundFault>
    ensures leaf { task.new.leaf ≡ task.old.leaf }
    ensures limit { task.new.limit ≡ task.old.limit }
{
    let network = task.leaf.network;
    let finer = task.level.saturating_add(1);
    let slots = network.slot_count(finer);
    if slots > 0 && standing >= slots / SLOTS_A_LABEL {
        task.add_floors(alloc, finer)?;
    }
    Ok(())
}

/// Works all loads from 1 on, the lowest first, so that what is settled is of no greater load than what
/// remains, and what it dominates needn't be worked.
fn sweep(
    task: &mut Task<'_, '_>,
    table: &mut Table,
    best: Option<i64>,
) -> Result<Option<i64>, BoundFault>
    requires { IsSweptIn task.old table.old.buckets.items [] 1 best }
    ensures { let all = table.new.buckets.items in
        IfOk result (λ after. (settled : List Label)
        × IsSweptIn task.old all settled (length all) after) }
{
    let mut settled = Bucket::new(table.alloc);
    let mut best = best;
    for load in 1..table.buckets.len() {
        refine(table.alloc, task, table.standing)?;
        best = work_load(task, table, &mut settled, load, best)?;
    }
    Ok(best)
}

/// The empty beginning at the depot, which the table doesn't keep.
pub(crate) fn beginning(leaf: &Leaf<'_, '_>) -> Label
    ensures same { let q = pricing_of leaf.now in
        IsSameState (state_of q 0 result) (start q) }
    ensures label { IsLabel (pricing_of leaf.now) 0 result }
    ensures active { result.active ≡ true }
{
    let network = leaf.network;
    let instance = network.neighbours.instance;
    instance.law_of_limits();
    Label {
        customer: 0,
        memory: 0,
        time: instance.ready(0),
        cost: 0,
        bits: RowBits::none(),
        active: true,
    }
}

/// The least reduced cost over all relaxed routes of a task in grains; its limit, if there is one, where no
/// route costs less.
pub(crate) fn least(
    alloc: Global,
    task: &mut Task<'_, '_>,
    state_limit: usize,
) -> Result<LeastCost, BoundFault>
    ensures { IfOk result (λ found. IsLeastBelowIn task.old found.cost) }
{
    let network = task.leaf.network;
    let capacity = network.neighbours.instance.capacity();
    let mut table = empty_table(alloc, capacity, state_limit)?;
    let start = beginning(&task.leaf);
    let best = work_label(task, &mut table, 0, &start, task.limit)?;
    let cost = sweep(task, &mut table, best)?;
    let are_few = table.standing < network.slot_count(task.level) / SLOTS_A_FEW;
    let level = task.level.saturating_sub(usize::from(are_few));
    Ok(LeastCost { cost, level })
}
