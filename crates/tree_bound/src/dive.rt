//! A route of low reduced cost, before the table is worked.

ghost use Rattle.std.specs.Prelude.{None};
ghost use Rattle.leaf_arcs.specs.Arcs.{IsAllowedArc, AreAllowedArcs};
ghost use Rattle.leaf_arcs.specs.Leaves.{problem_of, pricing_of};
ghost use Rattle.tree_bound.specs.Cover.{IsFound};
ghost use Rattle.tree_bound.specs.Labels.{IsBounded};

use crate::label::Label;
use crate::steps::{can_extend, close_route, extend, floor_of, is_dear};
use crate::work::beginning;
use leaf_arcs::{AllowedArc, Task};

/// About what a route costs that goes on from a label over an arc, if it may: the floor, or the step alone.
/// Nothing is said of it.
fn promise(task: &Task<'_, '_>, load: usize, label: &Label, arc: &AllowedArc) -> Option<i64>
    requires bounded { IsBounded (problem_of task.now.leaf) load label.now }
    requires arc { IsAllowedArc (pricing_of task.now.leaf) label.now.customer arc.now }
{
    if !can_extend(&task.leaf, load, label, arc) {
        return None;
    }
    let longer = extend(&task.leaf, load, label, arc);
    let load = load + usize::from(arc.demand);
    let floor = task.floor_at(longer.customer, longer.time, load);
    let more = floor_of(task, floor, load, &longer);
    Some(longer.cost.saturating_add(more.unwrap_or(0)))
}

/// The place of the arc that promises the least, or the number of arcs.
fn promising(task: &Task<'_, '_>, load: usize, label: &Label, arcs: &[AllowedArc]) -> usize
    requires bounded { IsBounded (problem_of task.now.leaf) load label.now }
    requires arcs { AreAllowedArcs (pricing_of task.now.leaf) label.now.customer arcs.now }
{
    let mut least = i64::MAX;
    let mut found = arcs.len();
    for place in 0..arcs.len() {
        let cost = promise(task, load, label, &arcs[place]).unwrap_or(i64::MAX);
        if cost < least {
            least = cost;
            found = place;
        }
    }
    found
}

/// Follows a route along what promises the least: the least reduced cost, in grains, of the relaxed routes
/// that end where it passes, if one may.
pub(crate) fn dive(task: &Task<'_, '_>) -> Option<i64>
    ensures { IsFound (pricing_of task.now.leaf) None result }
{
    let leaf = &task.leaf;
    let mut label = beginning(leaf);
    let mut load: usize = 0;
    let mut best = None;
    for _stop in 0..task.rows.len().saturating_mul(2) {
        let arcs = task.rows[label.customer as usize].arcs.as_slice();
        let place = promising(task, load, &label, arcs);
        if is_dear(task, load, &label, best) || place >= arcs.len() {
            break;
        }
        let arc = &arcs[place];
        if !can_extend(leaf, load, &label, arc) {
            break;
        }
        label = extend(leaf, load, &label, arc);
        load += usize::from(arc.demand);
        let row = &task.rows[label.customer as usize];
        best = close_route(leaf, row, load, &label, best);
    }
    best
}
