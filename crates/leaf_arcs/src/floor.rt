//! Floors: at most what anything that may follow adds (the completion bounds of Christofides, Mingozzi
//! and Toth 1981, at the times of windows or at loads), by a table from the latest time, or the greatest
//! load, back.

ghost use Rattle.std.specs.Prelude.{◌≡◌, ◌+◌, ◌*◌, ◌<◌, ◌≤◌, max, length, IfOk, IfSome, ◌≤ℤ◌};
ghost use Rattle.std.specs.List.{All};
ghost use Rattle.solomon_reader.specs.declared.limits.TheConstants.{MOST_CAPACITY, MOST_TIME};
ghost use Rattle.leaf_arcs.specs.Arcs.{IsAllowedArc, IsArcRow, AreArcRows};
ghost use Rattle.leaf_arcs.specs.Floors.{IsFloor, IsEndFloor, IsStepFloor, IsKnown, IsJoinedIn, IsAt, IsJoined};
ghost use Rattle.leaf_arcs.specs.Leaves.{problem_of, pricing_of};

use crate::arcs::{AllowedArc, ArcRow};
use crate::bits::NO_BIT;
use crate::leaf::Leaf;
use crate::slots::{Slots, Start};
use solomon_reader::{MOST_CAPACITY, MOST_TIME};
use std::alloc::{AllocError, Global};

/// The floor where nothing may follow, in grains: above all reduced costs together.
const NOTHING: i64 = 4_000_000_000_000_000_000;

/// What may follow from a row at a time or later and a load or more adds at least this much. Of what is
/// remembered a floor sees only that a route doesn't come back to a customer at once.
#[derive(Clone, Copy)]
pub struct Floor {
    /// The row.
    pub row: u16,
    /// When a vehicle leaves the row, in tenths.
    pub from: u32,
    /// What is loaded then.
    pub loaded: u16,
    /// What is added at least, in grains.
    pub least: i64,
    /// The next customer of what adds the least; 0 for the way home.
    pub next: u16,
    /// What is added at least where that customer isn't the next one.
    pub other: i64,
}

/// The floor at a place, if one is known there that holds of a row at a time and a load.
pub(crate) fn floor_at(
    leaf: &Leaf<'_, '_>,
    floors: &[Option<Floor>],
    place: usize,
    v: u16,
    time: u64,
    load: usize,
) -> Option<Floor>
    requires { All (IsKnown (pricing_of leaf.now)) floors.now }
    ensures { IfSome result (λ f. IsFloor (pricing_of leaf.now) v time load f) }
{
    if place >= floors.len() {
        return None;
    }
    let found = floors[place]?;
    if found.row != v || u64::from(found.from) > time || usize::from(found.loaded) > load {
        return None;
    }
    Some(found)
}

/// The floor of a row from a start on, where only the way home follows.
fn end_floor(leaf: &Leaf<'_, '_>, arcs: &ArcRow, start: &Start) -> Floor
    requires row { start.now.row < length (problem_of leaf.now).rows }
    requires arcs { IsArcRow (pricing_of leaf.now) start.now.row arcs.now }
    requires from { start.now.from ≤ 20 * MOST_TIME }
    requires load { start.now.loaded ≤ MOST_CAPACITY }
    ensures place { IsAt start.now.row start.now.from start.now.loaded result }
    ensures ordered { result.least ≤ℤ result.other }
    ensures ends { IsEndFloor (pricing_of leaf.now) start.now.row start.now.from result.other }
{
    let network = leaf.network;
    let mut least = NOTHING;
    if arcs.ends && start.from + arcs.back <= network.neighbours.instance.due(0) {
        let grains = 1000 * arcs.back;
        least = grains as i64;
    }
    Floor {
        row: start.row,
        from: start.from as u32,
        loaded: start.loaded as u16,
        least,
        next: 0,
        other: least,
    }
}

/// What a step from where a floor is over an arc adds, with what may follow on it, where another floor
/// holds then. A route goes back to the row at once only where the customer's neighbour list doesn't hold
/// it.
fn step_value(leaf: &Leaf<'_, '_>, arc: &AllowedArc, after: &Floor, floor: &Floor) -> Option<i64>
    requires row { floor.now.row < length (problem_of leaf.now).rows }
    requires arc { IsAllowedArc (pricing_of leaf.now) floor.now.row arc.now }
    requires after { let f = floor.now in
        IsFloor (pricing_of leaf.now) arc.now.to (max (f.from + arc.now.travel) arc.now.ready + arc.now.service)
        (f.loaded + arc.now.demand) after.now }
    ensures { let f = floor.now in
        IfSome result (λ h. IsStepFloor (pricing_of leaf.now) f.row f.from f.loaded arc.now.to h) }
{
    let row = floor.row;
    if after.next == row && leaf.network.neighbours.bit(arc.to, row) < NO_BIT {
        let value = arc.value.checked_add(after.other)?;
        return Some(value);
    }
    let value = arc.value.checked_add(after.least)?;
    Some(value)
}

/// Lets a floor say of a step to a customer, too, that it adds at least this much.
fn join(floor: &mut Floor, to: u16, value: i64)
    ensures place { IsAt floor.old.row floor.old.from floor.old.loaded floor.new }
    ensures joined { IsJoined floor.old to value floor.new }
{
    if value < floor.least {
        floor.other = floor.least;
        floor.least = value;
        floor.next = to;
    } else if value < floor.other {
        floor.other = value;
    }
}

/// Lets a floor hold for a step over an arc, too.
fn join_step(
    leaf: &Leaf<'_, '_>,
    slots: &Slots,
    floors: &[Option<Floor>],
    arc: &AllowedArc,
    floor: &mut Floor,
) -> Option<()>
    requires floors { All (IsKnown (pricing_of leaf.now)) floors.now }
    requires row { floor.old.row < length (problem_of leaf.now).rows }
    requires from { floor.old.from ≤ 20 * MOST_TIME }
    requires load { floor.old.loaded ≤ MOST_CAPACITY }
    requires arc { IsAllowedArc (pricing_of leaf.now) floor.old.row arc.now }
    ensures place { IfSome result
        (λ _. IsAt floor.old.row floor.old.from floor.old.loaded floor.new) }
    ensures joined { IfSome result
        (λ _. IsJoinedIn (pricing_of leaf.now) floor.old arc.now.to floor.new) }
{
    let begins = (u64::from(floor.from) + arc.travel).max(arc.ready);
    if begins > arc.due {
        return Some(());
    }
    let network = leaf.network;
    let load = usize::from(floor.loaded) + usize::from(arc.demand);
    if load > usize::from(network.neighbours.instance.capacity()) {
        return Some(());
    }
    let time = begins + arc.service;
    let place = slots.place(arc.to, time, load);
    let after = floor_at(leaf, floors, place, arc.to, time, load)?;
    let value = step_value(leaf, arc, &after, floor)?;
    join(floor, arc.to, value);
    Some(())
}

/// The floor of a row from a start on, where those of later slots are known.
fn floor_from(
    leaf: &Leaf<'_, '_>,
    slots: &Slots,
    floors: &[Option<Floor>],
    arcs: &ArcRow,
    start: &Start,
) -> Option<Floor>
    requires floors { All (IsKnown (pricing_of leaf.now)) floors.now }
    requires row { start.now.row < length (problem_of leaf.now).rows }
    requires arcs { IsArcRow (pricing_of leaf.now) start.now.row arcs.now }
    requires begun { arcs.now.earliest ≤ start.now.from }
    requires from { start.now.from ≤ 20 * MOST_TIME }
    requires load { start.now.loaded ≤ MOST_CAPACITY }
    ensures { IfSome result (λ f. IsFloor (pricing_of leaf.now) f.row f.from f.loaded f) }
{
    let mut floor = end_floor(leaf, arcs, start);
    for arc in arcs.arcs.as_slice() {
        join_step(leaf, slots, floors, arc, &mut floor)?;
    }
    Some(floor)
}

/// Puts in the floor of a slot.
fn fill_at(
    leaf: &Leaf<'_, '_>,
    rows: &[ArcRow],
    slots: &Slots,
    floors: &mut [Option<Floor>],
    start: &Start,
)
    requires rows { AreArcRows (pricing_of leaf.now) rows.now }
    requires floors { All (IsKnown (pricing_of leaf.now)) floors.old }
    ensures { All (IsKnown (pricing_of leaf.now)) floors.new }
{
    let row = usize::from(start.row);
    let place = slots.place(start.row, start.from, start.loaded);
    if row >= rows.len() || place >= floors.len() || start.loaded > usize::from(MOST_CAPACITY) {
        return;
    }
    let arcs = &rows[row];
    if start.from < arcs.earliest || start.from > u64::from(20 * MOST_TIME) {
        return;
    }
    let floor = floor_from(leaf, slots, floors, arcs, start);
    floors[place] = floor;
}

/// Puts in the floors of all slots, those of the latest first.
fn fill(leaf: &Leaf<'_, '_>, rows: &[ArcRow], slots: &Slots, floors: &mut [Option<Floor>])
    requires rows { AreArcRows (pricing_of leaf.now) rows.now }
    requires floors { All (IsKnown (pricing_of leaf.now)) floors.old }
    ensures { All (IsKnown (pricing_of leaf.now)) floors.new }
{
    for start in slots.starts.as_slice() {
        fill_at(leaf, rows, slots, floors, start);
    }
}

/// The floors of a leaf for slots of time or load.
pub(crate) fn floors_of(
    alloc: Global,
    leaf: &Leaf<'_, '_>,
    rows: &[ArcRow],
    slots: &Slots,
) -> Result<Vec<Option<Floor>>, AllocError>
    requires { AreArcRows (pricing_of leaf.now) rows.now }
    ensures { IfOk result (λ floors. All (IsKnown (pricing_of leaf.now)) floors.items) }
{
    let mut floors = vec![in alloc; None; slots.places]?;
    fill(leaf, rows, slots, floors.as_mut_slice());
    Ok(floors)
}
