//! The stops beside the places of a route, and what a change of them changes of the cost.

ghost use Rattle.std.specs.Prelude.{◌≡◌, ◌≤◌, length, slice_index_or, take, pos, ◌≤ℤ◌};
ghost use Rattle.solomon_reader.specs.declared.limits.TheConstants.{MOST_DISTANCE};
ghost use Rattle.solomon_reader.specs.Problem.{customer_count};
ghost use Rattle.solomon_reader.specs.Distance.{distance};
ghost use Rattle.solomon_reader.specs.Moves.{route};
ghost use Rattle.segments.specs.Segments.{last_from};
ghost use Rattle.moves.specs.Trees.{visits_of, AreOfPlan};
ghost use Rattle.moves.specs.Flanks.{customers_of, flanks_of, AreKnownFlanks, ends_change, leaving_change, entering_change, IsSmall};

use segments::{PlanTrees, Segment};
use solomon_reader::Instance;

/// The stops beside a place of a route, its flanks. The depot, 0, stands before the first stop and behind
/// the last.
#[derive(Clone, Copy)]
pub struct Flanks {
    pub before: u16,
    pub behind: u16,
}

/// The stops of a route; the new route behind the last has none.
pub fn stops_of<'a>(trees: &'a PlanTrees<'_>, number: u16) -> &'a [Segment]
    requires { AreOfPlan trees.now }
    ensures { customers_of result.now ≡ route (visits_of trees.now) number }
{
    let number = usize::from(number);
    if number < trees.count() {
        trees.route(number).items()
    } else {
        &[]
    }
}

/// The stop at a position, and the depot behind the last.
#[inline(always)]
fn stop_at(stops: &[Segment], position: usize) -> u16
    ensures { result ≡ slice_index_or (customers_of stops.now) position 0 }
{
    match stops.get(position) {
        Some(stop) => stop.first(),
        None => 0,
    }
}

/// The stop before a position, and the depot before the first.
#[inline(always)]
fn stop_before(stops: &[Segment], position: usize) -> u16
    requires { position ≤ length stops.now }
    ensures { result ≡ last_from 0 (take position (customers_of stops.now)) }
{
    if position == 0 {
        return 0;
    }
    stop_at(stops, position - 1)
}

/// The flanks of the place of a route behind this many stops.
#[inline(always)]
pub fn flanks_at(stops: &[Segment], position: usize) -> Flanks
    requires { position ≤ length stops.now }
    ensures { result ≡ flanks_of (customers_of stops.now) position }
{
    Flanks {
        before: stop_before(stops, position),
        behind: stop_at(stops, position),
    }
}

/// The cost of an arc, in tenths.
#[inline(always)]
fn arc(instance: &Instance, from: u16, to: u16) -> i64
    requires from { from ≤ customer_count instance.now }
    requires to { to ≤ customer_count instance.now }
    ensures value { result ≡ pos (distance instance.now from to) }
    ensures bound { result ≤ℤ pos MOST_DISTANCE }
{
    instance.law_of_limits();
    instance.distance(from, to).get() as i64
}

/// By how many tenths the cost changes where what stands behind two places is exchanged.
#[inline(always)]
pub fn change_of_ends(instance: &Instance, one: Flanks, other: Flanks) -> i64
    requires one { AreKnownFlanks instance.now one }
    requires other { AreKnownFlanks instance.now other }
    ensures value { result ≡ ends_change instance.now one other }
    ensures small { IsSmall result }
{
    let new = arc(instance, one.before, other.behind) + arc(instance, other.before, one.behind);
    new - (arc(instance, one.before, one.behind) + arc(instance, other.before, other.behind))
}

/// By how many tenths the cost changes where a chain leaves its route, from the place in front of it to the one
/// behind it.
#[inline(always)]
pub fn change_of_leaving(instance: &Instance, front: Flanks, rear: Flanks) -> i64
    requires front { AreKnownFlanks instance.now front }
    requires rear { AreKnownFlanks instance.now rear }
    ensures value { result ≡ leaving_change instance.now front rear }
    ensures small { IsSmall result }
{
    let new = arc(instance, front.before, rear.behind);
    new - (arc(instance, front.before, front.behind) + arc(instance, rear.before, rear.behind))
}

/// By how many tenths the cost changes where a chain, between the places at its ends, goes into another place.
#[inline(always)]
pub fn change_of_entering(instance: &Instance, front: Flanks, rear: Flanks, place: Flanks) -> i64
    requires front { AreKnownFlanks instance.now front }
    requires rear { AreKnownFlanks instance.now rear }
    requires place { AreKnownFlanks instance.now place }
    ensures value { result ≡ entering_change instance.now front rear place }
    ensures small { IsSmall result }
{
    let new = arc(instance, place.before, front.behind) + arc(instance, rear.before, place.behind);
    new - arc(instance, place.before, place.behind)
}
