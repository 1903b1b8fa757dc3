//! The best of the moves of a first chain into a route.

ghost use Rattle.std.specs.Prelude.{◌≡◌, ◌≢◌, ◌+◌, ◌≤◌, ◌<◌, ◌^◌, [], ◌∷◌, length, MatchOption};
ghost use Rattle.solomon_reader.specs.Moves.{route};
ghost use Rattle.segments.specs.PlanTrees.{problem_of};
ghost use Rattle.moves.specs.declared.candidate.Kind.TheVariants as kinds;
ghost use Rattle.moves.specs.Trees.{visits_of, AreOfPlan};
ghost use Rattle.moves.specs.Search.{IsFirstLength, IsBestInRange};
ghost use Rattle.moves.specs.Changes.{chain_at};
ghost use Rattle.moves.specs.Flanks.{flanks_of, ends_change, AreKnownFlanks, IsSmall, IsFirstChain};
ghost use Rattle.moves.specs.SecondRoutes.{IsSecondRoute, IsInto, IsShiftKind, IsChange, AreRears, AreSwapChanges, change_by, shift_change};

use crate::candidate::{Chain, Kind, Place};
use crate::choosing::{Found, best_of_one, limit_behind};
use crate::first_chain::FirstChain;
use crate::flanks::{Flanks, change_of_ends, change_of_entering, flanks_at, stops_of};
use crate::ranges::{second_lengths, second_positions};
use segments::{PlanTrees, Segment};

/// A route into which a move goes, with its stops.
#[derive(Clone, Copy)]
pub struct SecondRoute<'a> {
    pub route: u16,
    pub stops: &'a [Segment],
}

/// The changes of cost of swaps of a chain with one, two and three stops, in tenths.
#[derive(Clone, Copy)]
pub struct SwapChanges {
    pub one: i64,
    pub two: i64,
    pub three: i64,
}

impl SwapChanges {
    /// The change of a swap with this many stops.
    #[inline(always)]
    fn by(&self, length: u16) -> i64
        ensures { result ≡ change_by self.now length }
    {
        match length {
            1 => self.one,
            2 => self.two,
            _ => self.three,
        }
    }
}

/// By how many tenths the cost changes where a chain goes into a place of a route, or `None` where there is none
/// such.
#[inline(always)]
fn change_into_place(
    trees: &PlanTrees<'_>,
    kind: Kind,
    first: &FirstChain,
    second: &SecondRoute<'_>,
    position: usize,
) -> Option<i64>
    requires { IsInto trees.now kind first.now second.now }
    ensures { let r = route (visits_of trees.now) second.now.route in
        MatchOption result (length r < position) (λ v. (position ≤ length r)
        × (v ≡ shift_change (problem_of trees.now) first.now r position)) }
{
    if position > second.stops.len() {
        return None;
    }
    let place = flanks_at(second.stops, position);
    Some(first.leaving + change_of_entering(trees.instance(), first.front, first.rear, place))
}

/// By how many tenths the cost changes where a chain goes to a position of a route, or `None` where none leaves a
/// plan.
#[inline(always)]
fn change_of_shift(
    trees: &PlanTrees<'_>,
    kind: Kind,
    first: &FirstChain,
    second: &SecondRoute<'_>,
    position: u16,
) -> Option<i64>
    requires kind { IsShiftKind kind }
    requires into { IsInto trees.now kind first.now second.now }
    ensures { IsChange (problem_of trees.now) (visits_of trees.now) kind first.now.numbers
        (chain_at second.now.route position 0) result }
{
    let to = usize::from(position);
    if second.route != first.numbers.route {
        return change_into_place(trees, kind, first, second, to);
    }
    if position == first.numbers.position {
        return Some(0);
    }
    let before = if position < first.numbers.position {
        to
    } else {
        to + usize::from(first.taken)
    };
    change_into_place(trees, kind, first, second, before)
}

/// By how many tenths the cost changes where the ends behind two places are exchanged, or a small number where the
/// second place isn't there.
#[inline(always)]
fn change_at_place(
    trees: &PlanTrees<'_>,
    place: Flanks,
    second: &SecondRoute<'_>,
    position: usize,
) -> i64
    requires plan { AreOfPlan trees.now }
    requires place { AreKnownFlanks (problem_of trees.now) place }
    requires second { IsSecondRoute (visits_of trees.now) second.now }
    ensures value { position ≤ length (route (visits_of trees.now) second.now.route)
        → result ≡ ends_change (problem_of trees.now) place
        (flanks_of (route (visits_of trees.now) second.now.route) position) }
    ensures small { IsSmall result }
{
    if position > second.stops.len() {
        return 0;
    }
    change_of_ends(trees.instance(), place, flanks_at(second.stops, position))
}

/// By how many tenths the cost changes where a stop changes places with the one at a position of a route, or `None`
/// where none leaves a plan.
#[inline(always)]
fn change_of_exchange(
    trees: &PlanTrees<'_>,
    first: &FirstChain,
    second: &SecondRoute<'_>,
    position: u16,
) -> Option<i64>
    requires { IsInto trees.now kinds.Exchange first.now second.now }
    ensures { IsChange (problem_of trees.now) (visits_of trees.now) kinds.Exchange
        first.now.numbers (chain_at second.now.route position 0) result }
{
    let (from, to) = (usize::from(first.numbers.position), usize::from(position));
    if second.route == first.numbers.route && to == from + 1 {
        return change_into_place(trees, Kind::Exchange, first, second, to + 1);
    }
    let front = change_at_place(trees, first.front, second, to);
    let rear = change_at_place(trees, first.rear, second, to + 1);
    Some(front + rear)
}

/// By how many tenths the cost changes where a move of a kind without a second length goes to a position of a
/// route, or `None` where none leaves a plan.
#[inline(always)]
fn change_at(
    trees: &PlanTrees<'_>,
    kind: Kind,
    first: &FirstChain,
    second: &SecondRoute<'_>,
    position: u16,
) -> Option<i64>
    requires { IsInto trees.now kind first.now second.now }
    ensures { IsChange (problem_of trees.now) (visits_of trees.now) kind first.now.numbers
        (chain_at second.now.route position 0) result }
{
    match kind {
        Kind::Relocate | Kind::OrOpt => change_of_shift(trees, kind, first, second, position),
        Kind::Exchange => change_of_exchange(trees, first, second, position),
        Kind::TwoOptStar => Some(change_at_place(
            trees,
            first.front,
            second,
            usize::from(position),
        )),
        Kind::Cross => None,
    }
}

/// The best of the moves of a kind without a second length that have these five first numbers.
#[inline(always)]
fn best_at_place(
    trees: &PlanTrees<'_>,
    kind: Kind,
    first: &FirstChain,
    second: &SecondRoute<'_>,
    position: u16,
    limit: Option<i64>,
) -> Found
    requires length { IsFirstLength kind first.now.numbers.length }
    requires kind { kind ≢ kinds.Cross }
    requires into { IsInto trees.now kind first.now second.now }
    ensures { let f = first.now.numbers in
        IsBestInRange (problem_of trees.now) (visits_of trees.now) kind
        (f.route ∷ f.position ∷ f.length ∷ second.now.route ∷ []) position (position + 1) limit
        result }
{
    let change = change_at(trees, kind, first, second, position)?;
    let place = Chain {
        route: second.route,
        position,
        length: 0,
    };
    best_of_one(trees, kind, &first.numbers, &place, change, limit)
}

/// The best of the moves of a kind without a second length that have these four first numbers.
#[inline(always)]
fn best_at_places(
    trees: &PlanTrees<'_>,
    kind: Kind,
    first: &FirstChain,
    second: &SecondRoute<'_>,
    limit: Option<i64>,
) -> Found
    requires length { IsFirstLength kind first.now.numbers.length }
    requires kind { kind ≢ kinds.Cross }
    requires into { IsInto trees.now kind first.now second.now }
    ensures { let f = first.now.numbers in
        IsBestInRange (problem_of trees.now) (visits_of trees.now) kind
        (f.route ∷ f.position ∷ f.length ∷ []) second.now.route (second.now.route + 1) limit result }
{
    let positions = second_positions(trees, kind, &first.numbers, second.route);
    let mut best = None;
    for position in positions.start..positions.end {
        let limit = limit_behind(best, limit);
        best = best_at_place(trees, kind, first, second, position, limit).or(best);
    }
    best
}

/// The best of the crosses with these five first numbers.
#[inline(always)]
fn best_cross_at(
    trees: &PlanTrees<'_>,
    first: &FirstChain,
    place: Place,
    changes: SwapChanges,
    limit: Option<i64>,
) -> Found
    requires plan { AreOfPlan trees.now }
    requires changes { AreSwapChanges (problem_of trees.now) (visits_of trees.now) first.now
        place.route place.position changes }
    ensures { let f = first.now.numbers in
        IsBestInRange (problem_of trees.now) (visits_of trees.now) kinds.Cross
        (f.route ∷ f.position ∷ f.length ∷ place.route ∷ []) place.position (place.position + 1)
        limit result }
{
    let Place { route, position } = place;
    let lengths = second_lengths(trees, Kind::Cross, &first.numbers, route, position);
    let mut best = None;
    for length in lengths.start..lengths.end {
        let second = Chain {
            route,
            position,
            length,
        };
        let change = changes.by(length);
        let limit = limit_behind(best, limit);
        best = best_of_one(trees, Kind::Cross, &first.numbers, &second, change, limit).or(best);
    }
    best
}

/// The changes of cost of the exchanges of ends behind a chain and at the three places behind a position of a route.
fn rears_at(
    trees: &PlanTrees<'_>,
    first: &FirstChain,
    second: &SecondRoute<'_>,
    position: usize,
) -> SwapChanges
    requires into { IsInto trees.now kinds.Cross first.now second.now }
    requires small { position < 2 ^ 16 }
    ensures { AreRears (problem_of trees.now) first.now
        (route (visits_of trees.now) second.now.route) position result }
{
    SwapChanges {
        one: change_at_place(trees, first.rear, second, position + 1),
        two: change_at_place(trees, first.rear, second, position + 2),
        three: change_at_place(trees, first.rear, second, position + 3),
    }
}

/// The changes of cost of the crosses of a chain with the chains at a position of a route: that of an exchange of ends
/// at their front, and those behind them.
#[inline(always)]
fn swap_changes(
    trees: &PlanTrees<'_>,
    first: &FirstChain,
    second: &SecondRoute<'_>,
    position: u16,
    rears: &SwapChanges,
) -> SwapChanges
    requires into { IsInto trees.now kinds.Cross first.now second.now }
    requires rears { AreRears (problem_of trees.now) first.now
        (route (visits_of trees.now) second.now.route) position rears.now }
    ensures { AreSwapChanges (problem_of trees.now) (visits_of trees.now) first.now second.now.route
        position result }
{
    let front = change_at_place(trees, first.front, second, usize::from(position));
    SwapChanges {
        one: front + rears.one,
        two: front + rears.two,
        three: front + rears.three,
    }
}

/// The best of the crosses of a chain with those of a route. Each exchange of ends is found once for a place.
#[inline(always)]
fn best_cross(
    trees: &PlanTrees<'_>,
    first: &FirstChain,
    second: &SecondRoute<'_>,
    limit: Option<i64>,
) -> Found
    requires { IsInto trees.now kinds.Cross first.now second.now }
    ensures { let f = first.now.numbers in
        IsBestInRange (problem_of trees.now) (visits_of trees.now) kinds.Cross
        (f.route ∷ f.position ∷ f.length ∷ []) second.now.route (second.now.route + 1) limit result }
{
    let positions = second_positions(trees, Kind::Cross, &first.numbers, second.route);
    let mut rears = rears_at(trees, first, second, usize::from(positions.start));
    let mut best = None;
    for position in positions.start..positions.end {
        let place = Place {
            route: second.route,
            position,
        };
        let changes = swap_changes(trees, first, second, position, &rears);
        let limit = limit_behind(best, limit);
        best = best_cross_at(trees, first, place, changes, limit).or(best);
        let next = change_at_place(trees, first.rear, second, usize::from(position) + 4);
        rears = SwapChanges {
            one: rears.two,
            two: rears.three,
            three: next,
        };
    }
    best
}

/// The best of the moves of a kind with this first chain into a route.
pub fn best_into_route(
    trees: &PlanTrees<'_>,
    kind: Kind,
    first: &FirstChain,
    route: u16,
    limit: Option<i64>,
) -> Found
    requires plan { AreOfPlan trees.now }
    requires length { IsFirstLength kind first.now.numbers.length }
    requires first { IsFirstChain (problem_of trees.now) (visits_of trees.now) kind first.now }
    ensures { let f = first.now.numbers in
        IsBestInRange (problem_of trees.now) (visits_of trees.now) kind
        (f.route ∷ f.position ∷ f.length ∷ []) route (route + 1) limit result }
{
    let second = SecondRoute {
        route,
        stops: stops_of(trees, route),
    };
    match kind {
        Kind::Cross => best_cross(trees, first, &second, limit),
        _ => best_at_places(trees, kind, first, &second, limit),
    }
}
