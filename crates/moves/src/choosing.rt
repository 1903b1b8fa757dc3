//! The best move of a kind.

ghost use Rattle.std.specs.Prelude.{◌≡◌, ◌↔◌, ◌+◌, [], ◌∷◌, IsTrue};
ghost use Rattle.segments.specs.PlanTrees.{problem_of};
ghost use Rattle.moves.specs.Trees.{visits_of, AreOfPlan};
ghost use Rattle.moves.specs.Order.{IsBest, kind_of};
ghost use Rattle.moves.specs.Search.{numbers, limit_behind, under, IsFirstLength, IsSecondLength, IsUnder, IsBestInRange, IsBestUnder};
ghost use Rattle.moves.specs.Flanks.{HasChange};

use crate::candidate::{Chain, Kind, Move, Place};
use crate::first_chain::first_chain_of;
use crate::ranges::{first_lengths, first_positions, second_routes};
use crate::second_route::best_into_route;
use crate::sizes::route_count;
use crate::valuing::value;
use segments::PlanTrees;

/// The best move that was found, with its value in tenths, if there is one.
pub type Found = Option<(Move, i64)>;

/// Where a chain begins.
fn place_of(chain: &Chain) -> Place
    ensures { result ≡ record { route = chain.now.route; position = chain.now.position } }
{
    Place {
        route: chain.route,
        position: chain.position,
    }
}

/// The move of a kind by its numbers. A length that the kind lacks is 0.
pub fn candidate_of(kind: Kind, first: &Chain, second: &Chain) -> Move
    requires first { IsFirstLength kind first.now.length }
    requires second { IsSecondLength kind second.now.length }
    ensures kind { kind_of result ≡ kind }
    ensures numbers { numbers result ≡ first.now.route ∷ first.now.position ∷ first.now.length ∷
        second.now.route ∷ second.now.position ∷ second.now.length ∷ [] }
{
    let (from, to) = (place_of(first), place_of(second));
    match kind {
        Kind::Relocate => Move::Relocate { from, to },
        Kind::Exchange => Move::Exchange {
            first: from,
            second: to,
        },
        Kind::OrOpt => Move::OrOpt { chain: *first, to },
        Kind::TwoOptStar => Move::TwoOptStar {
            first: from,
            second: to,
        },
        Kind::Cross => Move::Cross {
            first: *first,
            second: *second,
        },
    }
}

/// Whether a value is under a limit, if there is one.
#[inline(always)]
fn is_under(value: i64, limit: Option<i64>) -> bool
    ensures { IsTrue result ↔ IsUnder limit value }
{
    match limit {
        Some(limit) => value < limit,
        None => true,
    }
}

/// The limit under which a move is better than what was found under another one.
#[inline(always)]
pub fn limit_behind(found: Found, limit: Option<i64>) -> Option<i64>
    ensures { result ≡ limit_behind found limit }
{
    match found {
        Some((_, value)) => Some(value),
        None => limit,
    }
}

/// What was found, if it is under a limit.
pub(crate) fn under(limit: Option<i64>, found: Found) -> Found
    ensures { result ≡ under limit found }
{
    let (candidate, value) = found?;
    if is_under(value, limit) {
        Some((candidate, value))
    } else {
        None
    }
}

/// The move with these numbers, if its value is under a limit. It is valued only where its change of cost is.
#[inline(always)]
pub fn best_of_one(
    trees: &PlanTrees<'_>,
    kind: Kind,
    first: &Chain,
    second: &Chain,
    change: i64,
    limit: Option<i64>,
) -> Found
    requires plan { AreOfPlan trees.now }
    requires first { IsFirstLength kind first.now.length }
    requires second { IsSecondLength kind second.now.length }
    requires change { HasChange (problem_of trees.now) (visits_of trees.now) kind first.now
        second.now change }
    ensures { IsBestInRange (problem_of trees.now) (visits_of trees.now) kind
        (first.now.route ∷ first.now.position ∷ first.now.length ∷ second.now.route ∷
        second.now.position ∷ []) second.now.length (second.now.length + 1) limit result }
{
    if !is_under(change, limit) {
        return None;
    }
    let candidate = candidate_of(kind, first, second);
    let value = value(trees, &candidate)?;
    Some((candidate, value))
}

/// The best of the moves with this first chain.
fn best_of_chain(trees: &PlanTrees<'_>, kind: Kind, numbers: Chain, limit: Option<i64>) -> Found
    requires plan { AreOfPlan trees.now }
    requires length { IsFirstLength kind numbers.length }
    ensures { IsBestInRange (problem_of trees.now) (visits_of trees.now) kind
        (numbers.route ∷ numbers.position ∷ []) numbers.length (numbers.length + 1) limit result }
{
    let first = first_chain_of(trees, kind, numbers)?;
    let routes = second_routes(trees, kind, &numbers);
    let mut best = None;
    for route in routes.start..routes.end {
        let limit = limit_behind(best, limit);
        best = best_into_route(trees, kind, &first, route, limit).or(best);
    }
    best
}

/// The best of the moves with these two first numbers.
fn best_from_position(
    trees: &PlanTrees<'_>,
    kind: Kind,
    route: u16,
    position: u16,
    limit: Option<i64>,
) -> Found
    requires { AreOfPlan trees.now }
    ensures { IsBestInRange (problem_of trees.now) (visits_of trees.now) kind (route ∷ []) position
        (position + 1) limit result }
{
    let lengths = first_lengths(trees, kind, route, position);
    let mut best = None;
    for length in lengths.start..lengths.end {
        let first = Chain {
            route,
            position,
            length,
        };
        let limit = limit_behind(best, limit);
        best = best_of_chain(trees, kind, first, limit).or(best);
    }
    best
}

/// The best of the moves with this first route.
pub(crate) fn best_from_route(
    trees: &PlanTrees<'_>,
    kind: Kind,
    route: u16,
    limit: Option<i64>,
) -> Found
    requires { AreOfPlan trees.now }
    ensures { IsBestInRange (problem_of trees.now) (visits_of trees.now) kind [] route
        (route + 1) limit result }
{
    let positions = first_positions(trees, kind, route);
    let mut best = None;
    for position in positions.start..positions.end {
        let limit = limit_behind(best, limit);
        best = best_from_position(trees, kind, route, position, limit).or(best);
    }
    best
}

/// The least value of the moves of a kind that is under a limit, both in tenths, with the first move that has it;
/// `None` where no move of the kind has such a value. Under 0 it is the move that makes the plan cheapest. It
/// takes no memory.
pub fn best_under(trees: &PlanTrees<'_>, kind: Kind, limit: Option<i64>) -> Option<(Move, i64)>
    requires { AreOfPlan trees.now }
    ensures { IsBestUnder (problem_of trees.now) (visits_of trees.now) kind limit result }
{
    let mut best = None;
    for route in 0..route_count(trees) {
        let limit = limit_behind(best, limit);
        best = best_from_route(trees, kind, route, limit).or(best);
    }
    best
}

/// The least value of the moves of a kind, in tenths, with the first move that has it; `None` where
/// no move of the kind has a value. It takes no memory.
pub fn best(trees: &PlanTrees<'_>, kind: Kind) -> Option<(Move, i64)>
    requires { AreOfPlan trees.now }
    ensures { IsBest (problem_of trees.now) (visits_of trees.now) kind result }
{
    best_under(trees, kind, None)
}
