//! The chain that a move takes first.

ghost use Rattle.std.specs.Prelude.{◌≡◌, MatchOption};
ghost use Rattle.segments.specs.PlanTrees.{problem_of};
ghost use Rattle.moves.specs.Trees.{visits_of, AreOfPlan};
ghost use Rattle.moves.specs.Flanks.{taken_by, StandsFirst, IsFirstChain};

use crate::candidate::{Chain, Kind};
use crate::flanks::{Flanks, change_of_leaving, flanks_at, stops_of};
use segments::PlanTrees;

/// The chain that a move takes first: its numbers, how many stops it takes, the places at both ends, and by how
/// many tenths the cost changes where they leave.
#[derive(Clone, Copy)]
pub struct FirstChain {
    pub numbers: Chain,
    pub taken: u16,
    pub front: Flanks,
    pub rear: Flanks,
    pub leaving: i64,
}

/// How many stops a move of a kind takes first; none where ends change places.
fn taken_by(kind: Kind, length: u16) -> u16
    ensures { result ≡ taken_by kind length }
{
    match kind {
        Kind::Relocate | Kind::Exchange => 1,
        Kind::OrOpt | Kind::Cross => length,
        Kind::TwoOptStar => 0,
    }
}

/// The chain that a move of a kind with these numbers takes first, or `None` where it doesn't stand in its
/// route.
pub fn first_chain_of(trees: &PlanTrees<'_>, kind: Kind, numbers: Chain) -> Option<FirstChain>
    requires { AreOfPlan trees.now }
    ensures { MatchOption result (¬ StandsFirst (visits_of trees.now) kind numbers)
        (λ c. (c.numbers ≡ numbers)
        × IsFirstChain (problem_of trees.now) (visits_of trees.now) kind c) }
{
    let stops = stops_of(trees, numbers.route);
    let taken = taken_by(kind, numbers.length);
    let from = usize::from(numbers.position);
    let to = from + usize::from(taken);
    if to > stops.len() {
        return None;
    }
    let (front, rear) = (flanks_at(stops, from), flanks_at(stops, to));
    Some(FirstChain {
        numbers,
        taken,
        front,
        rear,
        leaving: change_of_leaving(trees.instance(), front, rear),
    })
}
