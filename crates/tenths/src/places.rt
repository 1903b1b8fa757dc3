//! Points of the plane and the distances between them.

ghost use Rattle.std.specs.Prelude.{◌≡◌, ◌*◌, ◌+◌};
ghost use Rattle.tenths.specs.Root.{IsRoot, root_of};
ghost use Rattle.tenths.specs.Distance.{square, distance_of};

use crate::value::Tenths;

/// A point of the plane, in units of the instance's file.
#[derive(Clone, Copy, Debug, PartialEq, Eq)]
pub struct Point {
    pub x: u16,
    pub y: u16,
}

/// The greatest whole number whose square is at most `x`.
pub fn root(x: u64) -> u32
    ensures greatest { IsRoot x result }
    ensures value { result ≡ root_of x }
{
    x.isqrt() as u32
}

/// The Euclidean distance between two points in tenths of a unit, truncated.
#[tactic(auto, unfolding(crate::specs::Distance::distance_of))]
pub fn distance(p: Point, q: Point) -> Tenths
    ensures value { result ≡ distance_of p q }
    // The root is that of a hundred times the square of the distance in units.
    ensures truncated { IsRoot (100 * square p q) result }
{
    let dx = u64::from(p.x.abs_diff(q.x));
    let dy = u64::from(p.y.abs_diff(q.y));
    Tenths::from(root(100 * (dx * dx + dy * dy)))
}
