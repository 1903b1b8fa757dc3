//! Regions that allow fewer arcs, and routes there.

ghost use Rattle.std.specs.Prelude.{◌≡◌, IsTrue, IfOk};
ghost use Rattle.std.specs.List.{AllByRecursion};
ghost use Rattle.solomon_reader.specs.Plan.{arcs};
ghost use Rattle.solomon_reader.specs.Region.{IsAllowed, IsUndecided, used_child, unused_child};
ghost use Rattle.branching.specs.Arcs.{pair};
ghost use Rattle.prices.specs.Narrowing.{IsNarrower, StaysLeast};

use branching::{Arc, Region, RegionFault};
use labelling::Least;
use std::alloc::AllocError;

/// Whether a region allows each arc of a route, which is given by its customers in order.
pub fn allows_route(region: &Region, stops: &[u16]) -> bool
    ensures { IsTrue result → AllByRecursion (IsAllowed region.now) (arcs stops.now) }
{
    let mut from = 0;
    for stop in stops {
        if !region.allows(from, *stop) {
            return false;
        }
        from = *stop;
    }
    region.allows(from, 0)
}

/// Whether a region allows the route of a least reduced cost, or there is none.
pub(crate) fn stays_least(region: &Region, least: &Least) -> bool
    ensures { IsTrue result → StaysLeast region.now least.now }
{
    least.value.is_none() || allows_route(region, least.route.as_slice())
}

/// The regions of both children by an arc: that in which it is required, and that in which it is forbidden.
/// `AllocError` where memory is refused.
pub fn child_regions(region: &Region, arc: Arc) -> Result<(Region, Region), AllocError>
    requires { IsUndecided region.now (pair arc) }
    ensures used { IfOk result (λ r. r.0 ≡ used_child region.now (pair arc)) }
    ensures unused { IfOk result (λ r. r.1 ≡ unused_child region.now (pair arc)) }
    ensures used_narrower { IfOk result (λ r. IsNarrower r.0 region.now) }
    ensures unused_narrower { IfOk result (λ r. IsNarrower r.1 region.now) }
{
    match (region.used(arc), region.forbidden(arc)) {
        (Ok(used), Ok(unused)) => Ok((used, unused)),
        (Err(RegionFault::Memory), _) | (_, Err(RegionFault::Memory)) => Err(AllocError),
        _ => unreachable!(),
    }
}
