//! The one route that may begin at a customer, where every allowed arc is required.

ghost use Rattle.std.specs.Prelude.{◌≡◌, ◌*◌, ◌≤◌, ℕ, List, ◌∷◌, IfOk, IfSome, IfNone, MatchOption};
ghost use Rattle.solomon_reader.specs.Plan.{route_cost};
ghost use Rattle.solomon_reader.specs.Region.{IsAllowed};
ghost use Rattle.solomon_reader.specs.declared.limits.TheConstants.{MOST_TIME};
ghost use Rattle.branching.specs.Choosing.{IsDecided};
ghost use Rattle.leaf_work.specs.Gathering.{FitsIn, IsOnly, IsLine};

use branching::Region;
use schedule::walk;
use solomon_reader::Instance;
use std::alloc::{AllocError, Global};

/// The first row that a route may go to from this one.
fn next_after(region: &Region, from: u16) -> Option<u16>
    ensures next { IfSome result (λ j. IsAllowed region.now (from, j)) }
    ensures none { IfNone result ((j : ℕ) → ¬ IsAllowed region.now (from, j)) }
{
    for to in 0..=region.size() {
        if region.allows(from, to) {
            return Some(to);
        }
    }
    None
}

/// The one list of stops on allowed arcs that begins at this customer and ends at the depot; nothing
/// where no fitting route does.
fn follow(
    alloc: Global,
    instance: &Instance,
    region: &Region,
    start: u16,
) -> Result<Option<Vec<u16>>, AllocError>
    requires decided { IsDecided region.now }
    requires start { IsAllowed region.now (0, start) }
    ensures { IfOk result (λ o. MatchOption o
        ((q : List ℕ) → ¬ FitsIn instance.now region.now (start ∷ q))
        (λ r. IsLine instance.now region.now start r.items)) }
{
    instance.law_of_limits();
    let mut route = Vec::new(alloc);
    route.push(start)?;
    let mut last = start;
    for _step in 0..instance.capacity() {
        let Some(next) = next_after(region, last) else {
            return Ok(None);
        };
        if next == 0 {
            return Ok(Some(route));
        }
        route.push(next)?;
        last = next;
    }
    Ok(None)
}

/// The one fitting route on allowed arcs that begins at this customer, with its cost in tenths.
pub(crate) fn route_from(
    alloc: Global,
    instance: &Instance,
    region: &Region,
    start: u16,
) -> Result<Option<(Vec<u16>, u64)>, AllocError>
    requires decided { IsDecided region.now }
    ensures none { IfOk result (λ o. IfNone o
        ((q : List ℕ) → ¬ FitsIn instance.now region.now (start ∷ q))) }
    ensures route { IfOk result (λ o. IfSome o
        (λ r. IsOnly instance.now region.now start r.0.items)) }
    ensures cost { IfOk result (λ o. IfSome o (λ r. r.1 ≡ route_cost instance.now r.0.items)) }
    ensures small { IfOk result (λ o. IfSome o (λ r. r.1 ≤ 10 * MOST_TIME)) }
{
    if !region.allows(0, start) {
        return Ok(None);
    }
    let Some(route) = follow(alloc, instance, region, start)? else {
        return Ok(None);
    };
    match walk(instance, route.as_slice()) {
        Some(walked) => {
            let cost = walked.cost.get();
            Ok(Some((route, cost)))
        }
        None => Ok(None),
    }
}
