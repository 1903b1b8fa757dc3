//! Where a route of a leaf may go from each row.

ghost use Rattle.std.specs.Prelude.{◌≡◌, ◌<◌, ◌≤◌, length, pos, ◌+ℤ◌, IfOk};
ghost use Rattle.solomon_reader.specs.Problem.{IsCustomer, customer_count};
ghost use Rattle.solomon_reader.specs.Relaxed.{price_of};
ghost use Rattle.solomon_reader.specs.States.{IsPriced};
ghost use Rattle.leaf_arcs.specs.Decisions.{AreAllowed};
ghost use Rattle.leaf_arcs.specs.Arcs.{IsAllowedArc, AreAllowedArcs, IsArcRow, AreArcRows};
ghost use Rattle.leaf_arcs.specs.Leaves.{problem_of, pricing_of, free_of, sets_in};
ghost use Rattle.solomon_reader.specs.EntryPrices.{ArePaid};
ghost use Rattle.solomon_reader.specs.SetPrices.{price_sum};

use crate::arcs::{AllowedArc, ArcRow};
use crate::decision::allowed_rows;
use crate::entries::{entry_prices, paid_for};
use crate::leaf::Leaf;
use std::alloc::{AllocError, Global};

/// What a step to a customer is paid where it is paid so many grains for the sets that it enters.
fn payment(leaf: &Leaf<'_, '_>, j: u16, grains: u64) -> i64
    requires j { IsCustomer (problem_of leaf.now) j }
    requires grains { grains ≤ price_sum (sets_in leaf.now) }
    ensures value { result ≡ price_of leaf.now.prices.now j +ℤ pos grains }
    ensures range { IsPriced result }
{
    leaf.prices[j as usize - 1] + grains as i64
}

/// An arc from v at the prices of a leaf.
#[tactic(auto, unfolding(solomon_reader::specs::SetPrices::by_sets))]
fn priced(leaf: &Leaf<'_, '_>, v: u16, arc: &AllowedArc, paid: &[u64]) -> AllowedArc
    requires arc { IsAllowedArc (free_of leaf.now) v arc.now }
    requires paid { ArePaid (sets_in leaf.now) v (customer_count (problem_of leaf.now)) paid.now }
    ensures arc { IsAllowedArc (pricing_of leaf.now) v result }
    ensures to { result.to ≡ arc.now.to }
{
    let mut priced = *arc;
    priced.value -= payment(leaf, arc.to, paid_for(paid, arc.to));
    priced
}

/// The arcs from v to the customers that are allowed.
fn allowed_arcs(
    alloc: Global,
    leaf: &Leaf<'_, '_>,
    v: u16,
    arcs: &[AllowedArc],
    allowed: &[bool],
    paid: &[u64],
) -> Result<Vec<AllowedArc>, AllocError>
    requires arcs { AreAllowedArcs (free_of leaf.now) v arcs.now }
    requires allowed { AreAllowed (customer_count
        (problem_of leaf.now)) leaf.now.path.now v allowed.now }
    requires paid { ArePaid (sets_in leaf.now) v (customer_count (problem_of leaf.now)) paid.now }
    ensures { IfOk result (λ found. AreAllowedArcs (pricing_of leaf.now) v found.items) }
{
    let mut found = Vec::with_capacity(alloc, arcs.len())?;
    for arc in arcs {
        if allowed[arc.to as usize] {
            found.push(priced(leaf, v, arc, paid))?;
        }
    }
    Ok(found)
}

/// Where a route may go from v.
fn arc_row(alloc: Global, leaf: &Leaf<'_, '_>, v: u16) -> Result<ArcRow, AllocError>
    requires { v < length (problem_of leaf.now).rows }
    ensures { IfOk result (λ r. IsArcRow (pricing_of leaf.now) v r) }
{
    let network = leaf.network;
    let instance = network.neighbours.instance;
    let allowed = allowed_rows(alloc, leaf.path, instance.customer_count(), v)?;
    let paid = entry_prices(alloc, leaf, v)?;
    let arcs = network.arcs[v as usize].as_slice();
    Ok(ArcRow {
        arcs: allowed_arcs(alloc, leaf, v, arcs, allowed.as_slice(), paid.as_slice())?,
        ends: allowed[0],
        back: instance.distance(v, 0).get(),
        earliest: instance.ready(v) + instance.service(v),
    })
}

/// Where a route may go from each row.
pub(crate) fn arc_rows(alloc: Global, leaf: &Leaf<'_, '_>) -> Result<Vec<ArcRow>, AllocError>
    ensures { IfOk result (λ rows. AreArcRows (pricing_of leaf.now) rows.items) }
{
    let network = leaf.network;
    let mut rows = Vec::new(alloc);
    for v in 0..network.neighbours.instance.customer_count() + 1 {
        rows.push(arc_row(alloc, leaf, v)?)?;
    }
    Ok(rows)
}
