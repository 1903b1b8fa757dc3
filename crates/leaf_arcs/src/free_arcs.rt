//! The arcs that time allows where nothing is decided.

ghost use Rattle.std.specs.Prelude.{◌≡◌, ◌<◌, length, IfOk};
ghost use Rattle.solomon_reader.specs.Problem.{IsCustomer, customer_count};
ghost use Rattle.leaf_arcs.specs.Arcs.{IsAllowedArc, AreAllowedArcs, free_pricing, AreFreeArcs};

use crate::arcs::AllowedArc;
use crate::neighbours::Neighbours;
use std::alloc::{AllocError, Global};

/// The arc from v to a customer, at prices 0.
fn free_arc(neighbours: &Neighbours<'_>, v: u16, j: u16) -> AllowedArc
    requires v { v < length neighbours.now.instance.now.rows }
    requires j { IsCustomer neighbours.now.instance.now j }
    ensures arc { let n = neighbours.now in IsAllowedArc (free_pricing n.instance.now n.k) v
        result }
    ensures to { result.to ≡ j }
{
    let instance = neighbours.instance;
    instance.law_of_limits();
    let travel = instance.distance(v, j).get();
    let grains = 1000 * travel;
    AllowedArc {
        to: j,
        bit: neighbours.bit(v, j),
        demand: instance.demand(j),
        travel,
        ready: instance.ready(j),
        due: instance.due(j),
        service: instance.service(j),
        value: grains as i64,
    }
}

/// The arcs from v to the customers that a vehicle may reach in time, at prices 0.
fn free_arcs(
    alloc: Global,
    neighbours: &Neighbours<'_>,
    v: u16,
) -> Result<Vec<AllowedArc>, AllocError>
    requires { v < length neighbours.now.instance.now.rows }
    ensures { let n = neighbours.now in
        IfOk result (λ arcs. AreAllowedArcs (free_pricing n.instance.now n.k) v arcs.items) }
{
    let instance = neighbours.instance;
    let earliest = instance.ready(v) + instance.service(v);
    let mut arcs = Vec::new(alloc);
    for j in 1..instance.customer_count() + 1 {
        let arrival = earliest + instance.distance(v, j).get();
        if j != v && arrival <= instance.due(j) {
            arcs.push(free_arc(neighbours, v, j))?;
        }
    }
    Ok(arcs)
}

/// The arcs from each row that time allows, at prices 0.
pub(crate) fn all_free_arcs(
    alloc: Global,
    neighbours: &Neighbours<'_>,
) -> Result<Vec<Vec<AllowedArc>>, AllocError>
    ensures { IfOk result (λ all. AreFreeArcs neighbours.now.instance.now neighbours.now.k all.items) }
{
    let instance = neighbours.instance;
    let mut all = Vec::new(alloc);
    for v in 0..instance.customer_count() + 1 {
        all.push(free_arcs(alloc, neighbours, v)?)?;
    }
    Ok(all)
}
