//! What all leaves of a tree share.

ghost use Rattle.std.specs.Prelude.{◌≡◌, ◌≤◌, IfOk};
ghost use Rattle.solomon_reader.specs.declared.limits.TheConstants.{MOST_NEIGHBOURS};
ghost use Rattle.leaf_arcs.specs.Arcs.{AreFreeArcs};

use crate::arcs::AllowedArc;
use crate::free_arcs::all_free_arcs;
use crate::neighbours::Neighbours;
use crate::slots::Slots;
use solomon_reader::Instance;
use std::alloc::{AllocError, Global};

/// How many slots of time and load a customer has in the mean, from the first level on.
const MEANS: [u64; 3] = [32, 128, 512];

/// Where more customers fit a vehicle in the mean, its load says little of what may follow.
const MOST_STOPS: u32 = 25;

/// The slots of time and load of each level, beside slots of time or none.
fn grids(alloc: Global, instance: &Instance, time_slots: &Slots) -> Result<Vec<Slots>, AllocError> {
    let mut grids = Vec::new(alloc);
    grids.push(Slots::none(alloc))?;
    let most = instance.fewest_routes().saturating_mul(MOST_STOPS);
    if !time_slots.starts.is_empty() && u32::from(instance.customer_count()) > most {
        return Ok(grids);
    }
    let mut departures = Vec::new(alloc);
    for mean in MEANS {
        let slots = Slots::of_both(alloc, instance, mean, &mut departures)?;
        if !slots.starts.is_empty() {
            grids.push(slots)?;
        }
    }
    Ok(grids)
}

/// What all leaves of a tree for an instance share; it is made once.
#[derive(Drop)]
pub struct Network<'i> {
    /// What is remembered, and the instance.
    pub neighbours: Neighbours<'i>,
    /// The arcs from each row where nothing is decided, at prices 0.
    pub(crate) arcs: Vec<Vec<AllowedArc>>,
    pub(crate) time_slots: Slots,
    /// Slots of time and load by level, none at the first one.
    pub(crate) grids: Vec<Slots>,
    ghost arcs_are: { AreFreeArcs neighbours.instance.now neighbours.k arcs.items },
}

impl<'i> Network<'i> {
    /// The network of an instance, with neighbour lists of this many others, for about this many leaves.
    pub fn new(
        alloc: Global,
        instance: &'i Instance,
        k: u8,
        leaves: usize,
    ) -> Result<Network<'i>, AllocError>
        requires { k ≤ MOST_NEIGHBOURS }
        ensures instance { IfOk result (λ n. n.neighbours.instance.now ≡ instance.now) }
        ensures k { IfOk result (λ n. n.neighbours.k ≡ k) }
    {
        let neighbours = Neighbours::new(alloc, instance, k)?;
        let arcs = all_free_arcs(alloc, &neighbours)?;
        let time_slots = Slots::of_time(alloc, instance, leaves)?;
        Ok(Network {
            neighbours,
            arcs,
            grids: grids(alloc, instance, &time_slots)?,
            time_slots,
        })
    }

    /// How many slots of time and load there are at a level; none where there is no such level.
    /// No contract: it decides only how fast a check is.
    pub fn slot_count(&self, level: usize) -> usize {
        match self.grids.get(level) {
            Some(slots) => slots.starts.len(),
            None => 0,
        }
    }
}
