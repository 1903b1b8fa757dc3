//! Neighbour lists, and the places in them.

ghost use Rattle.std.specs.Prelude.{◌≡◌, ◌+◌, ◌<◌, ◌≤◌, min, length, IfOk, IsTrue};
ghost use Rattle.solomon_reader.specs.Problem.{IsCustomer};
ghost use Rattle.solomon_reader.specs.Relaxed.{stands_before, rank};
ghost use Rattle.solomon_reader.specs.Remembering.{ahead};
ghost use Rattle.solomon_reader.specs.Memories.{place_of, HasPlaces};
ghost use Rattle.fronts.specs.Memories.{IsBeyond, IsNeighbourList};

use solomon_reader::Instance;
use std::alloc::{AllocError, Global};

/// The most rows in a neighbour list, its own customer counted. It is the place, too, of what isn't in
/// a list.
pub const LIST_SIZE: u8 = 16;

/// Whether w is nearer to v than u is, or as near with a lower number.
fn stands_before(instance: &Instance, v: u16, w: u16, u: u16) -> bool
    requires v { v < length instance.now.rows }
    requires w { w < length instance.now.rows }
    requires u { u < length instance.now.rows }
    ensures { result ≡ stands_before instance.now v w u }
{
    let near = instance.distance(v, w);
    let far = instance.distance(v, u);
    near < far || near == far && w < u
}

/// Whether w is another row than v, and stands before u as v sees them.
fn is_ahead(instance: &Instance, v: u16, w: u16, u: u16) -> bool
    requires v { v < length instance.now.rows }
    requires w { w < length instance.now.rows }
    requires u { u < length instance.now.rows }
    ensures { result ≡ ahead instance.now v u w }
{
    w != v && stands_before(instance, v, w, u)
}

/// How many customers stand before u, seen from v, or k where they are more.
fn rank_up_to(instance: &Instance, k: u32, v: u16, u: u16) -> u32
    requires v { v < length instance.now.rows }
    requires u { u < length instance.now.rows }
    ensures { result ≡ min (rank instance.now v u) k }
{
    let count = instance.customer_count();
    let mut found: u32 = 0;
    for w in 1..count + 1 {
        if found >= k {
            return k;
        }
        if is_ahead(instance, v, w, u) {
            found += 1;
        }
    }
    found
}

/// Whether a row before which k customers stand, seen from v, stands before u itself.
fn is_beyond(instance: &Instance, k: u32, v: u16, far: Option<u16>, u: u16) -> bool
    requires v { v < length instance.now.rows }
    requires u { u < length instance.now.rows }
    requires far { IsBeyond instance.now k v far }
    ensures { IsTrue result → k ≤ rank instance.now v u }
{
    match far {
        Some(w) => stands_before(instance, v, w, u),
        None => false,
    }
}

/// The place of a customer in the neighbour list of v. `far` is a customer that isn't in it, if one is
/// known: those behind it need no count.
fn place(instance: &Instance, k: u32, v: u16, u: u16, far: &mut Option<u16>) -> u8
    requires few { k < LIST_SIZE }
    requires v { v < length instance.now.rows }
    requires u { IsCustomer instance.now u }
    requires far { IsBeyond instance.now k v far.old }
    ensures is { result ≡ place_of instance.now k v u }
    ensures far { IsBeyond instance.now k v far.new }
{
    if u == v {
        return 0;
    }
    if is_beyond(instance, k, v, *far, u) {
        return LIST_SIZE;
    }
    let rank = rank_up_to(instance, k, v, u);
    if rank >= k {
        *far = Some(u);
        return LIST_SIZE;
    }
    rank as u8 + 1
}

/// The place of each row in the neighbour list of v.
pub(crate) fn places_from(
    alloc: Global,
    instance: &Instance,
    k: u32,
    v: u16,
) -> Result<Vec<u8>, AllocError>
    requires few { k < LIST_SIZE }
    requires v { v < length instance.now.rows }
    ensures { IfOk result (λ places. HasPlaces instance.now k v
        (length instance.now.rows) places.items) }
{
    let count = instance.customer_count();
    let mut places = Vec::new(alloc);
    let mut far = None;
    places.push(if v == 0 { 0 } else { LIST_SIZE })?;
    for u in 1..count + 1 {
        places.push(place(instance, k, v, u, &mut far))?;
    }
    Ok(places)
}

/// The neighbour list of v, by the places in it. Where no other row stands there is the depot.
pub(crate) fn neighbour_list(
    instance: &Instance,
    k: u32,
    v: u16,
    places: &[u8],
) -> [u16; LIST_SIZE as usize]
    requires few { k < LIST_SIZE }
    requires v { v < length instance.now.rows }
    requires places { HasPlaces instance.now k v (length instance.now.rows) places.now }
    ensures { IsNeighbourList instance.now k v (length instance.now.rows) result }
{
    let count = instance.customer_count();
    let mut list = [0; LIST_SIZE as usize];
    for u in 0..count + 1 {
        let place = places[usize::from(u)];
        if place < LIST_SIZE {
            list[usize::from(place)] = u;
        }
    }
    list
}
