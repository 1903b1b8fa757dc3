//! The bits that stand for customers in memories: one for each customer of a neighbour list.

ghost use Rattle.std.specs.Prelude.{◌≡◌, ◌+◌, ◌<◌, ◌≤◌, min, length, IfOk};
ghost use Rattle.solomon_reader.specs.declared.limits.TheConstants.{MOST_NEIGHBOURS};
ghost use Rattle.solomon_reader.specs.Relaxed.{rank};
ghost use Rattle.solomon_reader.specs.Remembering.{ahead};
ghost use Rattle.solomon_reader.specs.Memories.{place_of, HasPlaces};

use solomon_reader::Instance;
use std::alloc::{AllocError, Global};

/// In place of the bit of what isn't in a neighbour list: no memory of 16 bits has it.
pub(crate) const NO_BIT: u8 = 16;

/// Whether w is another customer than v, and nearer to it than u, or as near with the lower number.
fn is_ahead(instance: &Instance, v: u16, w: u16, u: u16) -> bool
    requires v { v < length instance.now.rows }
    requires w { w < length instance.now.rows }
    requires u { u < length instance.now.rows }
    ensures { result ≡ ahead instance.now v u w }
{
    let near = instance.distance(v, w);
    let far = instance.distance(v, u);
    w != v && (near < far || near == far && w < u)
}

/// How many customers are nearer to v than u; it counts no further than to k.
fn rank_up_to(instance: &Instance, k: u8, v: u16, u: u16) -> u8
    requires v { v < length instance.now.rows }
    requires u { u < length instance.now.rows }
    ensures { result ≡ min (rank instance.now v u) k }
{
    let mut found: u8 = 0;
    for w in 1..instance.customer_count() + 1 {
        if found >= k {
            return k;
        }
        if is_ahead(instance, v, w, u) {
            found += 1;
        }
    }
    found
}

/// The bit of u in memories of v: 0 for v itself, and then by the order of the neighbour list.
fn bit(instance: &Instance, k: u8, v: u16, u: u16) -> u8
    requires few { k ≤ MOST_NEIGHBOURS }
    requires v { v < length instance.now.rows }
    requires u { u < length instance.now.rows }
    ensures { result ≡ place_of instance.now k v u }
{
    if u == v {
        return 0;
    }
    let rank = rank_up_to(instance, k, v, u);
    if u == 0 || rank >= k {
        return NO_BIT;
    }
    rank + 1
}

/// The bits of all rows in memories of v.
pub(crate) fn bits(alloc: Global, instance: &Instance, k: u8, v: u16) -> Result<Vec<u8>, AllocError>
    requires few { k ≤ MOST_NEIGHBOURS }
    requires v { v < length instance.now.rows }
    ensures { IfOk result (λ bits. HasPlaces instance.now k v
        (length instance.now.rows) bits.items) }
{
    let mut bits = Vec::new(alloc);
    for u in 0..instance.customer_count() + 1 {
        bits.push(bit(instance, k, v, u))?;
    }
    Ok(bits)
}
