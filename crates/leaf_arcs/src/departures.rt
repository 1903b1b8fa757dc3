//! When vehicles may leave the customers at the earliest, by their loads. Nothing is proved of it: it only spares
//! floors that no route needs.

ghost use Rattle.std.specs.Prelude.{◌<◌, length};

use solomon_reader::Instance;
use std::alloc::{AllocError, Global};

/// Notes that a row may be left at a time, where that is the earliest so far.
fn note(times: &mut [u64], place: u64, time: u64) {
    if let Some(earliest) = times.get_mut(place as usize) {
        *earliest = time.min(*earliest);
    }
}

/// Notes when the customers may be left to which a vehicle goes on that leaves a row at a time, with a load in
/// this slot. It may be any load of the slot, so that the next one is in one of two.
fn go_on(instance: &Instance, slot_length: u64, times: &mut [u64], slot: u64, u: u16, time: u64)
    requires { u < length instance.now.rows }
{
    let rows = u64::from(instance.customer_count()) + 1;
    let least = slot.saturating_mul(slot_length);
    let most = least.saturating_add(slot_length).saturating_sub(1);
    for v in 1..instance.customer_count() + 1 {
        let arrives = time.saturating_add(instance.distance(u, v).get());
        let begins = arrives.max(instance.ready(v));
        if v != u && begins <= instance.due(v) {
            let leaves = begins.saturating_add(instance.service(v));
            let demand = u64::from(instance.demand(v));
            let first = least.saturating_add(demand) / slot_length.max(1);
            let last = most.saturating_add(demand) / slot_length.max(1);
            let row = u64::from(v);
            note(
                times,
                first.saturating_mul(rows).saturating_add(row),
                leaves,
            );
            note(times, last.saturating_mul(rows).saturating_add(row), leaves);
        }
    }
}

/// When a vehicle may leave each row at the earliest, in tenths, by the slot of its load: those of a slot side by
/// side, the greatest number where no route leaves a row so. Slots are no longer than the least demand.
pub(crate) fn departures(
    alloc: Global,
    instance: &Instance,
    slot_length: u64,
) -> Result<Vec<u64>, AllocError> {
    let rows = usize::from(instance.customer_count()) + 1;
    let slots = u64::from(instance.capacity()) / slot_length.max(1) + 1;
    let mut times = vec![in alloc; u64::MAX; rows.saturating_mul(slots as usize)]?;
    note(times.as_mut_slice(), 0, instance.ready(0));
    for place in 0..times.len() {
        let (slot, u, time) = ((place / rows) as u64, (place % rows) as u16, times[place]);
        if time < u64::MAX && u <= instance.customer_count() {
            go_on(instance, slot_length, times.as_mut_slice(), slot, u, time);
        }
    }
    Ok(times)
}
