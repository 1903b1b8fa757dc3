//! The slots of time and load for which floors are kept. They carry no proof: a floor is asked whether it
//! holds.

ghost use Rattle.std.specs.Prelude.{◌<◌, ◌≤◌, length, IfSome};

use crate::departures::departures;
use solomon_reader::Instance;
use std::alloc::{AllocError, Global};

/// The most slots of time that a customer has in the mean where there are many leaves, and where there is
/// one, unless a slot were then longer than the shortest step.
const FEW_SLOTS: u64 = 8;

const MANY_SLOTS: u64 = 64;

/// The most slots of time that a customer has in the mean for all leaves together, where they have more
/// than few.
const SHARED_SLOTS: u64 = 512;

/// The most slots.
const MOST_SLOTS: u64 = 1_000_000;

/// The most slots of load that a time has, unless the least demand were then less than one.
const LOAD_SLOTS: u64 = 64;

/// In place of the shift where all times are in one slot.
const ONE_SLOT: u32 = 63;

/// In place of the length where all loads are in one slot.
const ANY_LOAD: u64 = 1_000_000;

/// From when on a floor holds.
#[derive(Clone, Copy, PartialEq, Eq, PartialOrd, Ord)]
pub(crate) struct Start {
    /// What is loaded then at least.
    pub(crate) loaded: usize,
    /// When a vehicle leaves the row at the earliest, in tenths.
    pub(crate) from: u64,
    /// The row.
    pub(crate) row: u16,
}

/// How long slots are.
#[derive(Clone, Copy)]
struct Lengths {
    /// A slot of time is 2 to the power of this in tenths.
    time_shift: u32,
    /// A slot of load is that long.
    load: u64,
    ghost by_time: { time_shift < 64 },
    ghost by_load: { 1 ≤ load },
}

/// The first and the last slot in which a vehicle may leave a row, by time and by load.
#[derive(Clone, Copy)]
struct Ends {
    first_time: u64,
    last_time: u64,
    first_load: u64,
    last_load: u64,
}

/// Where the floors of a row stand.
#[derive(Clone, Copy)]
struct RowSlots {
    /// Where that of the time 0 and the load 0 stood, if there were one.
    origin: u64,
    /// How many slots of load a time has.
    loads: u64,
}

/// Slots from 0 on. Each customer has one for each in which a vehicle may leave it, and, where that is known, may
/// have come to it with such a load.
#[derive(Drop)]
pub(crate) struct Slots {
    /// A slot of time is 2 to the power of this in tenths.
    time_shift: u32,
    /// 2 to the power of 32 over the length of a slot of load, rounded up.
    load_factor: u64,
    rows: Vec<RowSlots>,
    /// How many places there are, those between the slots counted.
    pub(crate) places: usize,
    /// Each step leads from the beginning of a slot into one that stands before it.
    pub(crate) starts: Vec<Start>,
    ghost by_time: { time_shift < 64 },
}

/// What a step from a customer to another one takes at least, in tenths.
fn shortest_from(instance: &Instance, i: u16) -> u64
    requires { i < length instance.now.rows }
{
    let mut shortest = u64::MAX;
    for j in 1..instance.customer_count() + 1 {
        if j != i {
            shortest = shortest.min(instance.distance(i, j).get() + instance.service(j));
        }
    }
    shortest
}

/// What a step between two customers takes at least, in tenths.
fn shortest(instance: &Instance) -> u64 {
    let mut shortest = u64::MAX;
    for i in 1..instance.customer_count() + 1 {
        shortest = shortest.min(shortest_from(instance, i));
    }
    shortest
}

/// The greatest common divisor of two numbers; 1 where they have none.
fn common_divisor(a: u64, b: u64) -> u64
    ensures { 1 ≤ result }
{
    let (mut a, mut b) = (a, b);
    for _turn in 0..64 {
        if b == 0 {
            break;
        }
        (a, b) = (b, a % b);
    }
    a.max(1)
}

/// The length of slots of load: what divides all demands, or a multiple of it that leaves few slots, but no
/// more than the least demand.
fn load_length(instance: &Instance) -> u64
    ensures { 1 ≤ result }
{
    let (mut divisor, mut least) = (0, u64::MAX);
    for i in 1..instance.customer_count() + 1 {
        let demand = u64::from(instance.demand(i));
        (divisor, least) = (common_divisor(divisor, demand), demand.min(least));
    }
    let divisor = divisor.max(1);
    let slots = u64::from(instance.capacity()) / divisor;
    let times = (slots / LOAD_SLOTS).saturating_add(1);
    divisor.saturating_mul(times.min(least / divisor).max(1))
}

/// The first and the last slots in which a vehicle may leave a customer.
fn ends_of(instance: &Instance, lengths: Lengths, v: u16) -> Ends
    requires v { v < length instance.now.rows }
{
    let service = instance.service(v);
    Ends {
        first_time: (instance.ready(v) + service) >> lengths.time_shift,
        last_time: (instance.due(v) + service) >> lengths.time_shift,
        first_load: u64::from(instance.demand(v)) / lengths.load,
        last_load: u64::from(instance.capacity()) / lengths.load,
    }
}

/// How many slots of time, and how many of load.
fn counts(ends: Ends) -> (u64, u64) {
    let times = ends.last_time.saturating_sub(ends.first_time);
    let loads = ends.last_load.saturating_sub(ends.first_load);
    (times.saturating_add(1), loads.saturating_add(1))
}

/// How many slots of these lengths all customers have.
fn count_at(instance: &Instance, lengths: Lengths) -> u64 {
    let mut count: u64 = 0;
    for v in 1..instance.customer_count() + 1 {
        let (times, loads) = counts(ends_of(instance, lengths, v));
        count = count.saturating_add(times.saturating_mul(loads));
    }
    count
}

/// The length of slots of time, where all loads are in one; `None` where there are to be none. It is no
/// more than the shortest step.
fn time_lengths(instance: &Instance, mean: u64) -> Option<Lengths> {
    let most = mean.saturating_mul(u64::from(instance.customer_count()));
    let shortest = shortest(instance);
    if shortest == 0 {
        return None;
    }
    for time_shift in 0..ONE_SLOT {
        let lengths = Lengths {
            time_shift,
            load: ANY_LOAD,
        };
        let count = count_at(instance, lengths);
        let is_last = shortest >> time_shift < 2;
        if count <= most || is_last && count <= MOST_SLOTS {
            return Some(lengths);
        }
        if is_last {
            return None;
        }
    }
    None
}

/// The lengths of slots of time and load: a customer has this many in the mean, or fewer.
fn both_lengths(instance: &Instance, mean: u64) -> Option<Lengths> {
    let most = mean.saturating_mul(u64::from(instance.customer_count()));
    let load = load_length(instance);
    for time_shift in 0..ONE_SLOT {
        let lengths = Lengths { time_shift, load };
        if count_at(instance, lengths) <= most {
            return Some(lengths);
        }
    }
    None
}

/// Where the floors of each row stand: those of a time side by side, by load.
fn row_slots(
    alloc: Global,
    instance: &Instance,
    lengths: Lengths,
) -> Result<Vec<RowSlots>, AllocError> {
    let mut rows = Vec::new(alloc);
    let mut place: u64 = 0;
    rows.push(RowSlots {
        origin: u64::MAX,
        loads: 0,
    })?;
    for v in 1..instance.customer_count() + 1 {
        let ends = ends_of(instance, lengths, v);
        let (times, loads) = counts(ends);
        let first = ends.first_time.saturating_mul(loads);
        rows.push(RowSlots {
            origin: place.wrapping_sub(first.saturating_add(ends.first_load)),
            loads,
        })?;
        place = place.saturating_add(times.saturating_mul(loads));
    }
    Ok(rows)
}

/// Adds the slots of a customer at a load, from when on it may be left so.
fn add_times(
    instance: &Instance,
    lengths: Lengths,
    earliest: Start,
    starts: &mut Vec<Start>,
) -> Result<(), AllocError>
    requires v { earliest.row < length instance.now.rows }
{
    let v = earliest.row;
    let last = ends_of(instance, lengths, v).last_time;
    let ready = instance.ready(v).saturating_add(instance.service(v));
    let earliest_time = earliest.from.max(ready);
    for slot in earliest_time >> lengths.time_shift..last.saturating_add(1) {
        starts.push(Start {
            loaded: earliest.loaded,
            from: (slot << lengths.time_shift).max(earliest_time),
            row: v,
        })?;
    }
    Ok(())
}

/// Adds the slots at a load. Departures are empty where they aren't known.
fn add_load(
    instance: &Instance,
    lengths: Lengths,
    departures: &[u64],
    slot: u64,
    starts: &mut Vec<Start>,
) -> Result<(), AllocError> {
    let loaded = slot.saturating_mul(lengths.load) as usize;
    let before = slot.saturating_mul(u64::from(instance.customer_count()) + 1);
    for row in 1..instance.customer_count() + 1 {
        if ends_of(instance, lengths, row).first_load <= slot {
            let place = before.saturating_add(u64::from(row)) as usize;
            let from = departures.get(place).copied().unwrap_or(0);
            add_times(instance, lengths, Start { loaded, from, row }, starts)?;
        }
    }
    Ok(())
}

impl Slots {
    /// No slots.
    pub(crate) fn none(alloc: Global) -> Slots {
        Slots {
            time_shift: ONE_SLOT,
            load_factor: 0,
            rows: Vec::new(alloc),
            places: 0,
            starts: Vec::new(alloc),
        }
    }

    /// The slots of these lengths, those of the greatest load first.
    fn of_lengths(
        alloc: Global,
        instance: &Instance,
        lengths: Lengths,
        departures: &[u64],
    ) -> Result<Slots, AllocError> {
        let last = u64::from(instance.capacity()) / lengths.load;
        let mut starts = Vec::new(alloc);
        for lower in 0..last.saturating_add(1) {
            let slot = last.saturating_sub(lower);
            add_load(instance, lengths, departures, slot, &mut starts)?;
        }
        Ok(Slots {
            time_shift: lengths.time_shift,
            load_factor: (1_u64 << 32).div_ceil(lengths.load),
            rows: row_slots(alloc, instance, lengths)?,
            places: count_at(instance, lengths) as usize,
            starts,
        })
    }

    /// Slots of time for this many leaves: the fewer there are, the more slots; none where a step may take no
    /// time, or there were more than are allowed. No contract: any slots are sound, since a floor is asked
    /// for its row, time and load.
    pub(crate) fn of_time(
        alloc: Global,
        instance: &Instance,
        leaves: usize,
    ) -> Result<Slots, AllocError> {
        let shared = SHARED_SLOTS / (leaves as u64).max(1);
        let mean = shared.max(FEW_SLOTS).min(MANY_SLOTS);
        let Some(lengths) = time_lengths(instance, mean) else {
            return Ok(Slots::none(alloc));
        };
        let mut slots = Slots::of_lengths(alloc, instance, lengths, &[])?;
        slots.starts.sort()?;
        slots.starts.reverse();
        Ok(slots)
    }

    /// Slots of time and load, for a customer this many in the mean, or fewer; none where a time alone
    /// has more. Each step adds a slot of load or more. When customers may be left is found where it isn't known.
    pub(crate) fn of_both(
        alloc: Global,
        instance: &Instance,
        mean: u64,
        known: &mut Vec<u64>,
    ) -> Result<Slots, AllocError> {
        let Some(lengths) = both_lengths(instance, mean) else {
            return Ok(Slots::none(alloc));
        };
        if known.is_empty() {
            *known = departures(alloc, instance, lengths.load)?;
        }
        Slots::of_lengths(alloc, instance, lengths, known.as_slice())
    }

    /// The place of the floor of a row at a time and a load.
    pub(crate) fn place(&self, v: u16, time: u64, load: usize) -> usize {
        let Some(row) = self.rows.get(usize::from(v)) else {
            return usize::MAX;
        };
        let load_slot = (load as u64).wrapping_mul(self.load_factor) >> 32;
        let time_slot = time >> self.time_shift;
        row.origin
            .wrapping_add(time_slot.wrapping_mul(row.loads))
            .wrapping_add(load_slot) as usize
    }
}
