//! One side of a slot: a route with its times.

use crate::tables::{Distance, Distances, NOWHERE, Tables, Visit, distance_in};
use crate::window::Window;
use std::alloc::{AllocError, Global};

/// A stop of a route, with times in tenths.
#[derive(Clone, Copy)]
pub(crate) struct Stop {
    /// 0 at both ends, which are the depot.
    pub(crate) customer: u16,
    /// The distance to the next stop in tenths.
    arc: i32,
    /// When it is left at the earliest.
    leave: i32,
    /// When a vehicle has to arrive at the latest for this stop and all behind it; `UNKNOWN` until then.
    latest: i32,
}

/// A latest time that was not set yet.
const UNKNOWN: i32 = i32::MIN;

/// The cheapest place of a customer in a route.
#[derive(Clone, Copy)]
pub(crate) struct CheapestPlace {
    /// The version of the side for which this holds.
    pub(crate) version: u32,
    /// How many tenths longer the route gets; `NOWHERE` where no place fits.
    pub(crate) detour: i32,
    /// The stop behind which the customer goes.
    pub(crate) position: u16,
}

/// Nothing is known of a customer's place.
pub(crate) const UNSEEN: CheapestPlace = CheapestPlace {
    version: 0,
    detour: NOWHERE,
    position: 0,
};

/// A route, with the depot at both ends; at most these where there is none.
#[derive(Drop)]
pub(crate) struct Side {
    /// From the first on with room for all customers, so that no call below asks for memory.
    pub(crate) stops: Vec<Stop>,
    pub(crate) load: i32,
    /// Another number after each change, among all sides.
    pub(crate) version: u32,
}

/// A customer that is to be put into a route.
#[derive(Clone, Copy)]
pub(crate) struct Newcomer<'t> {
    pub(crate) visit: Visit,
    /// From the customer.
    pub(crate) distances: &'t Distances,
    /// The greatest load of a route that can take it.
    pub(crate) most_load: i32,
    /// The first stop behind which it may go.
    pub(crate) first: usize,
}

impl Newcomer<'_> {
    /// The least detour between two of these stops in tenths, `NOWHERE` where none fits; the stop behind
    /// which the customer goes; and how many places were passed. Times and distances are far below 2^30, so
    /// no sum here wraps.
    fn least_detour<D: Distance>(&self, distances: &[D], stops: &[Stop]) -> (i32, usize, usize) {
        let (mut least, mut position) = (NOWHERE, 0);
        let Some((first, others)) = stops.split_first() else {
            return (least, position, 0);
        };
        let Visit {
            ready,
            due,
            service,
            ..
        } = self.visit;
        let (mut leave, mut arc) = (first.leave, first.arc);
        let mut there = distance_in(distances, first.customer);
        for (number, behind) in others.iter().enumerate() {
            let arrival = leave.wrapping_add(there);
            // Later places are later still.
            if arrival > due {
                return (least, position, number);
            }
            let onward = distance_in(distances, behind.customer);
            let detour = there.wrapping_add(onward).wrapping_sub(arc);
            let next = arrival
                .max(ready)
                .wrapping_add(service)
                .wrapping_add(onward);
            if detour < least && next <= behind.latest {
                least = detour;
                position = number;
            }
            (leave, arc, there) = (behind.leave, behind.arc, onward);
        }
        (least, position, others.len())
    }
}

impl Stop {
    /// Whether a vehicle that leaves here at the earliest is in time at a stop of another route, and at all behind
    /// that one.
    pub(crate) fn reaches(&self, tables: &Tables, other: &Stop) -> bool {
        let arc = tables.distance(other.customer, self.customer);
        self.leave.saturating_add(arc) <= other.latest
    }
}

impl Side {
    /// No route, with room for this many customers.
    pub(crate) fn new(alloc: Global, customers: usize) -> Result<Side, AllocError> {
        Ok(Side {
            stops: Vec::with_capacity(alloc, customers.saturating_add(2))?,
            load: 0,
            version: 0,
        })
    }

    /// The number of customers.
    pub(crate) fn customer_count(&self) -> usize {
        self.stops.len().saturating_sub(2)
    }

    /// The cost in tenths.
    pub(crate) fn cost(&self) -> i64 {
        let mut cost: i64 = 0;
        for stop in &self.stops {
            cost = cost.saturating_add(i64::from(stop.arc));
        }
        cost
    }

    /// Notes this slot for its customers.
    pub(crate) fn note_slot(&self, number: usize, slot_of: &mut [Option<usize>]) {
        let ends = self.stops.len().saturating_sub(1);
        for stop in self.stops.iter().take(ends).skip(1) {
            if let Some(slot) = slot_of.get_mut(usize::from(stop.customer)) {
                *slot = Some(number);
            }
        }
    }

    /// Adds the customers to a tour, and the depot behind them.
    pub(crate) fn add_to(&self, tour: &mut Vec<u16>) {
        for stop in self.stops.iter().skip(1) {
            let _ = tour.push(stop.customer);
        }
    }

    /// Finds the cheapest place of a customer, and answers how many places were passed.
    pub(crate) fn find_place(&self, newcomer: &Newcomer<'_>, place: &mut CheapestPlace) -> usize {
        place.version = self.version;
        place.detour = NOWHERE;
        if self.load > newcomer.most_load {
            return 0;
        }
        // Before stops whose latest time is too early no place fits.
        let leaving = newcomer.visit.leaving(newcomer.visit.ready);
        let mut behind = self.stops.iter().skip(1);
        let first = behind.position(|stop| stop.latest >= leaving);
        let first = first.unwrap_or(self.stops.len()).max(newcomer.first);
        let stops = self.stops.as_slice().get(first..).unwrap_or(&[]);
        let (detour, position, passed) = match newcomer.distances {
            Distances::Short(short) => newcomer.least_detour(short.as_slice(), stops),
            Distances::Long(long) => newcomer.least_detour(long.as_slice(), stops),
        };
        place.detour = detour;
        let position = first.saturating_add(position);
        place.position = position.min(usize::from(u16::MAX)) as u16;
        first.saturating_add(passed)
    }

    /// Sets when stops from this position on are left at the earliest, until one's time stays.
    fn set_leaving(&mut self, tables: &Tables, position: usize, before: Stop) {
        let mut before = before;
        let Some(stops) = self.stops.as_mut_slice().get_mut(position..) else {
            return;
        };
        for stop in stops.iter_mut() {
            let arrival = before.leave.saturating_add(before.arc);
            let leave = tables.visit(stop.customer).leaving(arrival);
            if leave == stop.leave {
                return;
            }
            stop.leave = leave;
            before = *stop;
        }
    }

    /// Sets the latest times of customers from this position back to the first, until one's stays.
    fn set_latest(&mut self, tables: &Tables, position: usize) {
        let end = position.saturating_add(1);
        let Some(mut latest) = self.stops.get(end).map(|stop| stop.latest) else {
            return;
        };
        let Some(stops) = self.stops.as_mut_slice().get_mut(1..end) else {
            return;
        };
        for stop in stops.iter_mut().rev() {
            let visit = tables.visit(stop.customer);
            let arriving = latest
                .saturating_sub(stop.arc)
                .saturating_sub(visit.service);
            latest = arriving.min(visit.due);
            if latest == stop.latest {
                return;
            }
            stop.latest = latest;
        }
    }

    /// Puts a customer behind the stop at a position, where it fits.
    pub(crate) fn put(&mut self, tables: &Tables, customer: u16, position: usize, version: u32) {
        let next = position.saturating_add(1);
        let Some(behind) = self.stops.get(next).map(|stop| stop.customer) else {
            return;
        };
        let Some(before) = self.stops.get_mut(position) else {
            return;
        };
        before.arc = tables.distance(customer, before.customer);
        let visit = tables.visit(customer);
        let stop = Stop {
            customer,
            arc: tables.distance(customer, behind),
            leave: visit.leaving(before.leave.saturating_add(before.arc)),
            latest: UNKNOWN,
        };
        if next <= self.stops.len() {
            let _ = self.stops.insert(next, stop);
        }
        self.load = self.load.saturating_add(visit.demand);
        self.version = version;
        self.set_leaving(tables, next.saturating_add(1), stop);
        self.set_latest(tables, next);
    }

    /// Puts a row behind the last stop, and answers the distance from there in tenths; nothing where it would
    /// be late.
    fn append(&mut self, tables: &Tables, row: u16) -> Option<i32> {
        let visit = tables.visit(row);
        let (mut arrival, mut arc) = (visit.ready, 0);
        if let Some(last) = self.stops.last_mut() {
            arc = tables.distance(row, last.customer);
            arrival = last.leave.saturating_add(arc);
            last.arc = arc;
        }
        if arrival > visit.due {
            return None;
        }
        let _ = self.stops.push(Stop {
            customer: row,
            arc: 0,
            leave: visit.leaving(arrival),
            latest: if row == 0 { visit.due } else { UNKNOWN },
        });
        self.load = self.load.saturating_add(visit.demand);
        Some(arc)
    }

    /// Becomes empty, without the depot too.
    fn begin(&mut self, version: u32) {
        self.stops.clear();
        self.load = 0;
        self.version = version;
    }

    /// Becomes a route to one customer.
    pub(crate) fn open(&mut self, tables: &Tables, customer: u16, version: u32) {
        self.begin(version);
        for row in [0, customer, 0] {
            let _ = self.append(tables, row);
        }
        self.set_latest(tables, 1);
    }

    /// Becomes another route without the stops of a window, and answers by how many tenths it is longer;
    /// nothing where it would be late, as it may be where distances break the triangle's law.
    pub(crate) fn cut(
        &mut self,
        tables: &Tables,
        route: &Side,
        window: Window,
        version: u32,
    ) -> Option<i64> {
        self.begin(version);
        let mut change: i64 = 0;
        for (position, stop) in route.stops.iter().enumerate() {
            change = change.saturating_sub(i64::from(stop.arc));
            if !window.takes(position) {
                let arc = self.append(tables, stop.customer)?;
                change = change.saturating_add(i64::from(arc));
            }
        }
        self.set_latest(tables, self.customer_count());
        Some(change)
    }

    /// Becomes a route of a head and a tail, and answers its cost in tenths; nothing where it would be late.
    pub(crate) fn join(
        &mut self,
        tables: &Tables,
        head: &[Stop],
        tail: &[Stop],
        version: u32,
    ) -> Option<i64> {
        self.begin(version);
        let mut cost: i64 = 0;
        for stop in head.iter().chain(tail) {
            let arc = self.append(tables, stop.customer)?;
            cost = cost.saturating_add(i64::from(arc));
        }
        self.set_latest(tables, self.customer_count());
        Some(cost)
    }
}
