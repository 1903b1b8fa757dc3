//! What an instance says of its rows, in tables that are quick to read.

ghost use Rattle.std.specs.Prelude.{◌<◌, length};

use crate::side::{Newcomer, Stop};
use solomon_reader::Instance;
use std::alloc::{AllocError, Global};

/// How many tenths longer a route gets by a customer that doesn't fit there.
pub(crate) const NOWHERE: i32 = i32::MAX;

/// What is asked for at a row: load, and times in tenths.
#[derive(Clone, Copy, Default)]
pub(crate) struct Visit {
    pub(crate) demand: i32,
    pub(crate) ready: i32,
    pub(crate) due: i32,
    pub(crate) service: i32,
    /// How long a route to this customer alone is in tenths; `NOWHERE` where no vehicle can make it.
    pub(crate) alone: i32,
}

/// The rows of an instance: 0 is the depot, and the others are the customers.
#[derive(Drop)]
pub(crate) struct Tables {
    /// By row.
    visits: Vec<Visit>,
    /// By row.
    distances: Vec<Distances>,
    /// By row all customers, by their distance from it, itself first.
    pub(crate) nearest: Vec<Vec<u16>>,
    capacity: i32,
}

impl Visit {
    /// When a vehicle that arrives so leaves at the earliest.
    pub(crate) fn leaving(self, arrival: i32) -> i32 {
        arrival.max(self.ready).saturating_add(self.service)
    }
}

/// A distance in tenths, in as many bytes as it needs.
pub(crate) trait Distance: Copy {
    /// In tenths.
    fn tenths(self) -> i32;
}

impl Distance for u16 {
    fn tenths(self) -> i32 {
        i32::from(self)
    }
}

impl Distance for i32 {
    fn tenths(self) -> i32 {
        self
    }
}

/// The distance to a row in tenths, among all distances from one row.
pub(crate) fn distance_in<D: Distance>(distances: &[D], to: u16) -> i32 {
    let distance = distances.get(usize::from(to));
    distance.map_or(0, |distance| distance.tenths())
}

/// The distances from a row in tenths, by row. To look them up is what trials do most, so they take as few bytes
/// as they can, and more of them stay in the processor's cache.
#[derive(Drop)]
pub(crate) enum Distances {
    /// Each below 2^16.
    Short(Vec<u16>),
    Long(Vec<i32>),
}

impl Distances {
    /// The distances of an instance from a row.
    fn new(alloc: Global, instance: &Instance, row: u16) -> Result<Distances, AllocError>
        requires { row < length instance.now.rows }
    {
        let long = distances_of(alloc, instance, row)?;
        let mut short = Vec::new(alloc);
        for distance in &long {
            let Ok(distance) = u16::try_from(*distance) else {
                return Ok(Distances::Long(long));
            };
            short.push(distance)?;
        }
        Ok(Distances::Short(short))
    }

    /// The distance to a row in tenths.
    pub(crate) fn to(&self, row: u16) -> i32 {
        match self {
            Distances::Short(short) => distance_in(short.as_slice(), row),
            Distances::Long(long) => distance_in(long.as_slice(), row),
        }
    }
}

/// What is asked for at a row.
fn visit_of(instance: &Instance, row: u16) -> Visit
    requires { row < length instance.now.rows }
{
    instance.law_of_limits();
    let there = instance.distance(0, row).get() as i32;
    let mut visit = Visit {
        demand: i32::from(instance.demand(row)),
        ready: instance.ready(row) as i32,
        due: instance.due(row) as i32,
        service: instance.service(row) as i32,
        alone: NOWHERE,
    };
    let arrival = there.saturating_add(instance.ready(0) as i32);
    let back = visit.leaving(arrival).saturating_add(there);
    let is_light = instance.demand(row) <= instance.capacity();
    if is_light && arrival <= visit.due && back <= instance.due(0) as i32 {
        visit.alone = there.saturating_add(there);
    }
    visit
}

/// The distances from a row in tenths, by row.
fn distances_of(alloc: Global, instance: &Instance, row: u16) -> Result<Vec<i32>, AllocError>
    requires { row < length instance.now.rows }
{
    let mut distances = Vec::new(alloc);
    for to in 0..instance.customer_count() + 1 {
        distances.push(instance.distance(row, to).get() as i32)?;
    }
    Ok(distances)
}

/// This many customers by their distance from a row, itself first.
fn nearest_of(
    alloc: Global,
    count: u16,
    row: u16,
    distances: &Distances,
) -> Result<Vec<u16>, AllocError> {
    let mut customers = Vec::new(alloc);
    for customer in 1..=count {
        customers.push(customer)?;
    }
    customers.sort_unstable_by_key(|c| (*c != row, distances.to(*c), *c));
    Ok(customers)
}

impl Tables {
    /// The tables of an instance.
    pub(crate) fn new(alloc: Global, instance: &Instance) -> Result<Tables, AllocError> {
        let count = instance.customer_count();
        let mut visits = Vec::new(alloc);
        let mut distances = Vec::new(alloc);
        let mut nearest = Vec::new(alloc);
        for row in 0..count + 1 {
            let from = Distances::new(alloc, instance, row)?;
            nearest.push(nearest_of(alloc, count, row, &from)?)?;
            distances.push(from)?;
            visits.push(visit_of(instance, row))?;
        }
        Ok(Tables {
            visits,
            distances,
            nearest,
            capacity: i32::from(instance.capacity()),
        })
    }

    /// What is asked for at a row.
    pub(crate) fn visit(&self, row: u16) -> Visit {
        let visit = self.visits.get(usize::from(row));
        visit.copied().unwrap_or_default()
    }

    /// The distance between two rows in tenths.
    pub(crate) fn distance(&self, from: u16, to: u16) -> i32 {
        let distances = self.distances.get(usize::from(from));
        distances.map_or(0, |distances| distances.to(to))
    }

    /// The greatest load of a route.
    pub(crate) fn capacity(&self) -> i32 {
        self.capacity
    }

    /// The load of these stops.
    pub(crate) fn load_of(&self, stops: &[Stop]) -> i32 {
        let mut load: i32 = 0;
        for stop in stops {
            load = load.saturating_add(self.visit(stop.customer).demand);
        }
        load
    }

    /// A customer that is to be put into a route, behind this stop or a later one.
    pub(crate) fn newcomer(&self, customer: u16, first: usize) -> Option<Newcomer<'_>> {
        let visit = self.visit(customer);
        Some(Newcomer {
            visit,
            distances: self.distances.get(usize::from(customer))?,
            most_load: self.capacity.saturating_sub(visit.demand),
            first,
        })
    }
}
