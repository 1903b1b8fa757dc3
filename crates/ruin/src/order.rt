//! In which order customers are put back.

use crate::drawing::below;
use crate::tables::Tables;
use rand_core::Rng;

/// A customer that is to be put back.
#[derive(Clone, Copy)]
pub(crate) struct Removed {
    pub(crate) customer: u16,
    /// Those of lesser keys are put back first.
    pub(crate) key: (i32, u32),
    /// The slot that it was put into.
    pub(crate) slot: Option<usize>,
}

impl Removed {
    /// A customer that stands in no slot.
    pub(crate) fn new(customer: u16) -> Removed {
        Removed {
            customer,
            key: (0, 0),
            slot: None,
        }
    }
}

/// An order of insertion.
#[derive(Clone, Copy)]
pub(crate) enum Order {
    /// At random.
    Drawn,
    /// Those of great demand first.
    Demand,
    /// Those far from the depot first.
    Far,
    /// Those near to the depot first.
    Near,
    /// Those of a narrow window first.
    Narrow,
    /// Those that are ready early first.
    Early,
    /// Those that are due late first.
    Late,
    /// Those that were left out most often first.
    Missed,
}

impl Order {
    /// A random order, of which some are likelier than others.
    pub(crate) fn draw<R: Rng>(random: &mut R) -> Order {
        match below(random, 15) {
            0..=3 => Order::Drawn,
            4..=7 => Order::Demand,
            8..=9 => Order::Far,
            10 => Order::Near,
            11..=12 => Order::Narrow,
            13 => Order::Early,
            _ => Order::Late,
        }
    }

    /// The key of a customer of these misses: those of lesser keys go first.
    pub(crate) fn key(self, tables: &Tables, customer: u16, misses: i32) -> i32 {
        let visit = tables.visit(customer);
        let far = tables.distance(customer, 0);
        match self {
            Order::Drawn => 0,
            Order::Demand => 0i32.saturating_sub(visit.demand),
            Order::Far => 0i32.saturating_sub(far),
            Order::Near => far,
            Order::Narrow => visit.due.saturating_sub(visit.ready),
            Order::Early => visit.ready,
            Order::Late => 0i32.saturating_sub(visit.due),
            Order::Missed => 0i32.saturating_sub(misses),
        }
    }
}
