//! Which routes visit each customer.

use pooled_routes::{PooledCut, WeightedRoute};
use std::alloc::{AllocError, Global};

/// The routes that visit each customer.
#[derive(Drop)]
pub(crate) struct Visits<'r> {
    routes: Vec<Vec<WeightedRoute<'r>>>,
}

impl<'r> Visits<'r> {
    /// The visits of no routes to so many customers.
    fn empty(alloc: Global, customers: u16) -> Result<Visits<'r>, AllocError> {
        let mut routes = Vec::new(alloc);
        for _row in 0..usize::from(customers).saturating_add(1) {
            routes.push(Vec::new(alloc))?;
        }
        Ok(Visits { routes })
    }

    /// The visits of these routes to so many customers.
    pub(crate) fn new(
        alloc: Global,
        customers: u16,
        routes: &[WeightedRoute<'r>],
    ) -> Result<Visits<'r>, AllocError> {
        let mut visits = Visits::empty(alloc, customers)?;
        for route in routes {
            visits.add(*route)?;
        }
        Ok(visits)
    }

    /// Adds a route to each of its stops, at a customer's first visit.
    fn add(&mut self, route: WeightedRoute<'r>) -> Result<(), AllocError> {
        for (place, stop) in route.stops.iter().enumerate() {
            let is_first = !route.stops.iter().take(place).any(|before| before == stop);
            if let Some(routes) = self.routes.get_mut(usize::from(*stop))
                && is_first
            {
                routes.push(route)?;
            }
        }
        Ok(())
    }

    /// How much the routes weigh that visit a customer but none of these, each as often as a row charges it, and how many
    /// stops they have.
    fn charged_at(&self, row: &PooledCut, customer: u16, others: &[u16]) -> (i64, u64) {
        let (mut sum, mut stops): (i64, u64) = (0, 0);
        let Some(routes) = self.routes.get(usize::from(customer)) else {
            return (0, 0);
        };
        for route in routes {
            if others.iter().any(|other| route.stops.contains(other)) {
                continue;
            }
            let charges = i64::from(row.count(route.stops));
            sum = sum.saturating_add(route.weight.saturating_mul(charges));
            stops = stops.saturating_add(route.stops.len() as u64);
        }
        (sum, stops)
    }

    /// How much the routes weigh, each as often as a row of these three charges it, and how many stops they have.
    pub(crate) fn charged(&self, row: &PooledCut, members: [u16; 3]) -> (i64, u64) {
        let [a, b, c] = members;
        let (first, few) = self.charged_at(row, a, &[]);
        let (second, more) = self.charged_at(row, b, &[a]);
        let (third, most) = self.charged_at(row, c, &[a, b]);
        let sum = first.saturating_add(second).saturating_add(third);
        (sum, few.saturating_add(more).saturating_add(most))
    }
}
