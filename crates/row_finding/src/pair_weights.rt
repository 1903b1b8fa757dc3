//! How much of the routes visits two customers.

use pooled_routes::WeightedRoute;
use std::alloc::{AllocError, Global};

/// A customer whom routes visit that visit another one, with how much they weigh.
#[derive(Clone, Copy)]
pub(crate) struct Partner {
    pub(crate) customer: u16,
    pub(crate) weight: i64,
}

/// How much the routes weigh that visit both of two customers.
#[derive(Drop)]
pub(crate) struct PairWeights {
    alloc: Global,
    weights: Vec<Vec<i64>>,
}

/// Each customer of a route once.
fn distinct(alloc: Global, stops: &[u16]) -> Result<Vec<u16>, AllocError> {
    let mut customers: Vec<u16> = Vec::new(alloc);
    for stop in stops {
        if !customers.contains(stop) {
            customers.push(*stop)?;
        }
    }
    Ok(customers)
}

impl PairWeights {
    /// The weights without routes.
    fn empty(alloc: Global, customers: u16) -> Result<PairWeights, AllocError> {
        let rows = usize::from(customers).saturating_add(1);
        let mut weights = Vec::new(alloc);
        for _row in 0..rows {
            weights.push(vec![in alloc; 0; rows]?)?;
        }
        Ok(PairWeights { alloc, weights })
    }

    /// The weights of these routes of so many customers.
    pub(crate) fn new(
        alloc: Global,
        customers: u16,
        routes: &[WeightedRoute<'_>],
    ) -> Result<PairWeights, AllocError> {
        let mut pairs = PairWeights::empty(alloc, customers)?;
        for route in routes {
            let visited = distinct(alloc, route.stops)?;
            pairs.add(visited.as_slice(), route.weight);
        }
        Ok(pairs)
    }

    /// Adds a route that visits these customers.
    fn add(&mut self, visited: &[u16], weight: i64) {
        for customer in visited {
            self.add_partners(*customer, visited, weight);
        }
    }

    /// Adds a route that visits a customer to what weighs with each of these.
    fn add_partners(&mut self, customer: u16, visited: &[u16], weight: i64) {
        let Some(row) = self.weights.get_mut(usize::from(customer)) else {
            return;
        };
        for other in visited {
            if let Some(pair) = row.get_mut(usize::from(*other)) {
                *pair = pair.saturating_add(weight);
            }
        }
    }

    /// What weighs with each customer.
    fn row(&self, customer: u16) -> &[i64] {
        match self.weights.get(usize::from(customer)) {
            Some(row) => row.as_slice(),
            None => &[],
        }
    }

    /// How much the routes weigh that visit both.
    pub(crate) fn of(&self, one: u16, other: u16) -> i64 {
        let pair = self.row(one).get(usize::from(other));
        pair.copied().unwrap_or(0)
    }

    /// The customers whom routes visit that visit this one, those first that weigh most.
    pub(crate) fn partners(&self, customer: u16) -> Result<Vec<Partner>, AllocError> {
        let mut partners = Vec::new(self.alloc);
        let mut other: u16 = 0;
        for weight in self.row(customer) {
            if *weight > 0 && other != customer {
                partners.push(Partner {
                    customer: other,
                    weight: *weight,
                })?;
            }
            other = other.saturating_add(1);
        }
        partners.sort_by_key(|partner| i64::MAX.saturating_sub(partner.weight))?;
        Ok(partners)
    }
}
