//! Customers that are in no route.

use std::alloc::{AllocError, Global};

/// The customers that are in no route, and how often each was left out: those that seldom fit come to
/// outweigh several that often do, which then make room for them (Christiaens and Vanden Berghe 2020). No
/// list outgrows its first room.
#[derive(Drop)]
pub(crate) struct Absence {
    /// Those without a route before the trial.
    pub(crate) absent: Vec<u16>,
    /// Those whom the trial leaves out.
    pub(crate) left_out: Vec<u16>,
    /// By row one more than the trials that left the customer out.
    misses: Vec<i32>,
}

impl Absence {
    /// None of this many customers is absent.
    pub(crate) fn new(alloc: Global, customers: usize) -> Result<Absence, AllocError> {
        Ok(Absence {
            absent: Vec::with_capacity(alloc, customers)?,
            left_out: Vec::with_capacity(alloc, customers)?,
            misses: vec![in alloc; 1; customers.saturating_add(1)]?,
        })
    }

    /// The misses of a customer.
    pub(crate) fn misses_of(&self, customer: u16) -> i32 {
        let misses = self.misses.get(usize::from(customer));
        misses.copied().unwrap_or(0)
    }

    /// The misses of all absent customers; 0 where none is absent.
    pub(crate) fn sum(&self) -> i64 {
        let mut sum: i64 = 0;
        for customer in &self.absent {
            sum = sum.saturating_add(i64::from(self.misses_of(*customer)));
        }
        sum
    }

    /// Leaves a customer out, and answers its misses before.
    pub(crate) fn leave_out(&mut self, customer: u16) -> i32 {
        let before = self.misses_of(customer);
        let _ = self.left_out.push(customer);
        if let Some(misses) = self.misses.get_mut(usize::from(customer)) {
            *misses = before.saturating_add(1);
        }
        before
    }
}
