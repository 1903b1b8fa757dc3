//! The rule of a cooling.

use crate::cooling::PARTS;
use crate::drawing::between;
use rand_core::Rng;

/// How warm a cooling begins, and how often trials do what. Each cooling draws its own rule, so that two of an
/// instance seldom end in the same valley.
#[derive(Clone, Copy)]
pub(crate) struct Rule {
    /// The first temperature, in hundredths of the cheapest plan's cost for each customer.
    first_hundredths: u64,
    /// This many trials of a hundred are short.
    pub(crate) short_percent: usize,
    /// Once in this many trials the first string is a whole route.
    pub(crate) whole: usize,
    /// Once in this many trials a route is begun with the first customer that is put back.
    pub(crate) opened: usize,
}

impl Rule {
    /// A random rule.
    pub(crate) fn draw<R: Rng>(random: &mut R) -> Rule {
        Rule {
            first_hundredths: between(random, 60, 100) as u64,
            short_percent: between(random, 20, 60),
            whole: between(random, 30, 100),
            opened: between(random, 30, 100),
        }
    }

    /// The first temperature in parts of a tenth, where the cheapest plan of this many customers costs this much
    /// tenths.
    pub(crate) fn first_temperature(self, cost: u64, customers: u64) -> u64 {
        let parts = cost.saturating_mul(PARTS);
        parts.saturating_mul(self.first_hundredths) / 100 / customers.max(1)
    }
}
