//! Three customers of whom pairs weigh much.

use crate::pair_weights::{PairWeights, Partner};
use std::alloc::{AllocError, Global};

/// Three customers, with how much charged routes weigh at most, as far as none comes back to a customer.
#[derive(Clone, Copy)]
pub(crate) struct Candidate {
    /// In increasing order.
    pub(crate) members: [u16; 3],
    pub(crate) weight: i64,
}

/// The candidates, and how often a pair was looked at.
#[derive(Drop)]
pub(crate) struct Candidates {
    pub(crate) list: Vec<Candidate>,
    pub(crate) work: u64,
}

/// Three customers in increasing order.
fn increasing(a: u16, b: u16, c: u16) -> [u16; 3] {
    let (low, high) = (a.min(b), a.max(b));
    [low.min(c), low.max(high.min(c)), high.max(c)]
}

impl Candidates {
    /// Adds the three that a customer, one of its partners and each of those behind it come to, where they weigh more
    /// than so much. The two pairs of that customer are to be the heaviest ones, so they have two thirds of it.
    fn add_with(
        &mut self,
        pairs: &PairWeights,
        customer: u16,
        partners: &[Partner],
        place: usize,
        least: i64,
    ) -> Result<(), AllocError> {
        let Some(one) = partners.get(place).copied() else {
            return Ok(());
        };
        for other in partners.iter().skip(place.saturating_add(1)) {
            self.work = self.work.saturating_add(1);
            let two = one.weight.saturating_add(other.weight);
            if two < (least / 3).saturating_mul(2) {
                return Ok(());
            }
            let weight = two.saturating_add(pairs.of(one.customer, other.customer));
            if weight > least {
                let members = increasing(customer, one.customer, other.customer);
                self.list.push(Candidate { members, weight })?;
            }
        }
        Ok(())
    }

    /// Adds the three that a customer and two of its partners come to.
    fn add_at(&mut self, pairs: &PairWeights, customer: u16, least: i64) -> Result<(), AllocError> {
        let partners = pairs.partners(customer)?;
        for place in 0..partners.len() {
            self.add_with(pairs, customer, partners.as_slice(), place, least)?;
        }
        Ok(())
    }

    /// All threes of so many customers that weigh more than so much; one may be there twice.
    pub(crate) fn of(
        alloc: Global,
        pairs: &PairWeights,
        customers: u16,
        least: i64,
    ) -> Result<Candidates, AllocError> {
        let mut candidates = Candidates {
            list: Vec::new(alloc),
            work: 0,
        };
        for customer in 1..customers.saturating_add(1) {
            candidates.add_at(pairs, customer, least)?;
        }
        Ok(candidates)
    }

    /// At most so many of them, the heaviest ones, each once.
    pub(crate) fn heaviest(
        mut self,
        alloc: Global,
        most: usize,
    ) -> Result<Vec<Candidate>, AllocError> {
        self.list.sort_by_key(|three| (i64::MAX.saturating_sub(three.weight), three.members))?;
        let mut heaviest: Vec<Candidate> = Vec::new(alloc);
        for three in &self.list {
            let is_new = heaviest
                .last()
                .is_none_or(|last| last.members != three.members);
            if is_new && heaviest.len() < most {
                heaviest.push(*three)?;
            }
        }
        Ok(heaviest)
    }
}
