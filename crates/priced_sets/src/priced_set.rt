//! Sets of customers, with and without a price.

ghost use Rattle.std.specs.Prelude.{◌≡◌, IfOk};
ghost use Rattle.priced_sets.specs.Sets.{set_of, listed_set};
ghost use Rattle.solomon_reader.specs.SetPrices.{listed_of};

use std::alloc::AllocError;

/// A set of customers, and how often each plan enters it, at least.
#[derive(Debug, Drop)]
pub struct ListedSet {
    /// The customers, in increasing order.
    pub members: Vec<u16>,
    /// How often each plan enters the set, at least.
    pub need: u32,
}

/// A set of customers that routes are paid for each time that they enter it.
#[derive(Debug, Drop)]
pub struct PricedSet {
    /// The customers, in increasing order.
    pub members: Vec<u16>,
    /// How often each plan enters the set, at least.
    pub need: u32,
    /// What a route is paid each time that it enters the set, in grains.
    pub price: u64,
}

impl PricedSet {
    /// A copy, unless memory runs out.
    pub fn try_clone(&self) -> Result<PricedSet, AllocError>
        ensures { IfOk result (λ s. set_of s ≡ set_of self.now) }
    {
        Ok(PricedSet {
            members: self.members.clone()?,
            need: self.need,
            price: self.price,
        })
    }

    /// A copy without the price, unless memory runs out.
    pub fn listed(&self) -> Result<ListedSet, AllocError>
        ensures { IfOk result (λ s. listed_set s ≡ listed_of (set_of self.now)) }
    {
        Ok(ListedSet {
            members: self.members.clone()?,
            need: self.need,
        })
    }
}
