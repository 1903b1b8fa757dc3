//! The ledgers of a desk.

use crate::naming::Naming;
use std::marker::PhantomData;
use std::sync::ledger::Ledger;

/// One of the ten things that a desk counts or sums.
pub trait Counted {
    ghost use Rattle.std.specs.Prelude.{ℕ};
    ghost use Rattle.desk.specs.Tally.{Tally};

    ghost place: { Tally → ℕ };
}

/// The ledger of one of them, cut into a part for each worker.
pub struct LedgerOf<J: Naming, C: Counted> {
    of: PhantomData<(J, C)>,
}

impl<J: Naming, C: Counted> Ledger for LedgerOf<J, C> {
    ghost name = { C.place J.names };

    ghost parts = { J.workers };
}

/// The accepted offers.
pub struct Accepted;

impl Counted for Accepted {
    ghost place = { λ t. t.accepted };
}

/// The better offers.
pub struct Better;

impl Counted for Better {
    ghost place = { λ t. t.better };
}

/// The reprices.
pub struct Repriced;

impl Counted for Repriced {
    ghost place = { λ t. t.repriced };
}

/// The splits.
pub struct Split;

impl Counted for Split {
    ghost place = { λ t. t.split };
}

/// The workers' numbers, once for each accepted call.
pub struct Workers;

impl Counted for Workers {
    ghost place = { λ t. t.workers };
}

/// The costs of the accepted offers.
pub struct Costs;

impl Counted for Costs {
    ghost place = { λ t. t.costs };
}

/// The reprices' values.
pub struct Values;

impl Counted for Values {
    ghost place = { λ t. t.values };
}

/// The leaves that the reprices named.
pub struct RepricedLeaves;

impl Counted for RepricedLeaves {
    ghost place = { λ t. t.repriced_leaves };
}

/// The leaves that the splits named.
pub struct SplitLeaves;

impl Counted for SplitLeaves {
    ghost place = { λ t. t.split_leaves };
}

/// The numbers that the splits made.
pub struct Made;

impl Counted for Made {
    ghost place = { λ t. t.made };
}
