//! The law of the two words, and what each step tells its seat.

use atomic_table::{Join, Play, Split, TableRule};

/// What a seat put and was answered, the opening values with it, and its parts of the right to know
/// all. No value of it is made.
pub(crate) struct Hand {
    pub(crate) parts: u64,
    pub(crate) put_cost: u64,
    pub(crate) told_cost: u64,
    pub(crate) put_bound: u64,
    pub(crate) told_bound: u64,
}

/// What the words hold at first, and how many parts there are.
#[derive(Drop)]
pub(crate) struct Opening {
    pub(crate) parts: u64,
    pub(crate) cost: u64,
    pub(crate) bound: u64,
}

/// The law that each step keeps.
pub(crate) struct Law;

impl TableRule<(), Hand, Opening> for Law {
    ghost use Rattle.ceiling.specs.Hands.{IsLawful, first_hand};

    ghost holds = { IsLawful };

    ghost first = { first_hand };
}

/// A cost is put.
pub(crate) struct Lowers;

impl Play<(), Hand> for Lowers {
    ghost use Rattle.ceiling.specs.Hands.{Lowered};

    ghost then = { Lowered };
}

/// A bound is put.
pub(crate) struct Raises;

impl Play<(), Hand> for Raises {
    ghost use Rattle.ceiling.specs.Hands.{Raised};

    ghost then = { Raised };
}

/// The cost is read.
pub(crate) struct ReadsCost;

impl Play<(), Hand> for ReadsCost {
    ghost use Rattle.ceiling.specs.Hands.{SawCost};

    ghost then = { SawCost };
}

/// The bound is read.
pub(crate) struct ReadsBound;

impl Play<(), Hand> for ReadsBound {
    ghost use Rattle.ceiling.specs.Hands.{SawBound};

    ghost then = { SawBound };
}

/// A hand gives one of its parts to a new one, or takes in another.
pub(crate) struct Parts;

impl Split<Hand> for Parts {
    ghost use Rattle.ceiling.specs.Hands.{with_fewer, with_one};

    ghost left = { with_fewer };

    ghost right = { with_one };
}

impl Join<Hand> for Parts {
    ghost use Rattle.ceiling.specs.Hands.{together, idle_hand};

    ghost both = { together };

    ghost spent = { idle_hand };
}
