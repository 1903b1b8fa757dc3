//! The right to use the words.

ghost use Rattle.std.specs.Prelude.{◌≡◌, []};

use crate::law::Hand;
use atomic_table::Seat;

/// The right to put a cost and a bound, and what was put and answered with it: of costs the least,
/// of bounds the greatest.
#[derive(Drop)]
pub struct CeilingSeat {
    pub(crate) seat: Seat<(), Hand>,
    ghost one_part: { seat.me.0.parts ≡ 1 },
    ghost no_slot: { seat.me.1 ≡ [] },
}
