//! The end of the two words.

ghost use Rattle.std.specs.Prelude.{◌≡◌, ◌+◌, ◌∷◌, ◌++◌, [], All, vec_len};
ghost use Rattle.solomon_reader.specs.TwoWords.{Obeys};
ghost use Rattle.ceiling.specs.Hands.{account, opening};
ghost use Rattle.ceiling.specs.Seats.{accounts_of};

use crate::law::{Hand, Parts};
use crate::seat::CeilingSeat;
use crate::shared::Board;
use atomic_table::Seat;

/// The words, by a seat that takes in all others.
pub(crate) fn closed(
    board: Board,
    mut seat: Seat<(), Hand>,
    mut others: Vec<CeilingSeat>,
) -> (u64, u64)
    requires table { (board.shared.table_id.words ≡ 2) × (board.shared.table_id.slots ≡ 0) }
    requires seat { (seat.table_id ≡ board.shared.table_id) × (seat.me.1 ≡ [])
        × (seat.me.0.parts ≡ 1) }
    requires others { All (λ s. s.seat.table_id ≡ board.shared.table_id) others.items }
    requires all { vec_len others + 1 ≡ board.shared.key.parts }
    ensures { Obeys (opening board.shared.key) (account seat.me.0 ∷ accounts_of others.items)
        (record { cost = result.0; bound = result.1 }) }
{
    while let Some(CeilingSeat { seat: other }) = others.pop() {
        board.shared.join_seat::<Parts>(&mut seat, other);
    }
    let closed = board.close_with(seat);
    let cost = closed.word(0);
    let bound = closed.word(1);
    closed.free();
    (cost, bound)
}
