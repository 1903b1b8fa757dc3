//! The two words.

ghost use Rattle.std.specs.Prelude.{◌≡◌, ◌<◌};

use crate::closing::closed;
use crate::fault::CeilingFault;
use crate::law::{Hand, Law, Lowers, Opening, Parts, Raises, ReadsBound, ReadsCost};
use crate::seat::CeilingSeat;
use atomic_table::Table;
use std::alloc::Global;

pub(crate) type Board = Table<(), Hand, Opening, Law, Global>;

/// A cost that only falls and a bound that only rises, both in tenths, which many threads move, each
/// with its seat. Only `new` and `close` can fail, and no call waits.
#[derive(Drop)]
pub struct Ceiling {
    board: Board,
    seats: usize,
    ghost two_words: { board.shared.table_id.words ≡ 2 },
    ghost no_slots: { board.shared.table_id.slots ≡ 0 },
    ghost counted: { board.shared.key.parts ≡ seats },
    ghost some: { 0 < seats },
}

impl Ceiling {
    ghost use Rattle.std.specs.Prelude.{All, IfOk, IfErr, IsOk, vec_len, ◌↔◌};
    ghost use Rattle.solomon_reader.specs.TwoWords.{Obeys, PutsCost, AsksCost, PutsBound, AsksBound};
    ghost use Rattle.ceiling.specs.Seats.{IsSeatOf, IsNewSeat, account_of, accounts_of, opening_of, seats_of};
    ghost use Rattle.ceiling.specs.declared.fault.CeilingFault.TheVariants.{Memory as memory, MissingSeat as missing};

    /// The words, with what they hold at first in tenths, and their seats, which have put nothing.
    /// `Memory` where a growth was refused; then nothing is made.
    pub fn new(
        alloc: Global,
        seats: usize,
        cost: u64,
        bound: u64,
    ) -> Result<(Ceiling, Vec<CeilingSeat>), CeilingFault>
        requires { 0 < seats }
        ensures opening { IfOk result (λ r. opening_of r.0
            ≡ record { cost = cost; bound = bound }) }
        ensures count { IfOk result (λ r. (seats_of r.0 ≡ seats) × (vec_len r.1 ≡ seats)) }
        ensures seats { IfOk result (λ r. All (IsNewSeat r.0) r.1.items) }
        ensures err { IfErr result (λ e. e ≡ memory) }
    {
        let opening = Opening {
            parts: seats as u64,
            cost,
            bound,
        };
        let (board, mut first) = Board::of_words(alloc, &[cost, bound], &opening)?;
        let mut list = Vec::with_capacity(alloc, seats)?;
        for _ in 1..seats {
            let seat = board.shared.split_seat::<Parts>(&mut first);
            list.push(CeilingSeat { seat })?;
        }
        list.push(CeilingSeat { seat: first })?;
        Ok((Ceiling { board, seats }, list))
    }

    /// Puts a cost in tenths: the word falls to it, if it is higher. Answers what it is then, the
    /// least of what it held and what was put.
    pub fn offer(&self, seat: &mut CeilingSeat, value: u64) -> u64
        requires { IsSeatOf self.now seat.old }
        ensures own { IsSeatOf self.now seat.new }
        ensures answer { PutsCost (account_of seat.old) value result (account_of seat.new) }
    {
        let found = self
            .board
            .shared
            .fetch_min::<Lowers>(&mut seat.seat, 0, value);
        found.min(value)
    }

    /// What the cost is, in tenths.
    pub fn cost(&self, seat: &mut CeilingSeat) -> u64
        requires { IsSeatOf self.now seat.old }
        ensures own { IsSeatOf self.now seat.new }
        ensures answer { AsksCost (account_of seat.old) result (account_of seat.new) }
    {
        self.board.shared.load::<ReadsCost>(&mut seat.seat, 0)
    }

    /// Puts a bound in tenths: the word rises to it, if it is lower. Answers what it is then, the
    /// greatest of what it held and what was put.
    pub fn raise(&self, seat: &mut CeilingSeat, value: u64) -> u64
        requires { IsSeatOf self.now seat.old }
        ensures own { IsSeatOf self.now seat.new }
        ensures answer { PutsBound (account_of seat.old) value result (account_of seat.new) }
    {
        let found = self
            .board
            .shared
            .fetch_max::<Raises>(&mut seat.seat, 1, value);
        found.max(value)
    }

    /// What the bound is, in tenths.
    pub fn floor(&self, seat: &mut CeilingSeat) -> u64
        requires { IsSeatOf self.now seat.old }
        ensures own { IsSeatOf self.now seat.new }
        ensures answer { AsksBound (account_of seat.old) result (account_of seat.new) }
    {
        self.board.shared.load::<ReadsBound>(&mut seat.seat, 1)
    }

    /// The cost and the bound in tenths, once all seats are back: the least and the greatest of the
    /// opening values and of what was put. `MissingSeat` where they aren't; then ceiling and seats
    /// come back as they were.
    pub fn close(
        self,
        mut seats: Vec<CeilingSeat>,
    ) -> Result<(u64, u64), (Ceiling, Vec<CeilingSeat>, CeilingFault)>
        requires { All (IsSeatOf self) seats.items }
        ensures all { IsOk result ↔ (vec_len seats ≡ seats_of self) }
        ensures words { IfOk result (λ r. Obeys (opening_of self) (accounts_of seats.items)
            (record { cost = r.0; bound = r.1 })) }
        ensures back { IfErr result (λ e. (e.0 ≡ self) × (e.1 ≡ seats) × (e.2 ≡ missing)) }
    {
        if seats.len() != self.seats {
            return Err((self, seats, CeilingFault::MissingSeat));
        }
        let Some(CeilingSeat { seat }) = seats.pop() else {
            unreachable!()
        };
        let Ceiling { board, seats: _ } = self;
        Ok(closed(board, seat, seats))
    }
}
