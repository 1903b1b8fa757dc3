//! The end of a deque from which others steal.

ghost use Rattle.std.specs.Prelude.{◌≡◌};
ghost use Rattle.crossbeam_deque.specs.Handles.{SamePass, stealer_flavor, view};

use crate::law::{Known, Law, Taken};
use crate::pass::Pass;
use crossbeam_deque::{Steal, Stealer};
use std::alloc::Global;

/// What came of a try to steal.
#[derive(Clone, Copy, Debug, PartialEq, Eq)]
pub enum Stolen {
    /// The oldest number.
    One(u32),
    /// The deque was empty; what other passes took meanwhile isn't known, so the clauses say little of it.
    Empty,
    /// Nothing was taken, since others took from the deque.
    Again,
}

/// The end of a deque from which others steal.
#[derive(Drop)]
pub struct Thief {
    pub(crate) others: Stealer<u32, Global, Known, Law>,
    pub(crate) number: usize,
    ghost fifo: { stealer_flavor others ≡ 0 },
}

impl Thief {
    ghost use Rattle.node_pool.specs.Deques.{Deque, FitsAt, IsShareOf, KeepsOthers, known_by};
    ghost use Rattle.node_pool.specs.Ends.{deque_at};
    ghost use Rattle.node_pool.specs.Stealing.{IsStolen};

    /// Steals by the pass of this deque.
    fn steal_by(&self, pass: &mut crossbeam_deque::Pass<u32, Known>) -> Stolen
        requires { IsShareOf (deque_at self.now) pass.old }
        ensures same { SamePass pass.old pass.new }
        ensures rule { IsStolen (view pass.old) (view pass.new) result }
    {
        match self.others.steal_as::<Taken>(pass) {
            Steal::Success(number) => Stolen::One(number),
            Steal::Empty => Stolen::Empty,
            Steal::Retry => Stolen::Again,
        }
    }

    /// Takes the oldest number out, if there is one and no other is quicker. `Empty` where the deque was
    /// empty at one moment of the call, and `Again` where nothing was taken. It waits for nobody.
    pub fn steal(&self, pass: &mut Pass) -> Stolen
        requires { FitsAt (deque_at self.now) pass.old }
        ensures same { (d : Deque) → FitsAt d pass.old → FitsAt d pass.new }
        ensures others { KeepsOthers self.now.number pass.old pass.new }
        ensures rule { IsStolen (known_by (deque_at self.now) pass.old)
            (known_by (deque_at self.now) pass.new) result }
    {
        self.steal_by(&mut pass.passes[self.number])
    }
}
