//! What a worker steals by.

ghost use Rattle.std.specs.Prelude.{◌≡◌, ◌<◌, ◌+◌, ◌-◌, ◌^◌, ℕ, IfOk};
ghost use Rattle.std.specs.List.{All};
ghost use Rattle.node_pool.specs.Deques.{AreNumbered, IsFresh};
ghost use Rattle.node_pool.specs.Ends.{IsEmptyHand, deques_of};

use crate::hand::Hand;
use crate::law::Known;
use std::alloc::{AllocError, Global};

/// What one worker steals by: a share of each deque.
#[derive(Drop)]
pub struct Pass {
    pub(crate) passes: Vec<crossbeam_deque::Pass<u32, Known>>,
}

impl Pass {
    /// A share of each of these deques.
    pub(crate) fn new(alloc: Global, hands: &mut [Hand]) -> Result<Pass, AllocError>
        requires numbers { AreNumbered (deques_of hands.old) }
        requires few { All (λ h. h.others < 2 ^ 64 - 1) hands.old }
        ensures deques { IfOk result (λ _. deques_of hands.new ≡ deques_of hands.old) }
        ensures empty { (n capacity : ℕ) → All (IsEmptyHand n capacity) hands.old → IfOk result
            (λ _. All (IsEmptyHand (n + 1) capacity) hands.new) }
        ensures fresh { IfOk result (λ p. All (λ d. IsFresh d p) (deques_of hands.old)) }
    {
        let mut passes = Vec::with_capacity(alloc, hands.len())?;
        for hand in hands.iter_mut() {
            passes.push(hand.pass())?;
        }
        Ok(Pass { passes })
    }
}
