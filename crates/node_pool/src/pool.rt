//! All deques of a pool.

ghost use Rattle.std.specs.Prelude.{◌≡◌, ℕ, map, length, vec_len, IfOk, IfErr};
ghost use Rattle.std.specs.List.{All};
ghost use Rattle.node_pool.specs.Deques.{AreNumbered, IsFresh};
ghost use Rattle.node_pool.specs.Ends.{IsEmptyHand, deques_at, deques_of};
ghost use Rattle.node_pool.specs.declared.fault.PoolFault.TheVariants.{Memory};

use crate::fault::PoolFault;
use crate::hand::Hand;
use crate::pass::Pass;
use crate::thief::Thief;
use std::alloc::{AllocError, Global};

/// Makes deques: each worker holds one end of its own, and steals from those of the others.
pub struct Pool;

fn hands(alloc: Global, workers: usize, capacity: usize) -> Result<Vec<Hand>, AllocError>
    ensures len { IfOk result (λ v. vec_len v ≡ workers) }
    ensures empty { IfOk result (λ v. All (IsEmptyHand 0 capacity) v.items) }
    ensures numbers { IfOk result (λ v. AreNumbered (deques_of v.items)) }
{
    let mut hands = Vec::with_capacity(alloc, workers)?;
    for number in 0..workers {
        hands.push(Hand::new(alloc, number, capacity)?)?;
    }
    Ok(hands)
}

fn thieves(alloc: Global, hands: &[Hand]) -> Result<Vec<Thief>, AllocError>
    ensures { IfOk result (λ v. deques_at v.items ≡ deques_of hands.now) }
{
    let mut thieves = Vec::with_capacity(alloc, hands.len())?;
    for hand in hands {
        thieves.push(hand.thief()?)?;
    }
    Ok(thieves)
}

fn passes(alloc: Global, hands: &mut [Hand], workers: usize) -> Result<Vec<Pass>, AllocError>
    requires numbers { AreNumbered (deques_of hands.old) }
    requires empty { (capacity : ℕ) × All (IsEmptyHand 0 capacity) hands.old }
    ensures len { IfOk result (λ v. vec_len v ≡ workers) }
    ensures deques { IfOk result (λ _. deques_of hands.new ≡ deques_of hands.old) }
    ensures empty { (capacity : ℕ) → All (IsEmptyHand 0 capacity) hands.old → IfOk result
        (λ _. All (IsEmptyHand workers capacity) hands.new) }
    ensures fresh { IfOk result (λ v. All
        (λ p. All (λ d. IsFresh d p) (deques_of hands.old)) v.items) }
{
    let mut passes = Vec::with_capacity(alloc, workers)?;
    for _ in 0..workers {
        passes.push(Pass::new(alloc, hands)?)?;
    }
    Ok(passes)
}

impl Pool {
    /// A deque for each worker, with room for this many pushes in its life: the ends that the workers
    /// hold, those from which they steal, and what each steals by. `Memory` where a growth was refused.
    pub fn new(
        alloc: Global,
        workers: usize,
        capacity: usize,
    ) -> Result<(Vec<Hand>, Vec<Thief>, Vec<Pass>), PoolFault>
        ensures hands { IfOk result (λ r. vec_len r.0 ≡ workers) }
        ensures empty { IfOk result (λ r. All (IsEmptyHand workers capacity) r.0.items) }
        ensures numbers { IfOk result (λ r. AreNumbered (deques_of r.0.items)) }
        ensures thieves { IfOk result (λ r. deques_at r.1.items ≡ deques_of r.0.items) }
        ensures passes { IfOk result (λ r. vec_len r.2 ≡ workers) }
        ensures fresh { IfOk result (λ r. All
            (λ p. All (λ d. IsFresh d p) (deques_of r.0.items)) r.2.items) }
        ensures memory { IfErr result (λ e. e ≡ Memory) }
    {
        let mut hands = hands(alloc, workers, capacity)?;
        let passes = passes(alloc, hands.as_mut_slice(), workers)?;
        let thieves = thieves(alloc, hands.as_slice())?;
        Ok((hands, thieves, passes))
    }
}
