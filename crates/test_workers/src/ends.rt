//! The ends of a deque.

ghost use Rattle.std.specs.Prelude.{◌≡◌, IfOk};
ghost use Rattle.node_pool.specs.Deques.{FitsAt};
ghost use Rattle.node_pool.specs.Ends.{deque_at, deque_of};

use node_pool::{Hand, Pass, Pool, PoolFault, Thief};
use std::alloc::Global;

/// The ends of one deque of a pool for two workers, and the passes of both. `MissingPass` where one is missing, and
/// `Memory`.
pub fn ends(alloc: Global) -> Result<(Hand, Thief, Pass, Pass), PoolFault>
    ensures thief { IfOk result (λ r. deque_at r.1 ≡ deque_of r.0) }
    ensures first { IfOk result (λ r. FitsAt (deque_of r.0) r.2) }
    ensures second { IfOk result (λ r. FitsAt (deque_of r.0) r.3) }
{
    let (mut hands, mut thieves, mut passes) = Pool::new(alloc, 2, 3)?;
    let Some(hand) = hands.pop() else {
        return Err(PoolFault::MissingPass);
    };
    let Some(thief) = thieves.pop() else {
        return Err(PoolFault::MissingPass);
    };
    let Some(second) = passes.pop() else {
        return Err(PoolFault::MissingPass);
    };
    let Some(first) = passes.pop() else {
        return Err(PoolFault::MissingPass);
    };
    Ok((hand, thief, first, second))
}
