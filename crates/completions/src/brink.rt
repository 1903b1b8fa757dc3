//! What follows on a visit of a row, as far as it is known while a table is filled from the latest time back.

ghost use Rattle.std.specs.Prelude.{◌≤◌, ◌*◌, pos, ◌+ℤ◌, ◌≤ℤ◌, IsTrue};
ghost use Rattle.std.specs.List.{All};
ghost use Rattle.solomon_reader.specs.declared.limits.TheConstants.{MOST_CAPACITY};
ghost use Rattle.solomon_reader.specs.States.{most_grains};
ghost use Rattle.completions.specs.Completions.{IsBrink, IsLowEnough};
ghost use Rattle.fronts.specs.Tasks.{pricing_of};

use crate::bound::Bound;
use fronts::{Front, Step, Task};

/// What bounds all that follows on a visit of a row that ends at a time or later. It takes 16 bytes: each open step of
/// a table looks at one.
#[derive(Clone, Copy)]
pub(crate) struct Brink {
    /// The least that is added to the reduced cost, in grains.
    pub(crate) least: i64,
    /// The time, in tenths.
    pub(crate) from: u32,
    /// The row.
    pub(crate) row: u16,
    /// The most that may still be loaded.
    pub(crate) room: u16,
}

/// Whether a bound is as low as what follows on a step that leads to a front. The task is named by the contract
/// alone.
#[inline(always)]
pub(crate) fn is_low_enough(
    _task: &Task<'_>,
    brinks: &[Brink],
    next: &Front,
    step: &Step,
    bound: &Bound,
) -> bool
    requires brinks { All (IsBrink (pricing_of _task.now)) brinks.now }
    requires load { next.now.load ≤ MOST_CAPACITY }
    requires low { pos 0 ≤ℤ (next.now.cost +ℤ pos (most_grains * MOST_CAPACITY)) }
    requires high { next.now.cost ≤ℤ pos (most_grains * MOST_CAPACITY) }
    ensures { IsTrue result → IsLowEnough (pricing_of _task.now) step.now.customer next.now bound.now }
{
    let row = usize::from(step.customer);
    if row >= brinks.len() {
        return false;
    }
    let brink = &brinks[row];
    let value = next.cost + brink.least;
    if bound.other > value || bound.least > value {
        return false;
    }
    if brink.row != step.customer || u64::from(brink.from) > next.time {
        return false;
    }
    if next.load + u32::from(brink.room) > u32::from(bound.room) {
        return false;
    }
    true
}
