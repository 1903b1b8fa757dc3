//! The fee that lifts the value of a decided region without a plan above the ceiling.

ghost use Rattle.std.specs.Prelude.{◌≡◌, ◌+◌, ◌*◌, ◌≤◌};
ghost use Rattle.solomon_reader.specs.Bound.{ceiling_of};

use solomon_reader::Instance;

/// No fee is greater, in grains: the ceiling of no instance is as much.
pub(crate) const MOST_FEE: u64 = 120_000_000_000;

/// What a customer pays that no route serves, and each route where they are more than the vehicles, in
/// grains: a tenth more than the ceiling.
pub(crate) fn fee_of(instance: &Instance) -> u64
    ensures value { result ≡ 1000 * (ceiling_of instance.now + 1) }
    ensures bound { result ≤ MOST_FEE }
{
    1_000 * u64::from(instance.above_ceiling())
}
