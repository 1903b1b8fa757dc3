//! Steps that raise a value.

ghost use Rattle.std.specs.Prelude.{◌≡◌};
ghost use Rattle.prices.specs.Steps.{Improves};

use crate::improvement::Improvement;
use crate::priced::Priced;
use std::alloc::Global;

/// The prices after the first steps that give the greatest value, each step from the prices that the
/// one before left. With a step of s grains each price gains `s * (1 - visits)` and is cut to the
/// range of prices, where `visits` counts the customer in the route of least reduced cost if that is
/// below zero, else it is 0. Of equal values the first found is kept. Where memory or labels run out,
/// the best found so far is answered.
pub fn improve<'i>(
    alloc: Global,
    priced: Priced<'i>,
    steps: &[i64],
    limit: Option<usize>,
) -> Priced<'i>
    ensures { Improves priced.entry steps.now result }
{
    let mut improvement = Improvement::new(priced);
    for step in steps {
        improvement = match improvement.step(alloc, *step, limit) {
            Ok(improvement) => improvement,
            Err(best) => return best,
        };
    }
    improvement.into_best()
}
