//! The cheaper of two plans.

ghost use Rattle.std.specs.Prelude.{◌≡◌, IfSome};
ghost use Rattle.solomon_reader.specs.Problem.{Problem};
ghost use Rattle.schedule.specs.Cheaper.{IsCheaper};

use crate::plan::Feasible;

/// The cheaper of two plans, the first where they cost the same, or the one that there is.
pub fn cheaper<'i>(
    first: Option<Feasible<'i>>,
    second: Option<Feasible<'i>>,
) -> Option<Feasible<'i>>
    ensures { IsCheaper first.entry second.entry result }
{
    match (first, second) {
        (Some(first), Some(second)) => {
            let is_second = second.cost().get() < first.cost().get();
            Some(if is_second { second } else { first })
        }
        (Some(plan), None) | (None, Some(plan)) => Some(plan),
        (None, None) => None,
    }
}
