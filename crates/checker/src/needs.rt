//! Whether sets of customers need what they are said to.

ghost use Rattle.std.specs.Prelude.{◌≤◌, length, OnOk, IfErr};
ghost use Rattle.std.specs.List.{All};
ghost use Rattle.solomon_reader.specs.declared.limits.TheConstants.{MOST_SETS};
ghost use Rattle.solomon_reader.specs.CustomerSets.{IsCustomerSet, IsNeeded};
ghost use Rattle.solomon_reader.specs.Problem.{customer_count};
ghost use Rattle.checker.specs.Needs.{RefusesSets};

use crate::fault::CheckFault;
use certificate::ListedSet;
use set_needs::{QuickestWays, is_needed};
use solomon_reader::Instance;
use std::alloc::Global;

/// The line of the first set.
const FIRST_SET: u64 = 6;

/// Whether each set needs what it is said to; `NeedTooGreat` with the line of the first that doesn't.
pub(crate) fn check_needs(
    alloc: Global,
    instance: &Instance,
    sets: &[ListedSet],
) -> Result<(), CheckFault>
    requires few { length sets.now ≤ MOST_SETS }
    requires sets { All (λ s. IsCustomerSet (customer_count instance.now) s.members.items) sets.now }
    ensures held { OnOk result (All (λ s. IsNeeded instance.now s.members.items s.need) sets.now) }
    ensures refused { IfErr result (RefusesSets instance.now sets.now) }
{
    if sets.is_empty() {
        return Ok(());
    }
    let ways = QuickestWays::new(alloc, instance)?;
    for index in 0..sets.len() {
        let set = &sets[index];
        if !is_needed(alloc, instance, &ways, set.members.as_slice(), set.need)? {
            return Err(CheckFault::NeedTooGreat {
                line: FIRST_SET + index as u64,
            });
        }
    }
    Ok(())
}
