//! A plan, and what is known of it.

ghost use Rattle.std.specs.Prelude.{◌≡◌, true, IfOk};
ghost use Rattle.solomon_reader.specs.Moves.{IsLocalOptimum};

use schedule::Feasible;
use std::alloc::AllocError;

/// A plan, and whether it is known that no single move makes it cheaper: then no descent is made from it again.
#[derive(Drop)]
pub struct HeldPlan<'i> {
    /// The plan.
    pub plan: Feasible<'i>,
    /// Whether no move is known to make it cheaper.
    pub is_optimum: bool,
    ghost optimum: { is_optimum ≡ true → IsLocalOptimum plan.problem plan.routes },
}

impl<'i> HeldPlan<'i> {
    /// A plan of which nothing is known.
    pub fn any(plan: Feasible<'i>) -> HeldPlan<'i>
        ensures { result.plan ≡ plan.entry }
    {
        HeldPlan {
            plan,
            is_optimum: false,
        }
    }

    /// A copy, unless memory is refused.
    pub fn try_clone(&self) -> Result<HeldPlan<'i>, AllocError>
        ensures plan { IfOk result (λ h. h.plan ≡ self.now.plan) }
        ensures optimum { IfOk result (λ h. h.is_optimum ≡ self.now.is_optimum) }
    {
        let plan = self.plan.try_clone()?;
        Ok(HeldPlan {
            plan,
            is_optimum: self.is_optimum,
        })
    }
}
