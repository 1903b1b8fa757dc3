//! The plan to start from.

ghost use Rattle.std.specs.Prelude.{◌≡◌, ◌≢◌, None, Some, IfOk, IfErr, option_map};
ghost use Rattle.sol_writer.specs.Text.{view};
ghost use Rattle.checker.specs.Checking.{RefusesSolution};
ghost use Rattle.checker.specs.declared.fault.CheckFault.TheVariants.{Memory};
ghost use Rattle.vrptw.specs.Starting.{IsStart, IsStartFault, IsPlanOf};

use crate::answer::SolveFault;
use checker::CheckFault;
use schedule::Feasible;
use sol_writer::{Sol, SolFault};
use solomon_reader::Instance;
use std::alloc::Global;
use thiserror::Error;

/// Why the solver gives no answer from a plan to start from, or from a tree.
#[derive(Clone, Copy, Debug, PartialEq, Eq, Error)]
pub enum StartFault {
    /// What is told without a plan to start from, too.
    #[error("{0}")]
    Solve(SolveFault),
    /// The text to start from isn't that of a plan and its cost, as the checker tells it: `Solution`,
    /// `PlanRefused` or `CostDiffers`; nothing was written.
    #[error("Start: {0}")]
    Start(CheckFault),
    /// The text of a tree to go on from isn't that of a certificate which the instance accepts, as the checker tells
    /// it; nothing was written.
    #[error("Tree: {0}")]
    Tree(CheckFault),
}

impl From<SolveFault> for StartFault {
    ghost use Rattle.vrptw.specs.declared.starting.StartFault.TheVariants.{Solve};

    ghost from_gives = { λ e told. told ≡ Solve e };

    fn from(fault: SolveFault) -> StartFault {
        StartFault::Solve(fault)
    }
}

/// The plan that routes with a cost are.
fn plan_of<'i>(instance: &'i Instance, solution: Sol) -> Result<Feasible<'i>, CheckFault>
    ensures plan { IfOk result (IsPlanOf instance.now (view solution)) }
    ensures refused { IfErr result (RefusesSolution instance.now (Some (view solution))) }
    ensures kept { IfErr result (λ e. e ≢ Memory) }
{
    let printed = solution.cost;
    let plan = match Feasible::check(instance, solution.routes) {
        Ok(plan) => plan,
        Err((_, fault)) => return Err(CheckFault::PlanRefused(fault)),
    };
    let real = plan.cost();
    if printed != real {
        return Err(CheckFault::CostDiffers { printed, real });
    }
    Ok(plan)
}

/// No plan of an instance to start from.
pub(crate) fn no_start<'i>(_instance: &'i Instance) -> Option<Feasible<'i>>
    ensures { result ≡ None }
{
    None
}

/// The plan that a text to start from is, if there is one.
pub(crate) fn read_start<'i>(
    alloc: Global,
    instance: &'i Instance,
    text: Option<&[u8]>,
) -> Result<Option<Feasible<'i>>, StartFault>
    ensures found { IfOk result (IsStart instance.now (option_map (λ t. t.now) text.entry)) }
    ensures refused { IfErr result
        (IsStartFault instance.now (option_map (λ t. t.now) text.entry)) }
{
    let Some(text) = text else {
        return Ok(None);
    };
    let solution = match sol_writer::read(alloc, text) {
        Ok(solution) => solution,
        Err(SolFault::Memory) => return Err(StartFault::Solve(SolveFault::Memory)),
        Err(fault) => return Err(StartFault::Start(CheckFault::Solution(fault))),
    };
    match plan_of(instance, solution) {
        Ok(plan) => Ok(Some(plan)),
        Err(fault) => Err(StartFault::Start(fault)),
    }
}
