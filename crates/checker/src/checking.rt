//! The check of an instance, a certificate and a solution.

ghost use Rattle.std.specs.Prelude.{◌≡◌, ◌⊎◌, None, Some, option_map, IfOk, IfErr, OnOk};
ghost use Rattle.solomon_reader.specs.Problem.{Problem};
ghost use Rattle.solomon_reader.specs.Layout.{IsInstance};
ghost use Rattle.solomon_reader.specs.CertificateText.{Certificate, IsAccepted, IsCertificateText, listed};
ghost use Rattle.sol_writer.specs.Text.{view};
ghost use Rattle.checker.specs.Checking.{Checks, IsRight, Means, IsFor, HasNeeds, HasBound, IsSolutionOf, Judges, RefusesCertificate, RefusesSolutionText, RefusesBound, RefusesSolution, RefusesTree};
ghost use Rattle.checker.specs.declared.fault.CheckFault.TheVariants.{Memory, StateLimit};

use crate::fault::CheckFault;
use crate::judging::plan_cost;
use crate::needs::check_needs;
use crate::verdict::Verdict;
use certificate::{Cert, CertFault};
use sol_writer::{Sol, SolFault};
use solomon_reader::Instance;
use std::alloc::Global;
use tenths::Tenths;
use tree_bound::{BoundFault, bound};

/// The certificate that a text is.
fn read_certificate(alloc: Global, text: &[u8]) -> Result<Cert, CheckFault>
    ensures found { IfOk result (λ c. IsCertificateText text.now c) }
    ensures refused { IfErr result (RefusesCertificate text.now) }
{
    match certificate::read(alloc, text) {
        Ok(cert) => Ok(cert),
        Err(CertFault::Memory) => Err(CheckFault::Memory),
        Err(fault) => Err(CheckFault::Certificate(fault)),
    }
}

/// The solution that a text is, if there is a text.
fn read_solution(alloc: Global, text: Option<&[u8]>) -> Result<Option<Sol>, CheckFault>
    ensures found { IfOk result (λ s. IsSolutionOf (option_map (λ t. t.now) text.entry)
        (option_map view s)) }
    ensures refused { IfErr result (RefusesSolutionText (option_map (λ t. t.now) text.entry)) }
{
    let Some(text) = text else {
        return Ok(None);
    };
    match sol_writer::read(alloc, text) {
        Ok(solution) => Ok(Some(solution)),
        Err(SolFault::Memory) => Err(CheckFault::Memory),
        Err(fault) => Err(CheckFault::Solution(fault)),
    }
}

/// Whether a certificate is for an instance, its sets need what they are said to, and it has the bound of its tree.
fn check_bound(
    alloc: Global,
    instance: &Instance,
    cert: &Cert,
    state_limit: usize,
) -> Result<(), CheckFault>
    ensures accepted { OnOk result ((c : Certificate) → cert.now ≡ listed c → IsFor instance.now c
        × HasNeeds instance.now c × HasBound instance.now c c.bound) }
    ensures refused { IfErr result (λ e. (c : Certificate) → cert.now ≡ listed c
        → RefusesBound instance.now c e) }
{
    let parts = cert.parts();
    if parts.name.as_slice() != instance.name() {
        return Err(CheckFault::OtherName);
    }
    if parts.size != instance.customer_count() {
        return Err(CheckFault::OtherSize);
    }
    check_needs(alloc, instance, parts.version.sets())?;
    let printed = parts.bound;
    match bound(alloc, instance, cert, state_limit) {
        Err(BoundFault::Memory) => Err(CheckFault::Memory),
        Err(BoundFault::StateLimit) => Err(CheckFault::StateLimit),
        Ok(derived) => {
            if derived != printed {
                return Err(CheckFault::BoundDiffers { printed, derived });
            }
            Ok(())
        }
    }
}

/// The certificate that a text is, where an instance accepts it: what `check` asks of the text of a certificate. The
/// first fault is told in its order: `Certificate`, `OtherName`, `OtherSize`, `NeedTooGreat`, `BoundDiffers`; `Memory`
/// where a growth was refused, `StateLimit` where `state_limit` pairs of time and cost stand at once for one leaf and
/// one more has to be kept.
pub fn accepted(
    alloc: Global,
    instance: &Instance,
    text: &[u8],
    state_limit: usize,
) -> Result<Cert, CheckFault>
    ensures accepted { IfOk result (λ c. (is : IsAccepted instance.now text.now) × (c ≡ listed is.certificate)) }
    ensures refused { IfErr result (RefusesTree instance.now text.now) }
{
    let cert = read_certificate(alloc, text)?;
    check_bound(alloc, instance, &cert, state_limit)?;
    Ok(cert)
}

/// What a bound says where no solution was handed in.
fn judge_bound(instance: &Instance, bound: Tenths) -> Verdict
    ensures { Judges instance.now bound None result }
{
    if bound.get() == u64::from(instance.above_ceiling()) {
        return Verdict::NoPlan;
    }
    Verdict::BoundOnly { bound }
}

/// What a bound says beside a solution.
fn judge_plan(
    alloc: Global,
    instance: &Instance,
    bound: Tenths,
    solution: &Sol,
) -> Result<Verdict, CheckFault>
    ensures verdict { IfOk result (Judges instance.now bound (Some (view solution.now))) }
    ensures refused { IfErr result (RefusesSolution instance.now (Some (view solution.now))) }
{
    let real = plan_cost(alloc, instance, solution.routes.as_slice())?;
    let printed = solution.cost;
    if printed != real {
        return Err(CheckFault::CostDiffers { printed, real });
    }
    if real == bound {
        return Ok(Verdict::Best { cost: real });
    }
    Ok(Verdict::Gap { cost: real, bound })
}

/// What the bound of an accepted certificate says, beside a solution or alone.
fn judge(
    alloc: Global,
    instance: &Instance,
    bound: Tenths,
    solution: Option<&Sol>,
) -> Result<Verdict, CheckFault>
    ensures verdict { IfOk result (Judges instance.now bound
        (option_map (λ s. view s.now) solution.entry)) }
    ensures refused { IfErr result (RefusesSolution instance.now
        (option_map (λ s. view s.now) solution.entry)) }
{
    match solution {
        None => Ok(judge_bound(instance, bound)),
        Some(solution) => judge_plan(alloc, instance, bound, solution),
    }
}

/// The verdict on three texts, or the first fault.
fn check_texts(
    alloc: Global,
    instance: &[u8],
    cert: &[u8],
    sol: Option<&[u8]>,
    state_limit: usize,
) -> Result<Verdict, CheckFault>
    ensures { Checks (record {
      instance = instance.now;
      certificate = cert.now;
      solution = option_map (λ t. t.now) sol.entry;
    }) result }
{
    let instance = solomon_reader::read(alloc, instance)?;
    let cert = read_certificate(alloc, cert)?;
    let solution = read_solution(alloc, sol)?;
    check_bound(alloc, &instance, &cert, state_limit)?;
    judge(alloc, &instance, cert.parts().bound, solution.as_ref())
}

/// Checks the text of a certificate, and that of a solution if it is handed in, against the text of
/// an instance. It is Ok exactly where the first text is an instance, which accepts the certificate
/// (the name and the number of customers are the instance's, each set needs what its line says, and the
/// printed bound is that of the tree by definition, in the certificate's version), and the solution is the text of a plan and of
/// its cost. Then the verdict holds for every plan of the instance.
///
/// The first fault is told in the order `Instance`, `Certificate`, `Solution`, `OtherName`,
/// `OtherSize`, `NeedTooGreat`, `BoundDiffers`, `PlanRefused`, `CostDiffers`. `Memory` where a growth was refused;
/// `StateLimit` before the bound is known, where `state_limit` pairs of time and cost stand at once
/// for one leaf and one more has to be kept.
pub fn check(
    alloc: Global,
    instance: &[u8],
    cert: &[u8],
    sol: Option<&[u8]>,
    state_limit: usize,
) -> Result<Verdict, CheckFault>
    // Which verdict or fault it is.
    ensures told { Checks (record {
      instance = instance.now;
      certificate = cert.now;
      solution = option_map (λ t. t.now) sol.entry;
    }) result }
    // A verdict is given only where the texts are right,
    ensures right { IfOk result (λ _. IsRight (record {
      instance = instance.now;
      certificate = cert.now;
      solution = option_map (λ t. t.now) sol.entry;
    })) }
    // and wherever they are, unless memory or the states don't suffice.
    ensures wrong { IfErr result (λ e. (e ≡ Memory) ⊎ ((e ≡ StateLimit)
        ⊎ (¬ IsRight (record {
          instance = instance.now;
          certificate = cert.now;
          solution = option_map (λ t. t.now) sol.entry;
        })))) }
    // What the verdict says of every plan.
    ensures means { IfOk result (λ v. (p : Problem) → IsInstance instance.now p → Means p v) }
{
    check_texts(alloc, instance, cert, sol, state_limit)
}
