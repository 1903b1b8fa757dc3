//! A plan and the certificate of a bound, written one after the other.

ghost use Rattle.std.specs.Prelude.{◌≡◌, IfOk, IfErr, IfSome};
ghost use Rattle.solomon_reader.specs.Moves.{IsLocalOptimum};
ghost use Rattle.vrptw.specs.Certified.{IsCertified};
ghost use Rattle.vrptw.specs.Answers.{WritesOne, IsPlanText, IsBoundText};
ghost use Rattle.vrptw.specs.Found.{IsDescended, IsFound, WritesFound};
ghost use Rattle.vrptw.specs.declared.answer.SolveFault.TheVariants.{Memory};

use crate::answer::{Answer, SolveFault};
use crate::certifying::certify;
use certificate::Cert;
use closing::Found;
use run_settings::Settings;
use schedule::Feasible;
use search::descended;
use solomon_reader::Instance;
use std::alloc::Global;
use tenths::Sink;

/// The plan that a descent leads to, if there is one.
fn descend<'i>(
    alloc: Global,
    plan: Option<Feasible<'i>>,
) -> Result<Option<Feasible<'i>>, SolveFault>
    ensures plan { IfOk result (IsDescended plan.entry) }
    ensures memory { IfErr result (λ e. e ≡ Memory) }
{
    let Some(plan) = plan else {
        return Ok(None);
    };
    let lower = descended(alloc, &plan)?;
    Ok(Some(lower))
}

/// Writes the text of a plan.
fn write_plan<X: Sink>(plan: &Feasible<'_>, solution: &mut X) -> Result<(), SolveFault>
    requires { IsLocalOptimum plan.now.problem plan.now.routes }
    ensures { WritesOne (IsPlanText plan.now.problem plan.now.cost)
        (X.held solution.old) (X.held solution.new) result }
{
    match sol_writer::write(plan.routes(), plan.cost(), solution) {
        Ok(()) => Ok(()),
        Err(_) => Err(SolveFault::Device),
    }
}

/// Writes the certificate of an instance as the settings say.
fn write_bound<Y: Sink>(
    instance: &Instance,
    settings: &Settings,
    cert: &Cert,
    certificate: &mut Y,
) -> Result<(), SolveFault>
    requires { IsCertified instance.now settings.now cert.now }
    ensures { WritesOne (IsBoundText instance.now settings.now cert.now.bound)
        (Y.held certificate.old) (Y.held certificate.new) result }
{
    match certificate::write(cert, certificate) {
        Ok(()) => Ok(()),
        Err(_) => Err(SolveFault::Device),
    }
}

/// Writes a plan, if there is one, and then a certificate.
fn write_both<X: Sink, Y: Sink>(
    plan: Option<Feasible<'_>>,
    instance: &Instance,
    settings: &Settings,
    cert: &Cert,
    solution: &mut X,
    certificate: &mut Y,
) -> Result<Answer, SolveFault>
    requires plan { IfSome plan (λ f. (f.problem ≡ instance.now)
        × IsLocalOptimum f.problem f.routes) }
    requires certified { IsCertified instance.now settings.now cert.now }
    ensures { WritesFound instance.now settings.now plan.entry cert.now.bound
        (X.held solution.old) (X.held solution.new)
        (Y.held certificate.old) (Y.held certificate.new) result }
{
    let bound = cert.parts().bound;
    let Some(plan) = plan else {
        write_bound(instance, settings, cert, certificate)?;
        if bound.get() > instance.ceiling().get() {
            return Ok(Answer::NoPlan);
        }
        return Ok(Answer::Open { bound });
    };
    write_plan(&plan, solution)?;
    write_bound(instance, settings, cert, certificate)?;
    let cost = plan.cost();
    if cost == bound {
        return Ok(Answer::Best { cost });
    }
    Ok(Answer::Gap { cost, bound })
}

/// Writes what was found: its plan, if there is one, descended once more, and then the certificate of its
/// bound as the settings say.
pub(crate) fn write_found<X: Sink, Y: Sink>(
    alloc: Global,
    instance: &Instance,
    settings: &Settings,
    found: Found<'_>,
    solution: &mut X,
    certificate: &mut Y,
) -> Result<Answer, SolveFault>
    requires { IsFound instance.now settings.now found }
    ensures { WritesFound instance.now settings.now found.entry.plan found.entry.bound
        (X.held solution.old) (X.held solution.new)
        (Y.held certificate.old) (Y.held certificate.new) result }
{
    let Found {
        plan,
        bound,
        sets,
        rows,
        nodes,
    } = found;
    let plan = descend(alloc, plan)?;
    let cert = certify(alloc, instance, settings, bound, sets, rows, nodes)?;
    write_both(plan, instance, settings, &cert, solution, certificate)
}
