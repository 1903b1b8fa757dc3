//! From the bytes of an instance to a plan and a certificate.

ghost use Rattle.std.specs.Prelude.{ℕ, List, IfOk, IfErr, IfSome, option_map};
ghost use Rattle.solomon_reader.specs.Layout.{IsInstance};
ghost use Rattle.vrptw.specs.Answers.{Solves, RefusesText};
ghost use Rattle.search_workers.specs.Given.{IsTreeFor, bound_of};
ghost use Rattle.vrptw.specs.Starting.{IsAtMost, IsPlanAt, TellsFrom};
ghost use Rattle.vrptw.specs.GoingOn.{IsNoLower};

use crate::answer::{Answer, SolveFault};
use crate::found::found_by;
use crate::starting::{StartFault, read_start};
use crate::writing::write_found;
use run_settings::Settings;
use search_workers::{Begun, run_from};
use solomon_reader::{Instance, ReadFault, read};
use std::alloc::Global;
use std::sync::Wait;
use std::thread::Threads;
use tenths::Sink;
use worker_turns::Gate;

/// The instance that a text is.
pub(crate) fn read_instance(alloc: Global, text: &[u8]) -> Result<Instance, SolveFault>
    ensures found { IfOk result (λ i. IsInstance text.now i) }
    ensures refused { IfErr result (λ e. RefusesText text.now e) }
{
    match read(alloc, text) {
        Ok(instance) => Ok(instance),
        Err(ReadFault::Memory) => Err(SolveFault::Memory),
        Err(fault) => Err(SolveFault::Instance(fault)),
    }
}

/// Solves an instance, from a plan and a tree where there are some, and writes what is found.
pub(crate) fn solve_instance<'i, R: Threads + Wait + Sync, G: Gate + Sync, X: Sink, Y: Sink>(
    rt: &R,
    alloc: Global,
    instance: &'i Instance,
    begun: Begun<'_, 'i>,
    settings: &Settings,
    gate: &G,
    solution: &mut X,
    certificate: &mut Y,
) -> Result<Answer, SolveFault>
    requires start { IfSome begun.start (IsPlanAt instance.now) }
    requires tree { IfSome begun.tree (IsTreeFor instance.now settings.now.neighbours) }
    ensures solved { (text : List ℕ) → IsInstance text instance.now
        → Solves text settings.now
        (X.held solution.old) (X.held solution.new)
        (Y.held certificate.old) (Y.held certificate.new) result }
    ensures at_most { IfOk result (λ a. IfSome begun.entry.start (λ f. IsAtMost f.cost a)) }
    ensures no_lower { IfOk result (IsNoLower instance.now (bound_of begun.entry.tree)) }
{
    let outcome = run_from(rt, alloc, instance, settings, gate, begun)?;
    let found = found_by(alloc, settings, outcome)?;
    write_found(alloc, instance, settings, found, solution, certificate)
}

/// Solves the instance of a text: writes a plan to the first sink, if one was found, and then to
/// the second the certificate of a lower bound on the cost of every plan. No single move of the five
/// kinds makes the plan cheaper.
///
/// The first refusal that holds is told: `Instance` with the text's first fault, `BadSettings`,
/// `LabelLimit` where as many labels stand as the settings allow before there is a first bound,
/// `NoThread` where a thread was refused, and `Memory` where a growth was; these come before the first
/// write. `Device` where a sink failed: the first then holds a beginning and the second nothing, or
/// the first all that was for it and the second a beginning.
pub fn solve<R: Threads + Wait + Sync, G: Gate + Sync, X: Sink, Y: Sink>(
    rt: &R,
    alloc: Global,
    text: &[u8],
    settings: &Settings,
    gate: &G,
    solution: &mut X,
    certificate: &mut Y,
) -> Result<Answer, SolveFault>
    ensures { Solves text.now settings.now
        (X.held solution.old) (X.held solution.new)
        (Y.held certificate.old) (Y.held certificate.new) result }
{
    let instance = &read_instance(alloc, text)?;
    solve_instance(
        rt,
        alloc,
        instance,
        Begun::nothing(instance),
        settings,
        gate,
        solution,
        certificate,
    )
}

/// What `solve` does, from a plan whose text is given, if it is cheaper than what an insertion builds. Then the
/// answer is `Best` or `Gap`, and costs at most what that plan does.
///
/// `Start` where the text isn't that of a plan of the instance and of its cost, with the first fault that
/// `check` would tell of it; it is told after a fault of the instance and before the others, and nothing was
/// written.
pub fn solve_from<R: Threads + Wait + Sync, G: Gate + Sync, X: Sink, Y: Sink>(
    rt: &R,
    alloc: Global,
    text: &[u8],
    start: Option<&[u8]>,
    settings: &Settings,
    gate: &G,
    solution: &mut X,
    certificate: &mut Y,
) -> Result<Answer, StartFault>
    ensures { TellsFrom (Solves text.now settings.now
        (X.held solution.old) (X.held solution.new)
        (Y.held certificate.old) (Y.held certificate.new))
        text.now (option_map (λ t. t.now) start.entry)
        (X.held solution.old) (X.held solution.new)
        (Y.held certificate.old) (Y.held certificate.new) result }
{
    let instance = &read_instance(alloc, text)?;
    let start = read_start(alloc, instance, start)?;
    let begun = Begun { start, tree: None };
    let answer = solve_instance(
        rt,
        alloc,
        instance,
        begun,
        settings,
        gate,
        solution,
        certificate,
    )?;
    Ok(answer)
}
