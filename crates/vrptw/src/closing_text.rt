//! From the bytes of an instance to a plan that no plan is cheaper than.

ghost use Rattle.std.specs.Prelude.{◌↔◌, ℕ, List, IfOk, IfSome, IsTrue, option_map};
ghost use Rattle.solomon_reader.specs.Layout.{IsInstance};
ghost use Rattle.vrptw.specs.Closing.{AreWithin, Closes};
ghost use Rattle.vrptw.specs.Starting.{IsAtMost, IsPlanAt, TellsFrom};

use crate::answer::{Answer, SolveFault};
use crate::solving::read_instance;
use crate::starting::{StartFault, no_start, read_start};
use crate::writing::write_found;
use run_settings::Settings;
use schedule::Feasible;
use solomon_reader::{Instance, MOST_LEAVES};
use std::alloc::Global;
use tenths::Sink;

/// Whether the settings and the number of leaves are within their ranges.
fn are_within(settings: &Settings, leaf_limit: u32) -> bool
    ensures { IsTrue result ↔ AreWithin settings.now leaf_limit }
{
    settings.is_within() && leaf_limit >= 1 && leaf_limit <= MOST_LEAVES
}

/// Closes an instance, from a plan if there is one, and writes what is found.
fn close_instance<'i, X: Sink, Y: Sink>(
    alloc: Global,
    instance: &'i Instance,
    start: Option<Feasible<'i>>,
    settings: &Settings,
    leaf_limit: u32,
    solution: &mut X,
    certificate: &mut Y,
) -> Result<Answer, SolveFault>
    requires { IfSome start (IsPlanAt instance.now) }
    ensures closed { (text : List ℕ) → IsInstance text instance.now
        → Closes text settings.now leaf_limit
        (X.held solution.old) (X.held solution.new)
        (Y.held certificate.old) (Y.held certificate.new) result }
    ensures at_most { IfOk result (λ a. IfSome start.entry (λ f. IsAtMost f.cost a)) }
{
    if !are_within(settings, leaf_limit) {
        return Err(SolveFault::BadSettings);
    }
    let neighbours = settings.neighbours;
    let found = closing::close_from(alloc, instance, neighbours, leaf_limit, start)?;
    write_found(alloc, instance, settings, found, solution, certificate)
}

/// Closes the instance of a text, of at most 24 customers: writes a plan that no plan is cheaper than to
/// the first sink, and then to the second the certificate whose bound is its cost; or where there is no
/// plan, the certificate alone. The tree has at most this many leaves, 1 to 100,000. Of the settings only
/// the neighbours and the numbers of sets and rows have an effect: where rows may have prices the certificate
/// is one with rows, and else where sets may one with sets, though it lists none. It works on the caller's
/// thread and waits for nobody. The answer is `Best` or `NoPlan`.
///
/// The first refusal that holds is told: `Instance` with the text's first fault, `BadSettings` where a
/// setting or the number of leaves is outside its range, `TooLarge` where there are more customers,
/// `LeafLimit` where the tree has that many and cost and bound are still apart, and `Memory` where a growth was
/// refused; these come before the first write. `Device` where a sink failed, as `solve` tells it.
pub fn close<X: Sink, Y: Sink>(
    alloc: Global,
    text: &[u8],
    settings: &Settings,
    leaf_limit: u32,
    solution: &mut X,
    certificate: &mut Y,
) -> Result<Answer, SolveFault>
    ensures { Closes text.now settings.now leaf_limit
        (X.held solution.old) (X.held solution.new)
        (Y.held certificate.old) (Y.held certificate.new) result }
{
    let instance = &read_instance(alloc, text)?;
    close_instance(
        alloc,
        instance,
        no_start(instance),
        settings,
        leaf_limit,
        solution,
        certificate,
    )
}

/// What `close` does, from a plan whose text is given, if it is cheaper than what an insertion builds.
///
/// `Start` where the text isn't that of a plan of the instance and of its cost, with the first fault that
/// `check` would tell of it; it is told after a fault of the instance and before the others, and nothing was
/// written.
pub fn close_from<X: Sink, Y: Sink>(
    alloc: Global,
    text: &[u8],
    start: Option<&[u8]>,
    settings: &Settings,
    leaf_limit: u32,
    solution: &mut X,
    certificate: &mut Y,
) -> Result<Answer, StartFault>
    ensures { TellsFrom (Closes text.now settings.now leaf_limit
        (X.held solution.old) (X.held solution.new)
        (Y.held certificate.old) (Y.held certificate.new))
        text.now (option_map (λ t. t.now) start.entry)
        (X.held solution.old) (X.held solution.new)
        (Y.held certificate.old) (Y.held certificate.new) result }
{
    let instance = &read_instance(alloc, text)?;
    let start = read_start(alloc, instance, start)?;
    let answer = close_instance(
        alloc,
        instance,
        start,
        settings,
        leaf_limit,
        solution,
        certificate,
    )?;
    Ok(answer)
}
