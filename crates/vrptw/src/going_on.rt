//! Solving from a plan and from a tree.

ghost use Rattle.std.specs.Prelude.{◌≡◌, ◌≢◌, IfOk, IfErr, option_map, Some};
ghost use Rattle.checker.specs.Checking.{RefusesTree};
ghost use Rattle.checker.specs.declared.fault.CheckFault.TheVariants.{Memory};
ghost use Rattle.vrptw.specs.GoingOn.{GoesOn, IsTreeText, IsTreeFault, settings_on};

use crate::answer::{Answer, SolveFault};
use crate::solving::{read_instance, solve_instance};
use crate::starting::{StartFault, read_start};
use certificate::Cert;
use checker::{CheckFault, accepted};
use run_settings::{Part, Settings};
use search_workers::{Begun, GivenTree};
use solomon_reader::Instance;
use std::alloc::Global;
use std::sync::Wait;
use std::thread::Threads;
use tenths::Sink;
use worker_turns::Gate;

/// How many pairs of time and cost may stand at once where a leaf of a given tree is checked.
const TREE_STATES: usize = 5_000_000;

/// The texts that a run goes on from, beside that of the instance.
#[derive(Clone, Copy)]
pub struct GivenTexts<'a> {
    /// The text of a plan to start from.
    pub start: Option<&'a [u8]>,
    /// The text of a certificate whose tree the work goes on from.
    pub tree: Option<&'a [u8]>,
    /// At which of the open leaves of that tree the bound workers work.
    pub part: Part,
}

/// The certificate that the text of a tree is, if there is one.
fn read_tree(
    alloc: Global,
    instance: &Instance,
    text: Option<&[u8]>,
) -> Result<Option<Cert>, StartFault>
    ensures found { IfOk result (λ c. IsTreeText instance.now (option_map (λ t. t.now) text.entry) c) }
    ensures refused { IfErr result
        (IsTreeFault instance.now (option_map (λ t. t.now) text.entry)) }
{
    let Some(text) = text else {
        return Ok(None);
    };
    match accepted(alloc, instance, text, TREE_STATES) {
        Ok(cert) => Ok(Some(cert)),
        Err(CheckFault::Memory) => Err(StartFault::Solve(SolveFault::Memory)),
        Err(fault) => Err(StartFault::Tree(fault)),
    }
}

/// The settings of a run that goes on from a tree.
fn settings_on(settings: &Settings, cert: &Cert) -> Settings
    ensures { result ≡ settings_on settings.now cert.now }
{
    let parts = cert.parts();
    let mut on = *settings;
    on.neighbours = parts.neighbours;
    on.sets = settings.sets.max(parts.version.sets().len() as u32);
    on.rows = settings.rows.max(parts.version.rows().len() as u32);
    on
}

/// What `solve_from` does, where the work also goes on from the tree of a certificate whose text is given. Then the
/// bound is at least that of the tree, which has the certificate's number of neighbours and at least as many sets and
/// rows as it lists; bound workers work at its open leaves, those of a part or all.
///
/// `Tree` where that text isn't one of a certificate that the instance accepts, with the first fault that `check`
/// would tell of it, which is also `StateLimit` where 5,000,000 pairs of time and cost stand at once for one leaf and
/// one more has to be kept. It is told after faults of the instance and of the start and before the others, and
/// nothing was written. `LabelLimit` also where a pricing at a leaf of the tree takes more labels than the settings
/// allow, or where a leaf has prices of two sets of the same customers, or of sets that are together above half of
/// the range of a price.
pub fn solve_on<R: Threads + Wait + Sync, G: Gate + Sync, X: Sink, Y: Sink>(
    rt: &R,
    alloc: Global,
    text: &[u8],
    given: GivenTexts<'_>,
    settings: &Settings,
    gate: &G,
    solution: &mut X,
    certificate: &mut Y,
) -> Result<Answer, StartFault>
    ensures { GoesOn (record {
      instance = text.now;
      start = option_map (λ t. t.now) given.entry.start;
      tree = option_map (λ t. t.now) given.entry.tree;
    }) settings.now
        (X.held solution.old) (X.held solution.new)
        (Y.held certificate.old) (Y.held certificate.new) result }
{
    let instance = &read_instance(alloc, text)?;
    let start = read_start(alloc, instance, given.start)?;
    let Some(cert) = read_tree(alloc, instance, given.tree)? else {
        let begun = Begun { start, tree: None };
        let answer = solve_instance(
            rt,
            alloc,
            instance,
            begun,
            settings,
            gate,
            solution,
            certificate,
        )?;
        return Ok(answer);
    };
    let tree = GivenTree {
        certificate: &cert,
        part: given.part,
    };
    let begun = Begun {
        start,
        tree: Some(tree),
    };
    let settings = settings_on(settings, &cert);
    let answer = solve_instance(
        rt,
        alloc,
        instance,
        begun,
        &settings,
        gate,
        solution,
        certificate,
    )?;
    Ok(answer)
}
