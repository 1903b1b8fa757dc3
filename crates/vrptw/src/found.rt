//! What a run found.

ghost use Rattle.std.specs.Prelude.{◌≡◌, [], None, IfOk, IfErr};
ghost use Rattle.solomon_reader.specs.History.{IsBound, costs_of};
ghost use Rattle.vrptw.specs.Found.{IsFound};
ghost use Rattle.vrptw.specs.declared.answer.SolveFault.TheVariants.{Memory};

use crate::answer::SolveFault;
use closing::Found;
use incumbent_book::Outcome;
use run_settings::Settings;
use std::alloc::Global;

/// What a run found.
pub(crate) fn found_by<'i>(
    alloc: Global,
    settings: &Settings,
    outcome: Outcome<'i>,
) -> Result<Found<'i>, SolveFault>
    requires neighbours { outcome.neighbours ≡ settings.now.neighbours }
    requires sets { outcome.most_sets ≡ settings.now.sets }
    requires rows { outcome.most_rows ≡ settings.now.rows }
    ensures found { IfOk result (IsFound outcome.entry.problem settings.now) }
    ensures plan { IfOk result (λ f. f.plan ≡ outcome.entry.incumbent) }
    ensures bound { IfOk result (λ f. IsBound outcome.entry.problem outcome.entry.root outcome.entry.past f.bound) }
    ensures offered { IfOk result (λ f. f.plan ≡ None → costs_of outcome.entry.past ≡ []) }
    ensures memory { IfErr result (λ e. e ≡ Memory) }
{
    let parts = outcome.into_parts(alloc)?;
    Ok(Found {
        plan: parts.plan,
        bound: parts.bound,
        sets: parts.sets,
        rows: parts.rows,
        nodes: parts.nodes,
    })
}
