//! A leaf of a book is split.

ghost use Rattle.std.specs.Prelude.{◌≡◌, ◌≢◌, None, IfOk, IfErr};
ghost use Rattle.solomon_reader.specs.Region.{IsUndecided};
ghost use Rattle.solomon_reader.specs.History.{IsLeaf};
ghost use Rattle.branching.specs.Arcs.{pair};
ghost use Rattle.incumbent_book.specs.Faults.{AreChildren, region_at};
ghost use Rattle.given_tree.specs.declared.fault.ReplayFault.TheVariants.{LabelLimit};
ghost use Rattle.given_tree.specs.Growing.{Keeps, IsSplitAt};

use crate::child::price_child;
use crate::fault::ReplayFault;
use crate::given::GivenTree;
use crate::handed_on::HandedOn;
use branching::Arc;
use incumbent_book::Book;
use prices::{Priced, child_regions};

/// The leaf's prices at both children by an arc.
fn price_children<'i>(
    tree: &GivenTree<'_>,
    handed_on: &mut HandedOn<'_>,
    book: &Book<'i>,
    number: u32,
    arc: Arc,
) -> Result<(Priced<'i>, Priced<'i>), ReplayFault>
    requires leaf { IsLeaf book.now.past number }
    requires undecided { IsUndecided (region_at book.now number) (pair arc) }
    ensures children { IfOk result (λ r. AreChildren book.now (region_at book.now number) (pair arc) r.0 r.1) }
    ensures unlimited { IfErr result (λ e. e ≡ LabelLimit → tree.now.labels ≢ None) }
{
    let Some(leaf) = book.leaf(number) else {
        unreachable!()
    };
    let (used, unused) = child_regions(leaf.region(), arc)?;
    let used = price_child(tree, handed_on, leaf, &used);
    let unused = price_child(tree, handed_on, leaf, &unused);
    match (used, unused) {
        (Ok(used), Ok(unused)) => Ok((used, unused)),
        (Err(fault), _) | (_, Err(fault)) => Err(fault),
    }
}

/// Splits a leaf, with these prices at its children, and answers their numbers.
fn split_with_prices<'i>(
    book: &mut Book<'i>,
    number: u32,
    arc: Arc,
    used: Priced<'i>,
    unused: Priced<'i>,
) -> Result<(u32, u32), ReplayFault>
    requires children { AreChildren book.old (region_at book.old number) (pair arc) used unused }
    ensures keeps { Keeps book.old book.new }
    ensures split { IfOk result (λ r. IsSplitAt book.old book.new number (pair arc) r.0 r.1) }
    ensures unlimited { IfErr result (λ e. e ≢ LabelLimit) }
{
    match book.split(0, number, arc, used, unused) {
        Ok(numbers) => Ok(numbers),
        Err((_used, _unused, fault)) => Err(ReplayFault::from(fault)),
    }
}

/// Splits a leaf by an arc, with its own prices at both children, and answers their numbers, that of the child in
/// which the arc is required first.
pub(crate) fn split_leaf<'i>(
    tree: &GivenTree<'_>,
    handed_on: &mut HandedOn<'_>,
    book: &mut Book<'i>,
    number: u32,
    arc: Arc,
) -> Result<(u32, u32), ReplayFault>
    requires leaf { IsLeaf book.old.past number }
    requires undecided { IsUndecided (region_at book.old number) (pair arc) }
    ensures keeps { Keeps book.old book.new }
    ensures split { IfOk result (λ r. IsSplitAt book.old book.new number (pair arc) r.0 r.1) }
    ensures unlimited { IfErr result (λ e. e ≡ LabelLimit → tree.now.labels ≢ None) }
{
    let (used, unused) = price_children(tree, handed_on, book, number, arc)?;
    split_with_prices(book, number, arc, used, unused)
}
