//! A given tree, grown again at a book, and the leaves of it that a run works at.

ghost use Rattle.std.specs.Prelude.{◌≡◌, ◌⊎◌, IfErr, IfOk, IfSome, OnOk};
ghost use Rattle.solomon_reader.specs.History.{costs_of, split_count};
ghost use Rattle.incumbent_book.specs.Reaching.{IsReached};
ghost use Rattle.search_workers.specs.Given.{IsFor, IsTreeFor, bound_of};
ghost use Rattle.search_workers.specs.declared.fault.RunFault.TheVariants.{Memory, LabelLimit};

use crate::begun::GivenTree;
use crate::fault::RunFault;
use certificate::Cert;
use fronts::Nearness;
use given_tree::{ReplayFault, replay};
use incumbent_book::Book;
use run_settings::Part;
use solomon_reader::Instance;
use std::alloc::{AllocError, Global};
use tenths::Tenths;
use worker_turns::LeavesLeft;

/// A leaf whose value is below the best cost, with its value in tenths.
#[derive(Clone, Copy)]
pub(crate) struct OpenLeaf {
    pub(crate) number: u32,
    pub(crate) value: i128,
}

/// A tree in the book: of its open leaves those that the workers begin at, or nothing where all begin at the root; how
/// many leaves all of them have left; and a bound that the book has reached, in tenths.
#[derive(Drop)]
pub(crate) struct Regrown {
    pub(crate) leaves: Option<Vec<OpenLeaf>>,
    pub(crate) left: LeavesLeft,
    pub(crate) reached: Tenths,
}

/// The leaves of a part of those whose values are below the best cost, or the ceiling plus one where none is known.
fn open_leaves(
    alloc: Global,
    instance: &Instance,
    book: &Book<'_>,
    numbers: &[u32],
    part: Part,
) -> Result<Vec<OpenLeaf>, AllocError> {
    let most = match book.gap().cost {
        Some(cost) => i128::from(cost.get()),
        None => i128::from(instance.above_ceiling()),
    };
    let mut leaves = Vec::new(alloc);
    let mut place: u32 = 0;
    for number in numbers {
        let Some(priced) = book.leaf(*number) else {
            continue;
        };
        let value = priced.value();
        if value >= most {
            continue;
        }
        place = place.saturating_add(1);
        if !part.is_within() || part.has(place) {
            leaves.push(OpenLeaf {
                number: *number,
                value,
            })?;
        }
    }
    Ok(leaves)
}

/// How many leaves are left to all workers, of so many at which they begin.
fn left_of(part: Part, leaves: usize) -> LeavesLeft {
    if part.count > 1 {
        LeavesLeft::of_part(leaves as u64)
    } else {
        LeavesLeft::of_all()
    }
}

/// Grows a tree at a book whose root is a leaf, and answers the numbers of its leaves, in preorder.
fn grow<'i>(
    alloc: Global,
    nearness: &Nearness<'_>,
    book: &mut Book<'i>,
    certificate: &Cert,
    labels: u32,
) -> Result<Vec<u32>, RunFault>
    requires tree { IsFor book.old.problem book.old.neighbours certificate.now }
    requires whole { split_count book.old.past ≡ 0 }
    ensures problem { book.new.problem ≡ book.old.problem }
    ensures neighbours { book.new.neighbours ≡ book.old.neighbours }
    ensures sets { book.new.most_sets ≡ book.old.most_sets }
    ensures rows { book.new.most_rows ≡ book.old.most_rows }
    ensures costs { costs_of book.new.past ≡ costs_of book.old.past }
    ensures reached { OnOk result (IsReached certificate.now.bound book.new) }
    ensures refused { IfErr result (λ e. (e ≡ Memory) ⊎ (e ≡ LabelLimit)) }
{
    match replay(alloc, nearness, book, certificate, Some(labels as usize)) {
        Ok(numbers) => Ok(numbers),
        Err(ReplayFault::Memory) => Err(RunFault::Memory),
        Err(ReplayFault::LabelLimit | ReplayFault::Unfit) => Err(RunFault::LabelLimit),
    }
}

/// All workers begin at the root, and the book has reached this bound.
fn at_root(reached: Tenths) -> Regrown
    ensures { result.reached ≡ reached }
{
    Regrown {
        leaves: None,
        left: LeavesLeft::of_all(),
        reached,
    }
}

/// Grows a given tree, if there is one, at a book whose root is a leaf: the leaves of the part that are open. A pricing
/// may have this many labels. `LabelLimit` where a leaf needs more of them, or has prices of sets that no run gives: of
/// two sets with the same customers, or together above half of the range; `Memory`.
#[tactic(auto, using(incumbent_book::proofs::Reached::nothing_reached))]
pub(crate) fn regrow<'i>(
    alloc: Global,
    nearness: &Nearness<'_>,
    book: &mut Book<'i>,
    tree: Option<GivenTree<'_>>,
    labels: u32,
) -> Result<Regrown, RunFault>
    requires tree { IfSome tree (IsTreeFor book.old.problem book.old.neighbours) }
    requires whole { split_count book.old.past ≡ 0 }
    ensures problem { book.new.problem ≡ book.old.problem }
    ensures neighbours { book.new.neighbours ≡ book.old.neighbours }
    ensures sets { book.new.most_sets ≡ book.old.most_sets }
    ensures rows { book.new.most_rows ≡ book.old.most_rows }
    ensures costs { costs_of book.new.past ≡ costs_of book.old.past }
    ensures reached { IfOk result (λ r. IsReached r.reached book.new) }
    ensures least { IfOk result (λ r. r.reached ≡ bound_of tree.entry) }
    ensures refused { IfErr result (λ e. (e ≡ Memory) ⊎ (e ≡ LabelLimit)) }
{
    let Some(tree) = tree else {
        return Ok(at_root(Tenths::from(0)));
    };
    let GivenTree { certificate, part } = tree;
    let numbers = grow(alloc, nearness, book, certificate, labels)?;
    let reached = certificate.parts().bound;
    if numbers.len() == 1 && (!part.is_within() || part.has(1)) {
        return Ok(at_root(reached));
    }
    let leaves = open_leaves(alloc, nearness.instance, book, numbers.as_slice(), part)?;
    Ok(Regrown {
        left: left_of(part, leaves.len()),
        leaves: Some(leaves),
        reached,
    })
}
