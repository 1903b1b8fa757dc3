//! The whole tree of a certificate grows in a book.

ghost use Rattle.std.specs.Prelude.{◌≡◌, ◌≢◌, ℕ, None, IfErr, IfOk, OnOk};
ghost use Rattle.solomon_reader.specs.Problem.{customer_count};
ghost use Rattle.solomon_reader.specs.Bound.{Tree, preorder, IsTreeBound};
ghost use Rattle.solomon_reader.specs.History.{costs_of, split_count};
ghost use Rattle.given_tree.specs.declared.fault.ReplayFault.TheVariants.{LabelLimit};
ghost use Rattle.given_tree.specs.Growing.{AreLeavesOf};
ghost use Rattle.incumbent_book.specs.Reaching.{IsReached};

use crate::fault::ReplayFault;
use crate::given::GivenTree;
use crate::growing::grow_at;
use crate::handed_on::HandedOn;
use certificate::Cert;
use fronts::Nearness;
use incumbent_book::Book;
use std::alloc::Global;

/// Grows the tree of a certificate in a book that has no split yet, and answers the numbers of the leaves that the
/// tree's leaves become, in preorder. The book's bound is at least that of the tree then.
///
/// Both children of a split begin with the prices of their leaf, and where a child has no relaxed route with high ones.
/// A leaf takes the prices of the tree where their value is higher. Each pricing has at most this many labels, if there
/// is a limit.
///
/// `LabelLimit` where they don't suffice; `Unfit` where the book has no room for the tree, or where sets of a leaf can't
/// have their prices as they stand; and `Memory`. A part of the tree may stand in the book then.
pub fn replay<'i>(
    alloc: Global,
    nearness: &Nearness<'_>,
    book: &mut Book<'i>,
    cert: &Cert,
    labels: Option<usize>,
) -> Result<Vec<u32>, ReplayFault>
    requires size { cert.now.size ≡ customer_count book.old.problem }
    requires neighbours { cert.now.neighbours ≡ book.old.neighbours }
    requires whole { split_count book.old.past ≡ 0 }
    ensures problem { book.new.problem ≡ book.old.problem }
    ensures neighbours { book.new.neighbours ≡ book.old.neighbours }
    ensures root { book.new.root ≡ book.old.root }
    ensures limits { book.new.limits ≡ book.old.limits }
    ensures sets { book.new.most_sets ≡ book.old.most_sets }
    ensures rows { book.new.most_rows ≡ book.old.most_rows }
    ensures incumbent { book.new.incumbent ≡ book.old.incumbent }
    ensures costs { costs_of book.new.past ≡ costs_of book.old.past }
    ensures reached { OnOk result ((tree : Tree) (b : ℕ) → preorder tree ≡ cert.now.nodes
        → IsTreeBound cert.now.version book.old.problem cert.now.neighbours tree b
        → IsReached b book.new) }
    ensures leaves { IfOk result (λ v. (tree : Tree) → preorder tree ≡ cert.now.nodes → AreLeavesOf book.new v.items tree) }
    ensures unlimited { IfErr result (λ e. e ≡ LabelLimit → labels ≢ None) }
{
    let tree = cert.tree(alloc)?;
    let given = GivenTree {
        alloc,
        nearness,
        version: &cert.parts().version,
        labels,
    };
    let Some(root) = book.leaf(0) else {
        unreachable!()
    };
    let mut handed_on = HandedOn::nothing(alloc, root.instance())?;
    let mut leaves = Vec::new(alloc);
    grow_at(&given, &mut handed_on, book, &tree, 0, &mut leaves)?;
    Ok(leaves)
}
