//! The tree of a text grows at a leaf of a book.

ghost use Rattle.std.specs.Prelude.{◌≡◌, ◌≢◌, None, IfErr, OnOk};
ghost use Rattle.solomon_reader.specs.Problem.{customer_count};
ghost use Rattle.solomon_reader.specs.CertificateText.{IsTreeAt};
ghost use Rattle.solomon_reader.specs.History.{IsLeaf};
ghost use Rattle.certificate.specs.Grown.{tree_of};
ghost use Rattle.certificate.specs.Text.{version_of};
ghost use Rattle.incumbent_book.specs.Faults.{region_at};
ghost use Rattle.given_tree.specs.declared.fault.ReplayFault.TheVariants.{LabelLimit};
ghost use Rattle.given_tree.specs.Nodes.{AreRowsKnown};
ghost use Rattle.given_tree.specs.Growing.{Keeps, IsGrownAt, IsTreeGrown, AreAdded};

use crate::fault::ReplayFault;
use crate::given::GivenTree;
use crate::handed_on::HandedOn;
use crate::leaf::grow_leaf;
use crate::splitting::split_leaf;
use branching::Arc;
use certificate::CertTree;
use incumbent_book::Book;

/// Grows a tree at a leaf, and adds the numbers of the leaves that its leaves become, in preorder.
pub(crate) fn grow_at<'i>(
    given: &GivenTree<'_>,
    handed_on: &mut HandedOn<'_>,
    book: &mut Book<'i>,
    tree: &CertTree<'_>,
    number: u32,
    leaves: &mut Vec<u32>,
) -> Result<(), ReplayFault>
    requires leaf { IsLeaf book.old.past number }
    requires rows { AreRowsKnown (version_of given.now.version.now) (customer_count book.old.problem) }
    requires shaped { IsTreeAt (version_of given.now.version.now) (region_at book.old number) (tree_of tree.now) }
    ensures keeps { Keeps book.old book.new }
    ensures grown { OnOk result (IsGrownAt book.old book.new number) }
    ensures tree { OnOk result (IsTreeGrown (version_of given.now.version.now) book.old book.new number (tree_of tree.now)) }
    ensures leaves { OnOk result (AreAdded book.old book.new number (tree_of tree.now) leaves.old.items leaves.new.items) }
    ensures unlimited { IfErr result (λ e. e ≡ LabelLimit → given.now.labels ≢ None) }
{
    match tree {
        CertTree::Leaf {
            prices,
            set_prices,
            row_prices,
        } => {
            grow_leaf(
                given, handed_on, book, number, prices, set_prices, row_prices,
            )?;
            leaves.push(number)?;
            Ok(())
        }
        CertTree::Split {
            from,
            to,
            used,
            unused,
        } => {
            let arc = Arc {
                from: *from,
                to: *to,
            };
            let (first, second) = split_leaf(given, handed_on, book, number, arc)?;
            grow_at(given, handed_on, book, used, first, leaves)?;
            grow_at(given, handed_on, book, unused, second, leaves)?;
            Ok(())
        }
    }
}
