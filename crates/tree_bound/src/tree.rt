//! The bound of a tree.

ghost use Rattle.tree_bound.specs.Settings.{neighbours_in, problem_in, version_in, IsTreeIn, IsBoundIn};
ghost use Rattle.std.specs.Prelude.{◌≡◌, ◌≤◌, [], ◌∷◌, ◌++◌, IfOk};
ghost use Rattle.solomon_reader.specs.Problem.{customer_count};
ghost use Rattle.solomon_reader.specs.Bound.{Tree, preorder, IsTreeBound};
ghost use Rattle.certificate.specs.Grown.{tree_of};
ghost use Rattle.leaf_arcs.specs.Decisions.{region_of};
ghost use Rattle.certificate.specs.Tree.{leaf_prices_of};
ghost use Rattle.tree_bound.specs.Nodes.{IsLeafAt, IsLesserAt};

use crate::fault::BoundFault;
use crate::leaf_rows::row_table;
use crate::leaf_sets::priced_sets;
use crate::setting::Setting;
use crate::value::{Lesser, lesser_value};
use certificate::{Cert, CertTree, RowPrice, SetPrice};
use leaf_arcs::Decision;
use solomon_reader::Instance;
use std::alloc::{AllocFailed, Global};
use tenths::Tenths;

/// The lesser of a number of tenths and the value of a leaf below the decisions of a path.
fn bound_at_leaf(
    alloc: Global,
    setting: &Setting<'_>,
    path: &[Decision],
    prices: &[i64],
    set_prices: &[SetPrice],
    row_prices: &[RowPrice],
    most: u32,
    level: usize,
) -> Result<Lesser, BoundFault>
    requires shaped { IsLeafAt (version_in setting.now) (customer_count (problem_in setting.now))
        (leaf_prices_of prices.now set_prices.now row_prices.now) }
    ensures { IfOk result (λ t. IsLesserAt
        (version_in setting.now) (problem_in setting.now)
        (region_of (customer_count (problem_in setting.now)) path.now)
        (neighbours_in setting.now) (leaf_prices_of prices.now set_prices.now row_prices.now)
        most t.bound) }
{
    setting.network.neighbours.instance.law_of_limits();
    let sets = priced_sets(alloc, setting.version.sets(), set_prices)?;
    let rows = row_table(alloc, setting, row_prices)?;
    let lesser = lesser_value(
        alloc,
        setting,
        path,
        prices,
        sets.as_slice(),
        &rows,
        most,
        level,
    )?;
    Ok(lesser)
}

/// Adds a decision to a path.
fn decide(
    path: &mut Vec<Decision>,
    from: u16,
    to: u16,
    required: bool,
) -> Result<(), AllocFailed<Decision>>
    ensures { IfOk result (λ _. path.new.items ≡ path.old.items ++ (record { from = from; to = to; required = required } ∷ [])) }
{
    path.push(Decision { from, to, required })
}

/// The lesser of a number of tenths and the bound of a tree below the decisions of a path.
fn bound_at(
    alloc: Global,
    setting: &Setting<'_>,
    tree: &CertTree<'_>,
    path: &mut Vec<Decision>,
    most: u32,
    level: usize,
) -> Result<Lesser, BoundFault>
    requires most { most ≤ setting.now.most }
    requires shaped { IsTreeIn setting.now path.old.items (tree_of tree.now) }
    ensures path { IfOk result (λ _. path.new.items ≡ path.old.items) }
    ensures less { IfOk result (λ t. t.bound ≤ most) }
    ensures bound { IfOk result (λ t. IsBoundIn setting.now path.old.items (tree_of tree.now) most t.bound) }
{
    match tree {
        CertTree::Leaf {
            prices,
            set_prices,
            row_prices,
        } => {
            let found = bound_at_leaf(
                alloc,
                setting,
                path.as_slice(),
                prices,
                set_prices,
                row_prices,
                most,
                level,
            )?;
            Ok(found)
        }
        CertTree::Split {
            from,
            to,
            used,
            unused,
        } => {
            let depth = path.len();
            decide(path, *from, *to, true)?;
            let first = bound_at(alloc, setting, used, path, most, level)?;
            path.truncate(depth);
            decide(path, *from, *to, false)?;
            let second = bound_at(alloc, setting, unused, path, first.bound, first.level)?;
            path.truncate(depth);
            Ok(second)
        }
    }
}

/// The bound of a certificate's tree for an instance, in tenths: the least of the instance's ceiling
/// plus one and the values of the tree's leaves. No plan costs less; where the bound is above the
/// ceiling, there is no plan.
///
/// The value of a leaf follows from its prices and the least reduced cost of a relaxed route that the
/// decisions on its path allow, as the certificate's version says. Where sets have a price at the leaf, a route is
/// paid it at each entry, and the value has it for all needed entries. Where rows of three customers have one, a route
/// pays it at each charge, and the value is less by one charge of each. Whether it is less than the least so
/// far is found by keeping, for each last customer, load and memory, the pairs of time and cost that no
/// other dominates, and from which a route may still come that lowers it. With rows a pair also has their bits, and
/// dominates another one only where it is cheaper by the prices of the rows that may charge it alone.
///
/// `state_limit` counts the kept pairs that stand at once for one leaf. A pair stands from when it is
/// kept until it is found to be dominated, or passed over as dear when its turn comes; one that was worked
/// stays, among the settled ones. The empty beginning at the depot is none. `StateLimit` where that many stand and one
/// more has to be kept, `Memory` where a growth was refused.
pub fn bound(
    alloc: Global,
    instance: &Instance,
    cert: &Cert,
    state_limit: usize,
) -> Result<Tenths, BoundFault>
    requires size { cert.now.size ≡ customer_count instance.now }
    ensures bound { IfOk result (λ b. (tree : Tree) → preorder tree ≡ cert.now.nodes
        → IsTreeBound cert.now.version instance.now cert.now.neighbours tree b) }
{
    let setting = Setting::new(alloc, instance, cert, state_limit)?;
    let tree = cert.tree(alloc)?;
    let mut path = Vec::new(alloc);
    let whole = bound_at(alloc, &setting, &tree, &mut path, setting.most, 0)?;
    Ok(Tenths::from(whole.bound))
}
