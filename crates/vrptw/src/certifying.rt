//! The certificate of a bound.

ghost use Rattle.std.specs.Prelude.{◌≡◌, ℕ, ◌+◌, ◌≤◌, length, IfOk, IfErr, map};
ghost use Rattle.solomon_reader.specs.Bound.{ceiling_of};
ghost use Rattle.solomon_reader.specs.declared.limits.TheConstants.{MOST_NEIGHBOURS};
ghost use Rattle.branching.specs.Nodes as tree;
ghost use Rattle.certificate.specs.Tree as certificate;
ghost use Rattle.certificate.specs.Text.{listed_set_of, row_of, version_of};
ghost use Rattle.priced_sets.specs.Sets.{listed_set};
ghost use Rattle.incumbent_book.specs.Contents as book;
ghost use Rattle.incumbent_book.specs.RowLists.{listed_row};
ghost use Rattle.vrptw.specs.Certified.{IsCertified};
ghost use Rattle.vrptw.specs.Found.{HasTree};
ghost use Rattle.vrptw.specs.declared.answer.SolveFault.TheVariants.{Memory};

use crate::answer::SolveFault;
use branching::TreeNode;
use certificate::{Cert, CertNode, CertParts, ShapeFault, Version};
use incumbent_book::SubsetRow;
use priced_sets::ListedSet;
use run_settings::Settings;
use solomon_reader::Instance;
use std::alloc::{AllocError, Global};
use tenths::Tenths;

/// Prices of sets as a certificate has them.
fn certificate_prices(
    alloc: Global,
    prices: &[branching::SetPrice],
) -> Result<Vec<certificate::SetPrice>, AllocError>
    ensures { IfOk result (λ v. map certificate.set_price_of v.items ≡ map tree.set_price_of prices.now) }
{
    let mut listed = Vec::new(alloc);
    for price in prices {
        listed.push(certificate::SetPrice {
            set: price.set,
            price: price.price,
        })?;
    }
    Ok(listed)
}

/// Prices of rows as a certificate has them.
fn certificate_row_prices(
    alloc: Global,
    prices: &[branching::RowPrice],
) -> Result<Vec<certificate::RowPrice>, AllocError>
    ensures { IfOk result (λ v. map certificate.row_price_of v.items ≡ map tree.row_price_of prices.now) }
{
    let mut listed = Vec::new(alloc);
    for price in prices {
        listed.push(certificate::RowPrice {
            row: price.row,
            price: price.price,
        })?;
    }
    Ok(listed)
}

/// A node as a certificate has it.
fn certificate_node(alloc: Global, node: TreeNode) -> Result<CertNode, AllocError>
    ensures { IfOk result (λ n. certificate.node_of n ≡ tree.node_of node) }
{
    Ok(match node {
        TreeNode::Split(arc) => CertNode::Split {
            from: arc.from,
            to: arc.to,
        },
        TreeNode::Leaf(prices) => CertNode::SetLeaf {
            set_prices: certificate_prices(alloc, prices.sets.as_slice())?,
            prices: prices.customers,
            row_prices: certificate_row_prices(alloc, prices.rows.as_slice())?,
        },
    })
}

/// Nodes as a certificate has them.
fn certificate_nodes(alloc: Global, nodes: Vec<TreeNode>) -> Result<Vec<CertNode>, AllocError>
    ensures { IfOk result (λ v. map certificate.node_of v.items ≡ map tree.node_of nodes.items) }
{
    let mut listed = Vec::new(alloc);
    for node in nodes {
        listed.push(certificate_node(alloc, node)?)?;
    }
    Ok(listed)
}

/// Sets as a certificate has them.
fn certificate_sets(
    alloc: Global,
    sets: Vec<ListedSet>,
) -> Result<Vec<certificate::ListedSet>, AllocError>
    ensures { IfOk result (λ v. map listed_set_of v.items ≡ map listed_set sets.items) }
{
    let mut listed = Vec::new(alloc);
    for set in sets {
        listed.push(certificate::ListedSet {
            members: set.members,
            need: set.need,
        })?;
    }
    Ok(listed)
}

/// Rows as a certificate has them.
fn certificate_rows(
    alloc: Global,
    rows: Vec<SubsetRow>,
) -> Result<Vec<certificate::SubsetRow>, AllocError>
    ensures { IfOk result (λ v. map row_of v.items ≡ map listed_row rows.items) }
{
    let mut listed = Vec::new(alloc);
    for row in rows {
        listed.push(certificate::SubsetRow {
            first: row.first,
            second: row.second,
            third: row.third,
        })?;
    }
    Ok(listed)
}

/// The version of a certificate where as many sets and rows may have prices as the settings say, and these had.
fn version_for(
    alloc: Global,
    settings: &Settings,
    sets: Vec<ListedSet>,
    rows: Vec<SubsetRow>,
) -> Result<Version, AllocError>
    ensures { IfOk result (λ v. version_of v ≡ book.version_of settings.now.sets (map listed_set sets.items)
        settings.now.rows (map listed_row rows.items)) }
{
    if settings.rows > 0 {
        return Ok(Version::WithRows {
            sets: certificate_sets(alloc, sets)?,
            rows: certificate_rows(alloc, rows)?,
        });
    }
    if settings.sets > 0 {
        return Ok(Version::WithSets(certificate_sets(alloc, sets)?));
    }
    Ok(Version::Two)
}

/// The certificate of a bound, in tenths, as the settings say, with its sets, its rows and its tree. `Memory`.
pub(crate) fn certify(
    alloc: Global,
    instance: &Instance,
    settings: &Settings,
    bound: Tenths,
    sets: Vec<ListedSet>,
    rows: Vec<SubsetRow>,
    nodes: Vec<TreeNode>,
) -> Result<Cert, SolveFault>
    requires few { settings.now.neighbours ≤ MOST_NEIGHBOURS }
    requires most { bound ≤ ceiling_of instance.now + 1 }
    requires tree { HasTree instance.now settings.now
        (book.listed_by (map listed_set sets.items) (map listed_row rows.items)) nodes.items bound }
    ensures certified { IfOk result (IsCertified instance.now settings.now) }
    ensures bound { IfOk result (λ c. c.bound ≡ bound) }
    ensures memory { IfErr result (λ e. e ≡ Memory) }
{
    instance.law_of_limits();
    // brings in that tenths have a limit
    let _within = bound.get();
    let parts = CertParts {
        version: version_for(alloc, settings, sets, rows)?,
        name: Vec::from_slice(alloc, instance.name())?,
        size: instance.customer_count(),
        neighbours: settings.neighbours,
        bound,
        nodes: certificate_nodes(alloc, nodes)?,
    };
    match Cert::new(alloc, parts) {
        Ok(cert) => Ok(cert),
        Err((_, fault)) => match fault {
            ShapeFault::Memory => Err(SolveFault::Memory),
            ShapeFault::NotACertificate => unreachable!(),
        },
    }
}
