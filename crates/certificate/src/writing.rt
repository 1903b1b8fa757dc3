//! Certificates, written as text.

ghost use Rattle.std.specs.Prelude.{◌≡◌, ◌++◌, codes, decimal, map};
ghost use Rattle.std.specs.List.{flat_map};
ghost use Rattle.tenths.specs.Sink.{Writes};
ghost use Rattle.tenths.specs.Text.{tenths_text, spaced, line};
ghost use Rattle.certificate.specs.Tree.{node_of};
ghost use Rattle.certificate.specs.Text.{version_of, content_of, listed_set_of, row_of, set_text, row_text, placed_text, priced_texts, node_texts, name_lines, head_lines, content_text};
ghost use Rattle.certificate.specs.Tree.{set_price_of, row_price_of, leaf_prices_of};
ghost use Rattle.solomon_reader.specs.Bound.{leaf_node};
ghost use Rattle.solomon_reader.specs.CertificateText.{Certificate, HasText, first_line, listed, certificate_text};

use crate::cert::Cert;
use crate::fault::WriteFault;
use crate::node::CertNode;
use crate::parts::CertParts;
use crate::placed::PlacedPrice;
use crate::rows::{RowPrice, SubsetRow};
use crate::sets::{ListedSet, SetPrice};
use crate::version::{PricedLines, Version};
use itoa::Buffer;
use tenths::{Device, Sink, write_number_line, write_pieces, write_tenths_line, write_text};

/// The lines before that of the bound.
fn write_names<W: Sink>(parts: &CertParts, sink: &mut W) -> Result<(), Device>
    ensures { Writes (W.held sink.old) (W.held sink.new) result
        (first_line (version_of parts.now.version)
        ++ flat_map line (name_lines (content_of parts.now))) }
{
    let first = match parts.version {
        Version::One => b"VRPTW-CERT 1\n".as_slice(),
        Version::Two => b"VRPTW-CERT 2\n".as_slice(),
        Version::WithSets(_) => b"VRPTW-SETS 1\n".as_slice(),
        Version::WithRows { .. } => b"VRPTW-ROWS 1\n".as_slice(),
    };
    let mut size = Buffer::new();
    let mut neighbours = Buffer::new();
    write_pieces(
        &[
            first,
            b"INSTANCE ",
            parts.name.as_slice(),
            b"\nCUSTOMERS ",
            size.format(parts.size).as_bytes(),
            b"\nNEIGHBOURS ",
            neighbours.format(parts.neighbours).as_bytes(),
            b"\n",
        ],
        sink,
    )
}

/// The line of a set.
fn write_set<W: Sink>(set: &ListedSet, sink: &mut W) -> Result<(), Device>
    ensures { Writes (W.held sink.old) (W.held sink.new) result (line (set_text (listed_set_of set.now))) }
{
    let mut need = Buffer::new();
    let members = set.members.as_slice();
    write_number_line(&[b"S ", need.format(set.need).as_bytes()], members, sink)
}

/// A line for each set.
fn write_sets<W: Sink>(sets: &[ListedSet], sink: &mut W) -> Result<(), Device>
    ensures { Writes (W.held sink.old) (W.held sink.new) result
        (flat_map (λ s. line (set_text (listed_set_of s))) sets.now) }
{
    for set in sets {
        write_set(set, sink)?;
    }
    Ok(())
}

/// The line of a row.
fn write_row<W: Sink>(row: &SubsetRow, sink: &mut W) -> Result<(), Device>
    ensures { Writes (W.held sink.old) (W.held sink.new) result (line (row_text (row_of row.now))) }
{
    write_number_line(&[b"R"], &[row.first, row.second, row.third], sink)
}

/// A line for each row.
fn write_rows<W: Sink>(rows: &[SubsetRow], sink: &mut W) -> Result<(), Device>
    ensures { Writes (W.held sink.old) (W.held sink.new) result
        (flat_map (λ s. line (row_text (row_of s))) rows.now) }
{
    for row in rows {
        write_row(row, sink)?;
    }
    Ok(())
}

/// The lines before the nodes.
fn write_head<W: Sink>(parts: &CertParts, sink: &mut W) -> Result<(), Device>
    ensures { Writes (W.held sink.old) (W.held sink.new) result
        (flat_map line (head_lines (content_of parts.now))) }
{
    write_names(parts, sink)?;
    write_tenths_line(b"BOUND ", parts.bound, sink)?;
    write_sets(parts.version.sets(), sink)?;
    write_rows(parts.version.rows(), sink)?;
    write_text(b"TREE\n", sink)
}

/// A price with its place, as a line of prices has it.
fn write_price<P: PlacedPrice, W: Sink>(priced: &P, sink: &mut W) -> Result<(), Device>
    ensures { Writes (W.held sink.old) (W.held sink.new) result
        (spaced (decimal (P.pair priced.now).0) ++ spaced (decimal (P.pair priced.now).1)) }
{
    let mut place = Buffer::new();
    let mut price = Buffer::new();
    write_pieces(
        &[
            b" ",
            place.format(priced.place()).as_bytes(),
            b" ",
            price.format(priced.price()).as_bytes(),
        ],
        sink,
    )
}

/// Prices with their places, one after another.
fn write_each_price<P: PlacedPrice, W: Sink>(placed: &[P], sink: &mut W) -> Result<(), Device>
    ensures { Writes (W.held sink.old) (W.held sink.new) result
        (flat_map (λ m. spaced (decimal (P.pair m).0) ++ spaced (decimal (P.pair m).1)) placed.now) }
{
    for priced in placed {
        write_price(priced, sink)?;
    }
    Ok(())
}

/// The line of prices with their places, behind a word.
fn write_placed<P: PlacedPrice, W: Sink>(
    text: &[u8],
    placed: &[P],
    sink: &mut W,
) -> Result<(), Device>
    ensures { Writes (W.held sink.old) (W.held sink.new) result
        (line (placed_text text.now (map P.pair placed.now))) }
{
    write_text(text, sink)?;
    write_each_price(placed, sink)?;
    write_text(b"\n", sink)
}

/// The lines of a leaf behind that of its customers' prices.
fn write_priced<W: Sink>(
    lines: PricedLines,
    set_prices: &[SetPrice],
    row_prices: &[RowPrice],
    sink: &mut W,
) -> Result<(), Device>
    ensures { Writes (W.held sink.old) (W.held sink.new) result
        (flat_map line (priced_texts lines (map set_price_of set_prices.now) (map row_price_of row_prices.now))) }
{
    match lines {
        PricedLines::Customers => Ok(()),
        PricedLines::Sets(_) => write_placed(b"M", set_prices, sink),
        PricedLines::Rows(_, _) => {
            write_placed(b"M", set_prices, sink)?;
            write_placed(b"Q", row_prices, sink)
        }
    }
}

/// The lines of a leaf.
fn write_leaf<W: Sink>(
    lines: PricedLines,
    prices: &[i64],
    set_prices: &[SetPrice],
    row_prices: &[RowPrice],
    sink: &mut W,
) -> Result<(), Device>
    ensures { Writes (W.held sink.old) (W.held sink.new) result
        (flat_map line (node_texts lines (leaf_node (leaf_prices_of prices.now set_prices.now row_prices.now)))) }
{
    write_number_line(&[b"P"], prices, sink)?;
    write_priced(lines, set_prices, row_prices, sink)
}

/// The lines of a node.
fn write_node<W: Sink>(lines: PricedLines, node: &CertNode, sink: &mut W) -> Result<(), Device>
    ensures { Writes (W.held sink.old) (W.held sink.new) result
        (flat_map line (node_texts lines (node_of node.now))) }
{
    match node {
        CertNode::Split { from, to } => write_number_line(&[b"S"], &[*from, *to], sink),
        CertNode::Leaf(prices) => write_leaf(lines, prices.as_slice(), &[], &[], sink),
        CertNode::SetLeaf {
            prices,
            set_prices,
            row_prices,
        } => {
            let (set_prices, row_prices) = (set_prices.as_slice(), row_prices.as_slice());
            write_leaf(lines, prices.as_slice(), set_prices, row_prices, sink)
        }
    }
}

/// The lines of each node.
fn write_nodes<W: Sink>(lines: PricedLines, nodes: &[CertNode], sink: &mut W) -> Result<(), Device>
    ensures { Writes (W.held sink.old) (W.held sink.new) result
        (flat_map (λ x. flat_map line (node_texts lines (node_of x))) nodes.now) }
{
    for node in nodes {
        write_node(lines, node, sink)?;
    }
    Ok(())
}

/// Writes the text of a certificate. `Device` where the sink failed in the call: then it took a
/// beginning of the text.
pub fn write<W: Sink>(cert: &Cert, sink: &mut W) -> Result<(), WriteFault>
    // There is a certificate with these contents; two of them are the same.
    ensures has_text { HasText cert.now }
    ensures text { (c : Certificate) → cert.now ≡ listed c
        → Writes (W.held sink.old) (W.held sink.new) result (certificate_text c) }
{
    let parts = cert.parts();
    write_head(parts, sink)?;
    write_nodes(parts.version.priced_lines(), parts.nodes.as_slice(), sink)?;
    write_text(b"END\n", sink)?;
    Ok(())
}
