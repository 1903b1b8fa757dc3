//! Reading a certificate.

ghost use Rattle.std.specs.Prelude.{◌≡◌, IfOk, Ok};
ghost use Rattle.solomon_reader.specs.CertificateText.{Certificate, IsCertificate, certificate_text, listed, IsCertificateText};
ghost use Rattle.certificate.specs.Reading.{Gives, nodes_at, reading};
ghost use Rattle.certificate.specs.Tree.{nodes_of};
ghost use Rattle.certificate.specs.Text.{content_of};

use crate::cert::Cert;
use crate::fault::CertFault;
use crate::head::{fixed, head_lines};
use crate::lists::listed;
use crate::node::CertNode;
use crate::nodes::{Nodes, tree};
use crate::parts::CertParts;
use crate::version::PricedLines;
use solomon_reader::{MOST_DEPTH, MOST_LEAVES};
use std::alloc::Global;
use tenths::Lines;

/// The nodes, and the lines behind the one that ends them.
#[tactic(auto, unfolding(crate::specs::Reading::nodes_at))]
fn nodes<'a>(
    alloc: Global,
    priced: PricedLines,
    size: u16,
    lines: Lines<'a>,
) -> Result<(Vec<CertNode>, Lines<'a>), CertFault>
    ensures { Gives (λ x. (nodes_of x.0.items, x.1)) result (nodes_at priced size lines.entry) }
{
    let mut state = Nodes {
        lines,
        size,
        priced,
        path: Vec::new(alloc),
        leaves: MOST_LEAVES,
        nodes: Vec::new(alloc),
    };
    tree(alloc, &mut state, MOST_DEPTH)?;
    let Nodes {
        mut lines,
        nodes,
        ..
    } = state;
    fixed(&mut lines, b"END")?;
    Ok((nodes, lines))
}

/// The parts of the certificate that a text is, or its first fault.
#[tactic(auto, unfolding(crate::specs::Reading::reading))]
fn parts_of(alloc: Global, text: &[u8]) -> Result<CertParts, CertFault>
    ensures { Gives (λ c. content_of c) result (reading text.now) }
{
    let mut lines = Lines::new(text);
    let head = head_lines(alloc, &mut lines)?;
    let version = listed(alloc, head.size, head.version, &mut lines)?;
    let (nodes, lines) = nodes(alloc, version.priced_lines(), head.size, lines)?;
    if !lines.is_done() {
        return Err(CertFault::Extra);
    }
    Ok(CertParts {
        version,
        name: head.name,
        size: head.size,
        neighbours: head.neighbours,
        bound: head.bound,
        nodes,
    })
}

/// The certificate that a text is, or its first fault. The text is read line by line: `BadLine`
/// where a line isn't what stands there, `Truncated` where no line feed is left for it, `Extra`
/// where bytes follow the last line. Of a node's line it is the first of `BadLine`, `PriceRange` and
/// `TooManyLeaves`, or of `BadLine`, `BadArc`, `ArcDecided` and `TooDeep`; of a set's line the first of
/// `BadLine`, `NeedRange`, `BadSet` and `TooManySets`; of a row's line the first of `BadLine`, `BadRow`
/// and `TooManyRows`; of a line of sets' prices the first of `BadLine`, `BadSet` and `PriceRange`; of
/// one of rows' prices the first of `BadLine`, `BadRow`, `TooManyRows` and `PriceRange`. `Memory` where
/// a growth was refused.
pub fn read(alloc: Global, text: &[u8]) -> Result<Cert, CertFault>
    // The text is that of what is read.
    ensures found { IfOk result (λ c. IsCertificateText text.now c) }
    // Each text of a certificate is read, unless memory runs out.
    ensures only { (c : Certificate) → IsCertificate c → text.now ≡ certificate_text c
        → Gives (λ x. x) result (Ok (listed c)) }
    // Which fault it is, unless memory ran out.
    ensures exact { Gives (λ x. x) result (reading text.now) }
{
    let parts = parts_of(alloc, text)?;
    Ok(Cert { parts })
}
