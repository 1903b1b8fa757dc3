//! Certificates.

ghost use Rattle.std.specs.Prelude.{◌≡◌, IfOk, IfErr};
ghost use Rattle.certificate.specs.declared.fault.ShapeFault.TheVariants.{NotACertificate};
ghost use Rattle.certificate.specs.Text.{content_of};
ghost use Rattle.certificate.specs.Grown.{tree_of};
ghost use Rattle.solomon_reader.specs.Bound.{Tree, preorder};
ghost use Rattle.solomon_reader.specs.Region.{root_region};
ghost use Rattle.solomon_reader.specs.CertificateText.{HasText, IsTreeAt};

use crate::fault::ShapeFault;
use crate::parts::CertParts;
use crate::shape::have_text;
use crate::tree::{CertTree, grow};
use solomon_reader::MOST_DEPTH;
use std::alloc::{AllocError, Global};
use std::marker::Model;

/// A certificate of a lower bound: always one that has a text. Contracts see its contents.
#[derive(Debug, Drop)]
pub struct Cert {
    pub(crate) parts: CertParts,
}

impl Model for Cert {
    ghost use Rattle.solomon_reader.specs.CertificateText.{Content, HasText};
    ghost use Rattle.certificate.specs.Text.{content_of};

    ghost Value = { Content };

    ghost view = { λ c. content_of c.parts };

    ghost invariant = { λ c. HasText (content_of c.parts) };
}

impl Cert {
    /// The certificate of these parts, where they have a text. Else the parts come back, with
    /// `NotACertificate` where they have none: the name isn't one, a number is out of its range, or
    /// the nodes aren't those of one tree within its limits; and with `Memory` where a growth was
    /// refused.
    pub fn new(alloc: Global, parts: CertParts) -> Result<Cert, (CertParts, ShapeFault)>
        ensures holds { IfOk result (λ c. c ≡ content_of parts) }
        ensures has_text { IfOk result (λ c. HasText (content_of parts)) }
        ensures back { IfErr result (λ e. e.0 ≡ parts) }
        ensures refused { IfErr result (λ e. e.1 ≡ NotACertificate → ¬ HasText (content_of parts)) }
    {
        match have_text(alloc, &parts) {
            Err(_) => Err((parts, ShapeFault::Memory)),
            Ok(false) => Err((parts, ShapeFault::NotACertificate)),
            Ok(true) => Ok(Cert { parts }),
        }
    }

    /// What the certificate is made of.
    pub fn parts(&self) -> &CertParts
        ensures value { content_of result.now ≡ self.now }
        ensures has_text { HasText self.now }
    {
        &self.parts
    }

    /// The tree of the nodes, which lends their prices. `AllocError` where memory was refused.
    pub fn tree(&self, alloc: Global) -> Result<CertTree<'_>, AllocError>
        ensures nodes { IfOk result (λ t. preorder (tree_of t) ≡ self.now.nodes) }
        ensures only { IfOk result (λ t. (tree : Tree) → preorder tree ≡ self.now.nodes → tree ≡ tree_of t) }
        ensures shaped { IfOk result (λ t. IsTreeAt self.now.version (root_region self.now.size) (tree_of t)) }
    {
        let mut nodes = self.parts.nodes.as_slice();
        let Some(tree) = grow(alloc, &mut nodes, MOST_DEPTH)? else {
            unreachable!()
        };
        Ok(tree)
    }

    /// What the certificate was made of.
    pub fn into_parts(self) -> CertParts
        ensures value { content_of result ≡ self }
        ensures has_text { HasText self }
    {
        self.parts
    }
}
