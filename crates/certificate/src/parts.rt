//! The parts of a certificate.

use crate::node::CertNode;
use crate::version::Version;
use tenths::Tenths;

/// What a certificate is made of. Any parts can stand here: only a `Cert` is known to have a text.
#[derive(Debug, Drop)]
pub struct CertParts {
    /// The rule by which leaves are valued.
    pub version: Version,
    /// The name of the instance.
    pub name: Vec<u8>,
    /// The number of customers.
    pub size: u16,
    /// How many neighbours a customer has in relaxed routes.
    pub neighbours: u32,
    /// The lower bound on the cost of every plan.
    pub bound: Tenths,
    /// The nodes of the tree in preorder, the tree where an arc is used first.
    pub nodes: Vec<CertNode>,
}
