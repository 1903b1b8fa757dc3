//! How prices are valued on a tree that is given.

use certificate::Version;
use fronts::Nearness;
use std::alloc::Global;

/// How prices are valued on a tree that is given: what all pricings on it share.
#[derive(Clone, Copy)]
pub(crate) struct GivenTree<'a> {
    pub(crate) alloc: Global,
    /// The tables of the instance.
    pub(crate) nearness: &'a Nearness<'a>,
    /// The rule by which the tree's leaves are valued, with the sets and the rows that it lists.
    pub(crate) version: &'a Version,
    /// How many labels a pricing has at most, if there is a limit.
    pub(crate) labels: Option<usize>,
}
