//! Leaves.

ghost use Rattle.std.specs.Prelude.{◌≡◌};
ghost use Rattle.leaf_arcs.specs.Arcs.{IsPricing};
ghost use Rattle.leaf_arcs.specs.Props.{props};
ghost use Rattle.leaf_arcs.specs.Sets.{leaf_of};

use crate::decision::Decision;
use crate::network::Network;
use crate::priced_set::PricedSet;
use row_charges::RowTable;

/// A leaf of a tree for an instance.
#[derive(Clone, Copy)]
pub struct Leaf<'a, 'i> {
    /// What all leaves share, and the instance.
    pub network: &'a Network<'i>,
    /// The decisions on the way to the leaf.
    pub path: &'a [Decision],
    /// The price of customer i in grains, at i - 1.
    pub prices: &'a [i64],
    /// The sets that have a price.
    pub sets: &'a [PricedSet<'a>],
    /// The rows that have a price.
    pub rows: &'a RowTable<'i>,
    ghost pricing: { IsPricing network.now.neighbours.instance.now (leaf_of prices.now sets.now rows.now) } by { Prim.hlevel props },
    ghost same: { rows.now.instance.now ≡ network.now.neighbours.instance.now },
    ghost listed: { rows.now.neighbours ≡ network.now.neighbours.k },
}
