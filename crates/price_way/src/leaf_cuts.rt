//! The cuts that have a price at a leaf.

use priced_sets::PricedSet;
use prices::Priced;
use row_charges::PricedRow;

/// The sets and the rows that have a price at a leaf.
#[derive(Clone, Copy)]
pub struct LeafCuts<'p> {
    pub sets: &'p [PricedSet],
    pub rows: &'p [PricedRow],
}

impl<'p> LeafCuts<'p> {
    /// Those of a leaf. No contract: any prices are sound.
    pub fn of(leaf: &'p Priced<'_>) -> LeafCuts<'p> {
        LeafCuts {
            sets: leaf.sets(),
            rows: leaf.rows(),
        }
    }

    /// Whether these customers are a set, or a row, that has a price.
    pub(crate) fn has(&self, is_set: bool, members: &[u16]) -> bool {
        if is_set {
            let mut sets = self.sets.iter();
            sets.any(|set| set.members.as_slice() == members)
        } else {
            let mut rows = self.rows.iter();
            rows.any(|row| [row.first, row.second, row.third].as_slice() == members)
        }
    }
}
