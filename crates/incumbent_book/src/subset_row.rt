//! Rows of three customers without a price.

ghost use Rattle.std.specs.Prelude.{◌≡◌};
ghost use Rattle.std.specs.Bool.{Decides};
ghost use Rattle.row_charges.specs.Rows.{row_of};
ghost use Rattle.incumbent_book.specs.RowLists.{listed_row};

use row_charges::PricedRow;

/// Three customers, of whom at most one route of a plan serves two.
#[derive(Clone, Copy, Debug, PartialEq, Eq)]
pub struct SubsetRow {
    /// The first customer.
    pub first: u16,
    /// The second, above the first.
    pub second: u16,
    /// The third, above both.
    pub third: u16,
}

impl SubsetRow {
    /// A row without its price.
    pub(crate) fn of(row: &PricedRow) -> SubsetRow
        ensures { listed_row result ≡ (row_of row.now).row }
    {
        SubsetRow {
            first: row.first,
            second: row.second,
            third: row.third,
        }
    }

    /// Whether both are the same.
    pub(crate) fn is_same(self, other: SubsetRow) -> bool
        ensures { Decides result (listed_row self ≡ listed_row other) }
    {
        self.first == other.first && self.second == other.second && self.third == other.third
    }
}
