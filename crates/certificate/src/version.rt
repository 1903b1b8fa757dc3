//! The versions of certificates.

ghost use Rattle.std.specs.Prelude.{◌≡◌, map};
ghost use Rattle.certificate.specs.Reading.{priced_lines};
ghost use Rattle.certificate.specs.Text.{version_of, listed_set_of, row_of};
ghost use Rattle.solomon_reader.specs.Bound.{listed_sets, listed_rows};

use crate::rows::SubsetRow;
use crate::sets::ListedSet;

/// The rule by which a certificate's leaves are valued.
#[derive(Debug, Drop)]
pub enum Version {
    /// Only a least reduced cost below zero counts, for each vehicle.
    One,
    /// A least reduced cost above zero counts too, for the fewest routes that a plan can have.
    Two,
    /// As the second, and routes are also paid at each entry of a set of this list that has a price. Its
    /// text is of another format, `VRPTW-SETS 1`.
    WithSets(Vec<ListedSet>),
    /// As with sets, and routes also pay at each charge by a row of the second list that has a price. Its
    /// text is of a third format, `VRPTW-ROWS 1`.
    WithRows {
        /// The sets, in the order in which prices name them.
        sets: Vec<ListedSet>,
        /// The rows, in increasing order.
        rows: Vec<SubsetRow>,
    },
}

/// Whose prices the lines of a leaf tell.
#[derive(Clone, Copy)]
pub enum PricedLines {
    /// Those of customers alone.
    Customers,
    /// Those of sets, too, out of so many.
    Sets(usize),
    /// Those of sets and rows, too, out of so many sets and so many rows.
    Rows(usize, usize),
}

impl Version {
    /// The sets that it lists, in order; none by the first two.
    pub fn sets(&self) -> &[ListedSet]
        ensures { map listed_set_of result.now ≡ listed_sets (version_of self.now) }
    {
        match self {
            Version::One | Version::Two => &[],
            Version::WithSets(sets) | Version::WithRows { sets, .. } => sets.as_slice(),
        }
    }

    /// The rows of three customers that it lists, in order; none but by the last.
    pub fn rows(&self) -> &[SubsetRow]
        ensures { map row_of result.now ≡ listed_rows (version_of self.now) }
    {
        match self {
            Version::One | Version::Two | Version::WithSets(_) => &[],
            Version::WithRows { rows, .. } => rows.as_slice(),
        }
    }

    /// Whose prices the lines of a leaf tell.
    pub(crate) fn priced_lines(&self) -> PricedLines
        ensures { result ≡ priced_lines (version_of self.now) }
    {
        match self {
            Version::One | Version::Two => PricedLines::Customers,
            Version::WithSets(sets) => PricedLines::Sets(sets.len()),
            Version::WithRows { sets, rows } => PricedLines::Rows(sets.len(), rows.len()),
        }
    }
}
