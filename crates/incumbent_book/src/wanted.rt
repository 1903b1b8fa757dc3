//! What is to be listed.

ghost use Rattle.std.specs.Prelude.{◌≡◌, []};
ghost use Rattle.incumbent_book.specs.Contents.{bare};
ghost use Rattle.incumbent_book.specs.Growing.{sets_in, rows_in};

use priced_sets::PricedSet;
use prices::Priced;
use row_charges::PricedRow;

/// The sets and the rows that are to be listed.
#[derive(Clone, Copy)]
pub(crate) struct Wanted<'a> {
    pub(crate) sets: &'a [PricedSet],
    pub(crate) rows: &'a [PricedRow],
}

impl<'a> Wanted<'a> {
    /// Those that have a price.
    pub(crate) fn of(priced: &'a Priced<'_>) -> Wanted<'a>
        ensures sets { sets_in result ≡ priced.now.sets }
        ensures rows { rows_in result ≡ bare priced.now.rows }
    {
        Wanted {
            sets: priced.sets(),
            rows: priced.rows(),
        }
    }

    /// None.
    pub(crate) fn none() -> Wanted<'a>
        ensures sets { sets_in result ≡ [] }
        ensures rows { rows_in result ≡ [] }
    {
        Wanted {
            sets: &[],
            rows: &[],
        }
    }
}
