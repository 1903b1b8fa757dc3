//! The lists of sets and of rows, which grow together.

ghost use Rattle.std.specs.Prelude.{◌≡◌, ◌++◌, ◌≤◌, length, map, IfOk, IfErr, OnOk};
ghost use Rattle.solomon_reader.specs.CertificateText.{AreInOrder};
ghost use Rattle.priced_sets.specs.Sets.{listed_set};
ghost use Rattle.incumbent_book.specs.SetLists.{IsGrown, Begins};
ghost use Rattle.incumbent_book.specs.RowLists.{listed_row, IsRowGrown};
ghost use Rattle.incumbent_book.specs.Growing.{sets_in, rows_in, AreUnlistedFor};

use crate::fault::BookFault;
use crate::row_list::list_rows;
use crate::set_list::list_sets;
use crate::subset_row::SubsetRow;
use crate::wanted::Wanted;
use priced_sets::ListedSet;

/// How many sets and how many rows may be listed.
#[derive(Clone, Copy)]
pub(crate) struct Most {
    pub(crate) sets: u32,
    pub(crate) rows: u32,
}

/// Lists the wanted sets that aren't listed, and answers the list of rows with the wanted ones, as long as no more than
/// so many are. A refusal changes nothing.
pub(crate) fn list_all(
    listed: &mut Vec<ListedSet>,
    rows: &[SubsetRow],
    most: Most,
    first: Wanted<'_>,
    second: Wanted<'_>,
) -> Result<Vec<SubsetRow>, BookFault>
    requires few { length (map listed_set listed.old.items) ≤ most.sets }
    requires in_order { AreInOrder (map listed_row rows.now) }
    requires few_rows { length (map listed_row rows.now) ≤ most.rows }
    ensures sets { OnOk result (IsGrown most.sets (sets_in first.entry ++ sets_in second.entry)
        (map listed_set listed.old.items) (map listed_set listed.new.items)) }
    ensures begins { OnOk result (Begins listed.old.items listed.new.items) }
    ensures rows { IfOk result (λ r. IsRowGrown most.rows (rows_in first.entry ++ rows_in second.entry)
        (map listed_row rows.now) (map listed_row r.items)) }
    ensures err { IfErr result (λ why. AreUnlistedFor most.sets most.rows (sets_in first.entry ++ sets_in second.entry)
        (rows_in first.entry ++ rows_in second.entry) (map listed_set listed.old.items) (map listed_row rows.now) why
        × (listed.new.items ≡ listed.old.items)) }
{
    let before = listed.len();
    if let Err(fault) = list_sets(listed, most.sets, first.sets, second.sets) {
        return Err(fault);
    }
    let alloc = *listed.allocator();
    match list_rows(alloc, rows, most.rows, first.rows, second.rows) {
        Ok(grown) => Ok(grown),
        Err(fault) => {
            listed.truncate(before);
            Err(fault)
        }
    }
}
