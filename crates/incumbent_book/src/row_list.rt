//! The list of the rows that had a price at some leaf, in increasing order.

ghost use Rattle.std.specs.Prelude.{◌≡◌, ◌++◌, ◌<◌, ◌≤◌, ◌∷◌, [], length, map, IfOk, IfErr, OnOk, slice_index_or};
ghost use Rattle.std.specs.Bool.{Decides};
ghost use Rattle.solomon_reader.specs.CertificateText.{is_before, AreInOrder};
ghost use Rattle.row_charges.specs.Rows.{rows_of};
ghost use Rattle.incumbent_book.specs.Contents.{bare};
ghost use Rattle.incumbent_book.specs.RowLists.{listed_row, no_row, IsPlaceFor, IsRowGrown, AreRowsUnlistedFor};

use crate::fault::BookFault;
use crate::subset_row::SubsetRow;
use row_charges::PricedRow;
use std::alloc::Global;

/// Whether a row stands before another one.
fn is_before(row: &SubsetRow, other: &SubsetRow) -> bool
    ensures { result ≡ is_before (listed_row row.now) (listed_row other.now) }
{
    row.first < other.first
        || row.first == other.first
            && (row.second < other.second || row.second == other.second && row.third < other.third)
}

/// The place of a row in a list in increasing order: behind those that stand before it.
pub(crate) fn place_for(listed: &[SubsetRow], row: SubsetRow) -> usize
    ensures { IsPlaceFor (listed_row row) (map listed_row listed.now) result }
{
    for place in 0..listed.len() {
        if !is_before(&listed[place], &row) {
            return place;
        }
    }
    listed.len()
}

/// Whether a row stands at a place.
fn stands_at(listed: &[SubsetRow], place: usize, row: SubsetRow) -> bool
    ensures { Decides result ((place < length (map listed_row listed.now))
        × (slice_index_or (map listed_row listed.now) place no_row ≡ listed_row row)) }
{
    match listed.get(place) {
        Some(other) => other.is_same(row),
        None => false,
    }
}

/// Lists a row at its place where it isn't, as long as no more than `most` are.
fn add(listed: &mut Vec<SubsetRow>, most: u32, row: SubsetRow) -> Result<(), BookFault>
    requires in_order { AreInOrder (map listed_row listed.old.items) }
    requires few { length (map listed_row listed.old.items) ≤ most }
    ensures ok { OnOk result (IsRowGrown most (listed_row row ∷ [])
        (map listed_row listed.old.items) (map listed_row listed.new.items)) }
    ensures err { IfErr result (AreRowsUnlistedFor most (listed_row row ∷ []) (map listed_row listed.old.items)) }
{
    let place = place_for(listed.as_slice(), row);
    if stands_at(listed.as_slice(), place, row) {
        return Ok(());
    }
    if listed.len() >= most as usize {
        return Err(BookFault::RowsFull);
    }
    match listed.insert(place, row) {
        Ok(()) => Ok(()),
        Err(_) => Err(BookFault::Memory),
    }
}

/// Lists those of some rows that aren't, as long as no more than `most` are. At a refusal some may be listed.
fn gather(listed: &mut Vec<SubsetRow>, most: u32, rows: &[PricedRow]) -> Result<(), BookFault>
    requires in_order { AreInOrder (map listed_row listed.old.items) }
    requires few { length (map listed_row listed.old.items) ≤ most }
    ensures ok { OnOk result (IsRowGrown most (bare (rows_of rows.now))
        (map listed_row listed.old.items) (map listed_row listed.new.items)) }
    ensures err { IfErr result (AreRowsUnlistedFor most (bare (rows_of rows.now)) (map listed_row listed.old.items)) }
{
    for row in rows {
        add(listed, most, SubsetRow::of(row))?;
    }
    Ok(())
}

/// A list with those of two lists of rows that it lacks, as long as no more than `most` are listed.
pub(crate) fn list_rows(
    alloc: Global,
    listed: &[SubsetRow],
    most: u32,
    first: &[PricedRow],
    second: &[PricedRow],
) -> Result<Vec<SubsetRow>, BookFault>
    requires in_order { AreInOrder (map listed_row listed.now) }
    requires few { length (map listed_row listed.now) ≤ most }
    ensures ok { IfOk result (λ rows. IsRowGrown most (bare (rows_of first.now) ++ bare (rows_of second.now))
        (map listed_row listed.now) (map listed_row rows.items)) }
    ensures err { IfErr result (AreRowsUnlistedFor most (bare (rows_of first.now) ++ bare (rows_of second.now))
        (map listed_row listed.now)) }
{
    let Ok(mut rows) = Vec::from_slice(alloc, listed) else {
        return Err(BookFault::Memory);
    };
    gather(&mut rows, most, first)?;
    gather(&mut rows, most, second)?;
    Ok(rows)
}
