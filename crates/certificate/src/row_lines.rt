//! The lines of rows.

ghost use Rattle.std.specs.Prelude.{◌≡◌, map};
ghost use Rattle.std.specs.Option.{option_map};
ghost use Rattle.certificate.specs.Reading.{Gives, is_listed_row, is_behind, row_in, rows_at};
ghost use Rattle.certificate.specs.Lines.{here};
ghost use Rattle.certificate.specs.Text.{row_of};
ghost use Rattle.solomon_reader.specs.CertificateText.{is_before};
ghost use Rattle.solomon_reader.specs.declared.limits.TheConstants.{MOST_ROWS};
ghost use Rattle.tenths.specs.Parts.{parts};

use crate::fault::CertFault;
use crate::line::{Line, next_line};
use crate::rows::SubsetRow;
use crate::set_lines::members;
use solomon_reader::MOST_ROWS;
use std::alloc::Global;
use tenths::{Lines, Parts};

/// Whether the three are customers, in increasing order.
pub fn is_listed_row(size: u16, row: SubsetRow) -> bool
    ensures { result ≡ is_listed_row size (row_of row) }
{
    1 <= row.first && row.first < row.second && row.second < row.third && row.third <= size
}

/// Whether one row stands before another in the order of lists.
fn is_before(row: SubsetRow, next: SubsetRow) -> bool
    ensures { result ≡ is_before (row_of row) (row_of next) }
{
    row.first < next.first
        || (row.first == next.first
            && (row.second < next.second || (row.second == next.second && row.third < next.third)))
}

/// Whether a row may follow the one before, where there is one.
pub fn is_behind(before: Option<SubsetRow>, row: SubsetRow) -> bool
    ensures { result ≡ is_behind (option_map row_of before) (row_of row) }
{
    match before {
        None => true,
        Some(other) => is_before(other, row),
    }
}

/// The row of a line, behind the one before.
#[tactic(auto, unfolding(crate::specs::Reading::row_in))]
fn row(
    alloc: Global,
    size: u16,
    before: Option<SubsetRow>,
    line: Line<'_>,
) -> Result<SubsetRow, CertFault>
    ensures { Gives row_of result (row_in size (option_map row_of before) line.entry.number (parts 32 line.entry.text.now)) }
{
    let bad = CertFault::BadLine { line: line.number };
    let mut words = Parts::new(line.text, b' ');
    let Some(word) = words.next() else {
        return Err(bad);
    };
    let members = members(alloc, line.number, &mut words)?;
    if word != b"R".as_slice() || members.len() != 3 {
        return Err(bad);
    }
    let row = SubsetRow {
        first: members[0],
        second: members[1],
        third: members[2],
    };
    if !is_listed_row(size, row) || !is_behind(before, row) {
        return Err(CertFault::BadRow { line: line.number });
    }
    Ok(row)
}

/// The rows from a line on, up to a line that begins otherwise, and that line.
pub fn rows<'a>(
    alloc: Global,
    size: u16,
    first: Line<'a>,
    lines: &mut Lines<'a>,
) -> Result<(Vec<SubsetRow>, Line<'a>), CertFault>
    ensures { Gives (λ x. (map row_of x.0.items, here x.1 lines.new)) result
        (rows_at size (here first.entry lines.old)) }
{
    let mut rows = Vec::new(alloc);
    let mut before = None;
    let mut line = first;
    while line.begins(b"R") {
        let row = row(alloc, size, before, line)?;
        if rows.len() >= MOST_ROWS as usize {
            return Err(CertFault::TooManyRows { line: line.number });
        }
        rows.push(row)?;
        before = Some(row);
        line = next_line(lines)?;
    }
    Ok((rows, line))
}
