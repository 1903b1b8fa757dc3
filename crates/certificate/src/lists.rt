//! The lists of a version, and the line that begins the tree.

ghost use Rattle.std.specs.Prelude.{◌≡◌};
ghost use Rattle.certificate.specs.Reading.{Gives, sets_listed_at, rows_listed_at, listed_at};
ghost use Rattle.certificate.specs.Text.{version_of};

use crate::fault::CertFault;
use crate::head::fixed;
use crate::line::next_line;
use crate::row_lines::rows;
use crate::set_lines::sets;
use crate::version::Version;
use std::alloc::Global;
use tenths::Lines;

/// The version with sets, from their lines and the one that begins the tree.
#[tactic(auto, unfolding(crate::specs::Reading::sets_listed_at))]
fn with_sets(alloc: Global, size: u16, lines: &mut Lines<'_>) -> Result<Version, CertFault>
    ensures { Gives (λ v. (version_of v, lines.new)) result (sets_listed_at size lines.old) }
{
    let first = next_line(lines)?;
    let (sets, last) = sets(alloc, size, first, lines)?;
    if last.text != b"TREE".as_slice() {
        return Err(CertFault::BadLine { line: last.number });
    }
    Ok(Version::WithSets(sets))
}

/// The version with rows, from the lines of sets, those of rows and the one that begins the tree.
#[tactic(auto, unfolding(crate::specs::Reading::rows_listed_at))]
fn with_rows(alloc: Global, size: u16, lines: &mut Lines<'_>) -> Result<Version, CertFault>
    ensures { Gives (λ v. (version_of v, lines.new)) result (rows_listed_at size lines.old) }
{
    let first = next_line(lines)?;
    let (sets, behind) = sets(alloc, size, first, lines)?;
    let (rows, last) = rows(alloc, size, behind, lines)?;
    if last.text != b"TREE".as_slice() {
        return Err(CertFault::BadLine { line: last.number });
    }
    Ok(Version::WithRows { sets, rows })
}

/// The version with its lists, from the lines up to the one that begins the tree.
#[tactic(auto, unfolding(crate::specs::Reading::listed_at))]
pub fn listed(
    alloc: Global,
    size: u16,
    version: Version,
    lines: &mut Lines<'_>,
) -> Result<Version, CertFault>
    ensures { Gives (λ v. (version_of v, lines.new)) result (listed_at size (version_of version) lines.old) }
{
    match version {
        Version::One => {
            fixed(lines, b"TREE")?;
            Ok(Version::One)
        }
        Version::Two => {
            fixed(lines, b"TREE")?;
            Ok(Version::Two)
        }
        Version::WithSets(_) => with_sets(alloc, size, lines),
        Version::WithRows { .. } => with_rows(alloc, size, lines),
    }
}
