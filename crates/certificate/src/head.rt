//! The lines before the tree.

ghost use Rattle.std.specs.Prelude.{◌≡◌, ◌≤◌, IfOk};
ghost use Rattle.std.specs.List.{list_all};
ghost use Rattle.tenths.specs.Parts.{parts};
ghost use Rattle.certificate.specs.Reading.{Gives, fixed_at, version_at, second, field_at, is_name, name_at, within_at, bound_at, sizes_at, head_at};
ghost use Rattle.solomon_reader.specs.Words.{is_letter};
ghost use Rattle.certificate.specs.Text.{version_of};

use crate::fault::CertFault;
use crate::version::Version;
use solomon_reader::{MOST_CUSTOMERS, MOST_NAME, MOST_NEIGHBOURS};
use std::alloc::Global;
use tenths::{Lines, Parts, Tenths, number, read_tenths};

/// What the first five lines say; nothing is listed yet.
#[derive(Drop)]
pub struct Head {
    pub version: Version,
    pub name: Vec<u8>,
    pub size: u16,
    pub neighbours: u32,
    pub bound: Tenths,
}

/// This very line.
#[tactic(auto, unfolding(crate::specs::Reading::fixed_at))]
pub fn fixed(lines: &mut Lines<'_>, text: &[u8]) -> Result<(), CertFault>
    ensures { Gives (λ _. lines.new) result (fixed_at text.now lines.old) }
{
    let number = lines.number();
    let Some(line) = lines.next() else {
        return Err(CertFault::Truncated);
    };
    if line != text {
        return Err(CertFault::BadLine { line: number });
    }
    Ok(())
}

/// The second of the next line's two words, of which the first is this one.
#[tactic(auto, unfolding(crate::specs::Reading::field_at))]
fn field<'a>(lines: &mut Lines<'a>, text: &[u8]) -> Result<&'a [u8], CertFault>
    ensures { Gives (λ w. (w.now, lines.new)) result (field_at text.now lines.old) }
{
    let number = lines.number();
    let Some(line) = lines.next() else {
        return Err(CertFault::Truncated);
    };
    let bad = CertFault::BadLine { line: number };
    let mut words = Parts::new(line, b' ');
    match words.next() {
        None => Err(bad),
        Some(first) => match words.next() {
            None => Err(bad),
            Some(word) => {
                if words.next().is_some() || first != text {
                    return Err(bad);
                }
                Ok(word)
            }
        },
    }
}

fn are_letters(word: &[u8]) -> bool
    ensures { result ≡ list_all is_letter word.now }
{
    word.iter().all(|b| 33 <= *b && *b <= 126)
}

pub fn is_name_word(word: &[u8]) -> bool
    ensures { result ≡ is_name word.now }
{
    1 <= word.len() && word.len() <= MOST_NAME && are_letters(word)
}

/// The name.
#[tactic(auto, unfolding(crate::specs::Reading::name_at))]
fn name(alloc: Global, lines: &mut Lines<'_>) -> Result<Vec<u8>, CertFault>
    ensures { Gives (λ v. (v.items, lines.new)) result (name_at lines.old) }
{
    let line = lines.number();
    let word = field(lines, b"INSTANCE")?;
    if !is_name_word(word) {
        return Err(CertFault::BadLine { line });
    }
    Ok(Vec::from_slice(alloc, word)?)
}

/// A canonical number from `low` to `high`.
#[tactic(auto, unfolding(crate::specs::Reading::within_at))]
fn within(lines: &mut Lines<'_>, text: &[u8], low: u64, high: u64) -> Result<u64, CertFault>
    ensures within { IfOk result (λ m. (low ≤ m) × (m ≤ high)) }
    ensures exact { Gives (λ m. (m, lines.new)) result (within_at text.now low high lines.old) }
{
    let line = lines.number();
    let word = field(lines, text)?;
    match number(word) {
        Some(m) if low <= m && m <= high => Ok(m),
        _ => Err(CertFault::BadLine { line }),
    }
}

/// The bound.
#[tactic(auto, unfolding(crate::specs::Reading::bound_at))]
fn bound(lines: &mut Lines<'_>) -> Result<Tenths, CertFault>
    ensures { Gives (λ t. (t, lines.new)) result (bound_at lines.old) }
{
    let line = lines.number();
    let word = field(lines, b"BOUND")?;
    read_tenths(word).ok_or(CertFault::BadLine { line })
}

/// The first line.
#[tactic(auto, unfolding(crate::specs::Reading::version_at))]
fn version(alloc: Global, lines: &mut Lines<'_>) -> Result<Version, CertFault>
    ensures { Gives (λ v. (version_of v, lines.new)) result (version_at lines.old) }
{
    let number = lines.number();
    let Some(line) = lines.next() else {
        return Err(CertFault::Truncated);
    };
    if line == b"VRPTW-CERT 1".as_slice() {
        return Ok(Version::One);
    }
    if line == b"VRPTW-CERT 2".as_slice() {
        return Ok(Version::Two);
    }
    if line == b"VRPTW-SETS 1".as_slice() {
        return Ok(Version::WithSets(Vec::new(alloc)));
    }
    if line == b"VRPTW-ROWS 1".as_slice() {
        return Ok(Version::WithRows {
            sets: Vec::new(alloc),
            rows: Vec::new(alloc),
        });
    }
    Err(CertFault::BadLine { line: number })
}

/// The numbers of customers and of neighbours.
#[tactic(auto, unfolding(crate::specs::Reading::sizes_at))]
fn sizes(lines: &mut Lines<'_>) -> Result<(u16, u32), CertFault>
    ensures { Gives (λ x. (x, lines.new)) result (sizes_at lines.old) }
{
    let size = within(lines, b"CUSTOMERS", 1, u64::from(MOST_CUSTOMERS))? as u16;
    let neighbours = within(lines, b"NEIGHBOURS", 0, u64::from(MOST_NEIGHBOURS))? as u32;
    Ok((size, neighbours))
}

/// The first five lines.
#[tactic(auto, unfolding(crate::specs::Reading::head_at, crate::specs::Reading::title_at))]
pub fn head_lines(alloc: Global, lines: &mut Lines<'_>) -> Result<Head, CertFault>
    ensures { Gives (λ h. (
      record {
        version = version_of h.version;
        name = h.name.items;
        size = h.size;
        neighbours = h.neighbours;
        bound = h.bound;
      },
      lines.new,
    ))
        result (head_at lines.old) }
{
    let version = version(alloc, lines)?;
    let name = name(alloc, lines)?;
    let (size, neighbours) = sizes(lines)?;
    let bound = bound(lines)?;
    Ok(Head {
        version,
        name,
        size,
        neighbours,
        bound,
    })
}
