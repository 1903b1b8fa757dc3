//! The lines of sets.

ghost use Rattle.std.specs.Prelude.{◌≡◌, map};
ghost use Rattle.std.specs.Option.{option_map};
ghost use Rattle.certificate.specs.Reading.{Gives, small, members_at, is_rising, set_in, sets_at};
ghost use Rattle.certificate.specs.Lines.{here};
ghost use Rattle.certificate.specs.Text.{listed_set_of};
ghost use Rattle.tenths.specs.Numbers.{number_of};
ghost use Rattle.tenths.specs.Parts.{parts};

use crate::fault::CertFault;
use crate::line::{Line, next_line};
use crate::sets::ListedSet;
use solomon_reader::{MOST_NEED, MOST_SETS};
use std::alloc::Global;
use tenths::{Lines, Parts, number};

/// A canonical number, cut above each customer and each set.
pub fn small_number(word: &[u8]) -> Option<u16>
    ensures { result ≡ option_map small (number_of word.now) }
{
    match number(word) {
        None => None,
        Some(m) => Some(m.min(65535) as u16),
    }
}

/// The canonical numbers that the rest of a line has.
pub fn members(alloc: Global, line: u64, words: &mut Parts<'_>) -> Result<Vec<u16>, CertFault>
    ensures { Gives (λ v. v.items) result (members_at line words.old) }
{
    let mut list = Vec::new(alloc);
    while let Some(word) = words.next() {
        let member = small_number(word).ok_or(CertFault::BadLine { line })?;
        list.push(member)?;
    }
    Ok(list)
}

/// Whether each number is above the one before, the first above 0, and none above the most.
pub fn are_rising(most: u16, numbers: &[u16]) -> bool
    ensures { result ≡ is_rising 0 most numbers.now }
{
    let mut low = 0;
    for number in numbers {
        if *number <= low || *number > most {
            return false;
        }
        low = *number;
    }
    true
}

/// The set of a line.
#[tactic(auto, unfolding(crate::specs::Reading::set_in))]
fn set(alloc: Global, size: u16, line: u64, text: &[u8]) -> Result<ListedSet, CertFault>
    ensures { Gives listed_set_of result (set_in size line (parts 32 text.now)) }
{
    let bad = CertFault::BadLine { line };
    let mut words = Parts::new(text, b' ');
    let Some(first) = words.next() else {
        return Err(bad);
    };
    let Some(second) = words.next() else {
        return Err(bad);
    };
    let need = number(second).ok_or(bad)?;
    let members = members(alloc, line, &mut words)?;
    if first != b"S".as_slice() || members.len() < 2 {
        return Err(bad);
    }
    if need < 1 || need > u64::from(MOST_NEED) {
        return Err(CertFault::NeedRange { line });
    }
    if !are_rising(size, &members) {
        return Err(CertFault::BadSet { line });
    }
    Ok(ListedSet {
        members,
        need: need as u32,
    })
}

/// The sets from a line on, up to a line that begins otherwise, and that line.
pub fn sets<'a>(
    alloc: Global,
    size: u16,
    first: Line<'a>,
    lines: &mut Lines<'a>,
) -> Result<(Vec<ListedSet>, Line<'a>), CertFault>
    ensures { Gives (λ x. (map listed_set_of x.0.items, here x.1 lines.new)) result
        (sets_at size (here first.entry lines.old)) }
{
    let mut sets = Vec::new(alloc);
    let mut line = first;
    while line.begins(b"S") {
        let set = set(alloc, size, line.number, line.text)?;
        if sets.len() >= MOST_SETS as usize {
            return Err(CertFault::TooManySets { line: line.number });
        }
        sets.push(set)?;
        line = next_line(lines)?;
    }
    Ok((sets, line))
}
