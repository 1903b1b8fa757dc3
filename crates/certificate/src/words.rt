//! The words of a line.

ghost use Rattle.std.specs.Prelude.{◌≡◌};
ghost use Rattle.std.specs.List.{list_all};
ghost use Rattle.certificate.specs.Reading.{Gives, signed_at, prices_at, pair_at, arc_at, is_arc, is_price, is_decided, arc_eq, node_in, node_at};
ghost use Rattle.tenths.specs.Reading.{value_or};
ghost use Rattle.certificate.specs.declared.fault.CertFault.TheVariants.{BadLine};
ghost use Rattle.certificate.specs.Lines.{line_of};
ghost use Rattle.std.specs.Option.{option_map};
ghost use Rattle.tenths.specs.Numbers.{number_of, signed_of, capped, clamped};
ghost use Rattle.tenths.specs.Parts.{parts};

use crate::fault::CertFault;
use solomon_reader::MOST_PRICE;
use std::alloc::Global;
use tenths::{Lines, Parts, number, signed};

/// The canonical signed numbers that the rest of a line has.
fn signed_words(alloc: Global, line: u64, words: &mut Parts<'_>) -> Result<Vec<i64>, CertFault>
    ensures { Gives (λ v. v.items) result (signed_at line words.old) }
{
    let mut list = Vec::new(alloc);
    while let Some(word) = words.next() {
        let price = signed(word).ok_or(CertFault::BadLine { line })?;
        list.push(price)?;
    }
    Ok(list)
}

pub fn are_in_range(prices: &[i64]) -> bool
    ensures { result ≡ list_all is_price prices.now }
{
    prices.iter().all(|z| z.unsigned_abs() <= MOST_PRICE)
}

/// The prices of a leaf.
#[tactic(auto, unfolding(crate::specs::Reading::prices_at))]
fn prices(alloc: Global, size: u16, line: u64, words: &mut Parts<'_>) -> Result<Vec<i64>, CertFault>
    ensures { Gives (λ v. v.items) result (prices_at size line words.old) }
{
    let list = signed_words(alloc, line, words)?;
    if list.len() != usize::from(size) {
        return Err(CertFault::BadLine { line });
    }
    if !are_in_range(&list) {
        return Err(CertFault::PriceRange { line });
    }
    Ok(list)
}

/// Two canonical numbers and no more, each up to the cap.
#[tactic(auto, unfolding(crate::specs::Reading::pair_at))]
fn pair(line: u64, words: &mut Parts<'_>) -> Result<(u64, u64), CertFault>
    ensures { Gives (λ p. p) result (pair_at line words.old) }
{
    match words.next() {
        None => Err(CertFault::BadLine { line }),
        Some(from) => match words.next() {
            None => Err(CertFault::BadLine { line }),
            Some(to) => match words.next() {
                Some(_) => Err(CertFault::BadLine { line }),
                None => {
                    let from = number(from).ok_or(CertFault::BadLine { line })?;
                    let to = number(to).ok_or(CertFault::BadLine { line })?;
                    Ok((from, to))
                }
            },
        },
    }
}

pub fn is_on(arc: (u16, u16), path: &[(u16, u16)]) -> bool
    ensures { result ≡ is_decided arc path.now }
{
    path.iter().any(|b| b.0 == arc.0 && b.1 == arc.1)
}

pub fn is_in_size(size: u16, pair: (u64, u64)) -> bool
    ensures { result ≡ is_arc size pair }
{
    pair.0 <= u64::from(size) && pair.1 <= u64::from(size) && pair.0 != pair.1
}

/// The arc of a split.
#[tactic(auto, unfolding(crate::specs::Reading::arc_at))]
fn arc(
    size: u16,
    line: u64,
    path: &[(u16, u16)],
    words: &mut Parts<'_>,
) -> Result<(u16, u16), CertFault>
    ensures { Gives (λ a. a) result (arc_at size line path.now words.old) }
{
    let pair = pair(line, words)?;
    if !is_in_size(size, pair) {
        return Err(CertFault::BadArc { line });
    }
    let arc = (pair.0 as u16, pair.1 as u16);
    if is_on(arc, path) {
        return Err(CertFault::ArcDecided { line });
    }
    Ok(arc)
}

/// The first line of a node.
#[derive(Drop)]
pub enum NodeLine {
    /// The prices of a leaf's customers.
    Prices(Vec<i64>),
    /// The arc of a split.
    Arc(u16, u16),
}

/// The first line of the next node.
#[tactic(auto, unfolding(crate::specs::Reading::node_in))]
pub fn node(
    alloc: Global,
    size: u16,
    path: &[(u16, u16)],
    lines: &mut Lines<'_>,
) -> Result<NodeLine, CertFault>
    ensures { Gives (λ x. (line_of x, lines.new)) result (node_at size path.now lines.old) }
{
    let line = lines.number();
    let Some(text) = lines.next() else {
        return Err(CertFault::Truncated);
    };
    let mut words = Parts::new(text, b' ');
    match words.next() {
        Some(word) if word == b"P".as_slice() => {
            Ok(NodeLine::Prices(prices(alloc, size, line, &mut words)?))
        }
        Some(word) if word == b"S".as_slice() => {
            let (from, to) = arc(size, line, path, &mut words)?;
            Ok(NodeLine::Arc(from, to))
        }
        _ => Err(CertFault::BadLine { line }),
    }
}
