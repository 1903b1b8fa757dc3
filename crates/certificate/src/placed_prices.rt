//! Prices of sets or of rows: their words, and whether they may stand at a leaf.

ghost use Rattle.std.specs.Prelude.{◌≡◌, ◌+◌, map, min, nat_le, nat_abs};
ghost use Rattle.std.specs.List.{list_all};
ghost use Rattle.solomon_reader.specs.declared.limits.TheConstants.{MOST_PRICE};
ghost use Rattle.solomon_reader.specs.CertificateText.{set_prices_sum};
ghost use Rattle.certificate.specs.Reading.{Gives, pairs_at, placed_in, are_listed, are_small, are_prices, greatest};
ghost use Rattle.certificate.specs.declared.fault.CertFault.TheVariants.{BadLine};

use crate::fault::CertFault;
use crate::placed::PlacedPrice;
use crate::set_lines::small_number;
use solomon_reader::MOST_PRICE;
use std::alloc::Global;
use tenths::{Parts, number};

/// The prices with their places that the rest of a line has: canonical numbers in pairs.
fn pairs<P: PlacedPrice + Drop>(
    alloc: Global,
    line: u64,
    words: &mut Parts<'_>,
) -> Result<Vec<P>, CertFault>
    ensures { Gives (λ v. map P.pair v.items) result (pairs_at line words.old) }
{
    let bad = CertFault::BadLine { line };
    let mut list = Vec::new(alloc);
    while let Some(first) = words.next() {
        let Some(second) = words.next() else {
            return Err(bad);
        };
        let place = small_number(first).ok_or(bad)?;
        let price = number(second).ok_or(bad)?;
        list.push(P::at(place, price))?;
    }
    Ok(list)
}

/// Whether the places are those of a list of this length, in increasing order.
pub fn are_listed<P: PlacedPrice>(most: usize, placed: &[P]) -> bool
    ensures { result ≡ are_listed most (map P.pair placed.now) }
{
    let mut low = 0;
    for priced in placed {
        let place = priced.place();
        if place <= low || usize::from(place) > most {
            return false;
        }
        low = place;
    }
    true
}

/// Whether each price is a grain or more, and none above the greatest price.
fn are_small<P: PlacedPrice>(placed: &[P]) -> bool
    ensures { result ≡ are_small (map P.pair placed.now) }
{
    for priced in placed {
        let price = priced.price();
        if price < 1 || price > MOST_PRICE {
            return false;
        }
    }
    true
}

/// The prices together, cut far above a price.
fn sum_of<P: PlacedPrice>(placed: &[P]) -> u64
    ensures { result ≡ min (set_prices_sum (map P.pair placed.now)) greatest }
{
    let mut sum: u64 = 0;
    for priced in placed {
        sum = sum.saturating_add(priced.price());
    }
    sum
}

/// Whether each price leaves room for so much within the range of a price.
fn leave_room(sum: u64, prices: &[i64]) -> bool
    ensures { result ≡ list_all (λ z. nat_le (sum + nat_abs z) MOST_PRICE) prices.now }
{
    prices
        .iter()
        .all(|z| sum.saturating_add(z.unsigned_abs()) <= MOST_PRICE)
}

/// Whether each price is a grain or more, and all together are within the range of a price beside so much
/// and the price of each customer.
pub fn are_prices<P: PlacedPrice>(beside: u64, prices: &[i64], placed: &[P]) -> bool
    ensures { result ≡ are_prices beside prices.now (map P.pair placed.now) }
{
    are_small(placed) && leave_room(beside.saturating_add(sum_of(placed)), prices)
}

/// The same beside other prices.
pub fn are_prices_beside<Q: PlacedPrice, P: PlacedPrice>(
    others: &[Q],
    prices: &[i64],
    placed: &[P],
) -> bool
    ensures { result ≡ are_prices (set_prices_sum (map Q.pair others.now)) prices.now (map P.pair placed.now) }
{
    are_prices(sum_of(others), prices, placed)
}

/// The prices with their places in a list of this length that a line has behind this word.
#[tactic(auto, unfolding(crate::specs::Reading::placed_in))]
pub fn placed<P: PlacedPrice + Drop>(
    alloc: Global,
    text: &[u8],
    unknown: CertFault,
    most: usize,
    line: u64,
    words: &mut Parts<'_>,
) -> Result<Vec<P>, CertFault>
    ensures { Gives (λ v. map P.pair v.items) result (placed_in text.now unknown most line words.old) }
{
    match words.next() {
        Some(word) if word == text => {
            let pairs = pairs(alloc, line, words)?;
            if !are_listed(most, &pairs) {
                return Err(unknown);
            }
            Ok(pairs)
        }
        _ => Err(CertFault::BadLine { line }),
    }
}
