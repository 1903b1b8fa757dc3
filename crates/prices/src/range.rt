//! The range of prices.

ghost use Rattle.std.specs.Prelude.{◌↔◌, IsTrue};
ghost use Rattle.std.specs.List.{AllByRecursion};
ghost use Rattle.solomon_reader.specs.CertificateText.{IsPrice};

use solomon_reader::MOST_PRICE;

/// Whether each number is a price in its range.
pub(crate) fn are_prices(prices: &[i64]) -> bool
    ensures { IsTrue result ↔ AllByRecursion IsPrice prices.now }
{
    for price in prices {
        if price.unsigned_abs() > MOST_PRICE {
            return false;
        }
    }
    true
}
