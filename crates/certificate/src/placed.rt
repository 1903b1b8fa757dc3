//! Prices of what stands at places of a list.

ghost use Rattle.std.specs.Prelude.{◌≡◌, ℕ};
ghost use Rattle.certificate.specs.Tree.{set_price_of, row_price_of};

use crate::rows::RowPrice;
use crate::sets::SetPrice;

/// The price of a set or of a row. Its meaning is the place, from 1, and the price.
pub trait PlacedPrice {
    /// The place and the price.
    ghost pair: { Self → ℕ × ℕ };

    /// This price at this place.
    fn at(place: u16, price: u64) -> Self
        ensures { pair result ≡ (place, price) };

    /// The place.
    fn place(&self) -> u16
        ensures { result ≡ (pair self.now).0 };

    /// The price.
    fn price(&self) -> u64
        ensures { result ≡ (pair self.now).1 };
}

impl PlacedPrice for SetPrice {
    ghost pair = { set_price_of };

    fn at(place: u16, price: u64) -> SetPrice {
        SetPrice { set: place, price }
    }

    fn place(&self) -> u16 {
        self.set
    }

    fn price(&self) -> u64 {
        self.price
    }
}

impl PlacedPrice for RowPrice {
    ghost pair = { row_price_of };

    fn at(place: u16, price: u64) -> RowPrice {
        RowPrice { row: place, price }
    }

    fn place(&self) -> u16 {
        self.row
    }

    fn price(&self) -> u64 {
        self.price
    }
}
