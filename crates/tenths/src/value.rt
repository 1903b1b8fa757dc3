//! Whole numbers of tenths.

ghost use Rattle.std.specs.Prelude.{◌≡◌, ◌≤◌, ◌↔◌, IsSome, IfSome};

use std::marker::Model;

/// The greatest number of tenths: twelve digits before the point and one after it.
pub const MOST_TENTHS: u64 = 9_999_999_999_999;

/// A whole number of tenths of a unit, 0 to `MOST_TENTHS`. Contracts see the number.
#[derive(Clone, Copy, Debug, PartialEq, Eq, PartialOrd, Ord, Hash)]
pub struct Tenths {
    count: u64,
}

impl Model for Tenths {
    ghost use Rattle.std.specs.Prelude.{ℕ, ◌≤◌};
    ghost use Rattle.tenths.specs.declared.value.TheConstants.{MOST_TENTHS};

    ghost Value = { ℕ };

    ghost view = { λ t. t.count };

    ghost invariant = { λ t. t.count ≤ MOST_TENTHS };

    ghost inverse = { λ n. record { count = n } };
}

impl Tenths {
    /// This many tenths, or `None` above `MOST_TENTHS`.
    pub fn new(count: u64) -> Option<Tenths>
        ensures within { IsSome result ↔ (count ≤ MOST_TENTHS) }
        ensures value { IfSome result (λ t. t ≡ count) }
    {
        if count <= MOST_TENTHS {
            Some(Tenths { count })
        } else {
            None
        }
    }

    /// The number of tenths.
    pub fn get(self) -> u64
        ensures value { result ≡ self }
        ensures within { result ≤ MOST_TENTHS }
    {
        self.count
    }
}

impl From<u32> for Tenths {
    ghost from_gives = { λ n t. t ≡ n };

    fn from(count: u32) -> Tenths {
        Tenths {
            count: u64::from(count),
        }
    }
}
