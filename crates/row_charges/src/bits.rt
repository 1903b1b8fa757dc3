//! Bits of rows, each at the row's place among those that have a price at a leaf.

ghost use Rattle.std.specs.Prelude.{◌≡◌, ℕ, ◌<◌, ◌≤◌, ◌==◌, ◌&&◌, ◌||◌, false, not};
ghost use Rattle.row_charges.specs.Bits.{bit_of, differ};

/// The bits of up to 256 rows.
#[derive(Clone, Copy, Debug)]
pub struct RowBits {
    /// Those of the places from 0 on.
    low: u128,
    /// Those of the places from 128 on.
    high: u128,
}

/// How many places a word has.
const WORD: usize = 128;

impl RowBits {
    /// No bit is set.
    pub fn none() -> RowBits
        ensures { (i : ℕ) → bit_of result i ≡ false }
    {
        RowBits { low: 0, high: 0 }
    }

    /// Whether the bit at a place is set.
    pub fn has(self, place: usize) -> bool
        requires { place < 256 }
        ensures { result ≡ bit_of self place }
    {
        if place < WORD {
            (self.low >> place) & 1 == 1
        } else {
            (self.high >> (place - WORD)) & 1 == 1
        }
    }

    /// The least place from this one on whose bit may be set: that of none between them is.
    pub(crate) fn next_from(self, from: usize) -> usize
        ensures not_back { from ≤ result }
        ensures none_between { (i : ℕ) → from ≤ i → i < result → bit_of self i ≡ false }
    {
        if from < WORD {
            let rest = self.low >> from;
            return (from + rest.trailing_zeros() as usize).min(WORD);
        }
        if from < 2 * WORD {
            let rest = self.high >> (from - WORD);
            return from + rest.trailing_zeros() as usize;
        }
        from
    }

    /// The bits with one more.
    fn with(self, place: usize) -> RowBits
        requires { place < 256 }
        ensures { (i : ℕ) → bit_of result i ≡ ((i == place) || bit_of self i) }
    {
        if place < WORD {
            RowBits {
                low: self.low | (1 << place),
                high: self.high,
            }
        } else {
            RowBits {
                low: self.low,
                high: self.high | (1 << (place - WORD)),
            }
        }
    }

    /// The bits with one more, if it is to be set.
    pub(crate) fn with_if(self, place: usize, is_set: bool) -> RowBits
        requires { place < 256 }
        ensures { (i : ℕ) → bit_of result i ≡ ((is_set && (i == place)) || bit_of self i) }
    {
        if is_set {
            return self.with(place);
        }
        self
    }

    /// The bits that are set in both.
    pub(crate) fn and(self, other: RowBits) -> RowBits
        ensures { (i : ℕ) → bit_of result i ≡ (bit_of self i && bit_of other i) }
    {
        RowBits {
            low: self.low & other.low,
            high: self.high & other.high,
        }
    }

    /// The bits that are set in one of both alone.
    pub(crate) fn changed_by(self, other: RowBits) -> RowBits
        ensures { (i : ℕ) → bit_of result i ≡ differ (bit_of self i) (bit_of other i) }
    {
        RowBits {
            low: self.low ^ other.low,
            high: self.high ^ other.high,
        }
    }

    /// The bits that aren't set in another one.
    pub(crate) fn without(self, other: RowBits) -> RowBits
        ensures { (i : ℕ) → bit_of result i ≡ (bit_of self i && not (bit_of other i)) }
    {
        self.changed_by(self.and(other))
    }
}
