//! What labels remember.

ghost use Rattle.std.specs.Prelude.{◌≡◌, ℕ, ◌<◌, ◌≤◌, ◌^◌, ◌==◌, ◌&&◌, ◌||◌, ◌↔◌, IsTrue};
ghost use Rattle.solomon_reader.specs.Memories.{has_bit};

/// The customers that a route may not visit next, as places in the neighbour list of its last stop:
/// bit i stands for place i.
#[derive(Clone, Copy)]
pub struct Memory {
    /// The places, as bits.
    pub bits: u16,
}

impl Memory {
    /// The memory that holds no place.
    pub fn empty() -> Memory
        ensures { result.bits ≡ 0 }
    {
        Memory { bits: 0 }
    }

    /// Whether a place is in the memory; 16 is that of what isn't in the list.
    pub fn contains(self, place: u8) -> bool
        requires { place ≤ 16 }
        ensures { result ≡ has_bit self.bits place }
    {
        (u32::from(self.bits) >> place) & 1 == 1
    }

    /// The memory with a further place, if that is kept. It has no branch: mostly none can be foreseen.
    pub fn with_if(self, place: u8, is_kept: bool) -> Memory
        requires { place < 16 }
        ensures places { (i : ℕ)
            → has_bit result.bits i ≡ ((is_kept && (i == place)) || has_bit self.bits i) }
        ensures small { result.bits < 2 ^ 16 }
    {
        Memory {
            bits: self.bits | (u16::from(is_kept) << place),
        }
    }

    /// Whether both hold the same places.
    pub fn is_same(self, other: Memory) -> bool
        ensures { IsTrue result ↔ (self.bits ≡ other.bits) }
    {
        self.bits == other.bits
    }

    /// Whether the other one holds each place of this one.
    pub fn is_subset(self, other: Memory) -> bool
        ensures { IsTrue result ↔ ((i : ℕ) → IsTrue (has_bit self.bits i)
            → IsTrue (has_bit other.bits i)) }
    {
        self.bits & other.bits == self.bits
    }

    /// Whether another one, or a third one beside it, holds each place of this one. No contract: it decides only how
    /// fast a search is.
    pub fn is_subset_beside(self, other: Memory, beside: Memory) -> bool {
        self.bits & (other.bits | beside.bits) == self.bits
    }

    /// Whether another one holds each place of this one that a third one has, too.
    pub fn is_subset_within(self, other: Memory, within: Memory) -> bool
        ensures places { IsTrue result ↔ ((i : ℕ) → IsTrue (has_bit self.bits i)
            → IsTrue (has_bit within.bits i) → IsTrue (has_bit other.bits i)) }
        ensures small { self.bits < 2 ^ 16 }
    {
        let common = Memory {
            bits: self.bits & within.bits,
        };
        common.is_subset(other)
    }

    /// The memory that holds each place.
    pub fn full() -> Memory
        ensures { (i : ℕ) → i < 16 → IsTrue (has_bit result.bits i) }
    {
        Memory { bits: u16::MAX }
    }
}
