//! Memories as sets of bits.

ghost use Rattle.std.specs.Prelude.{◌≡◌, ℕ, ◌<◌, ◌≤◌, ◌^◌, ◌==◌, ◌||◌, true, IsTrue};
ghost use Rattle.solomon_reader.specs.Memories.{has_bit};

/// Whether a memory has a bit.
pub fn contains(memory: u16, bit: u8) -> bool
    requires { bit ≤ 16 }
    ensures { result ≡ has_bit memory bit }
{
    (u32::from(memory) >> bit) & 1 == 1
}

/// The memory with a bit more.
pub(crate) fn insert(memory: u16, bit: u8) -> u16
    requires { bit < 16 }
    ensures bits { (i : ℕ) → has_bit result i ≡ ((i == bit) || has_bit memory i) }
    ensures small { result < 2 ^ 16 }
{
    memory | (1 << bit)
}

/// Whether a memory has no bit that another one hasn't.
pub fn is_subset(a: u16, b: u16) -> bool
    ensures { IsTrue result → (i : ℕ) → has_bit a i ≡ true → has_bit b i ≡ true }
{
    a & b == a
}
