//! Numbers that are drawn at random.

use rand_core::Rng;

/// A random number below a bound, and 0 where the bound is 0, by multiplication and shift (Lemire 2019).
/// Bounds are far below 2^32, so that all numbers are about as likely.
pub(crate) fn below<R: Rng>(random: &mut R, bound: usize) -> usize {
    let product = u64::from(random.next_u32()).saturating_mul(bound as u64);
    (product >> 32) as usize
}

/// A random number between two, both among them.
pub(crate) fn between<R: Rng>(random: &mut R, least: usize, most: usize) -> usize {
    let count = most.saturating_sub(least).saturating_add(1);
    below(random, count).saturating_add(least)
}
