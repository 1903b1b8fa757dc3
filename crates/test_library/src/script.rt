//! A source of random words that hands out given ones.

ghost use Rattle.rand_core.specs.Steps.{stream_of, steps_u32};
ghost use Rattle.test_library.specs.Script.{next_of};

use rand_core::utils::NextWord;
use rand_core::{Rng, utils};
use std::marker::Model;

/// The words that are still to come; behind the last of them come zeros. Contracts see their list.
#[derive(Drop)]
pub struct Script<'a> {
    pub(crate) words: &'a [u16],
}

impl<'a> Model for Script<'a> {
    ghost use Rattle.std.specs.Prelude.{List, ℕ};

    ghost Value = { List ℕ };

    ghost view = { λ s. s.words.now };
}

impl NextWord<u32> for Script<'_> {
    ghost step = { next_of };

    fn next_word(&mut self) -> u32 {
        let words = self.words;
        match words.split_first() {
            Some((word, rest)) => {
                self.words = rest;
                u32::from(*word)
            }
            None => 0,
        }
    }
}

impl Rng for Script<'_> {
    ghost stream = { stream_of (steps_u32 next_of) };

    fn next_u32(&mut self) -> u32 {
        self.next_word()
    }

    fn next_u64(&mut self) -> u64 {
        utils::next_u64_via_u32(self)
    }

    fn fill_bytes(&mut self, dst: &mut [u8]) {
        utils::fill_bytes_via_u32(self, dst)
    }
}
