//! How the temperature falls (Kirkpatrick, Gelatt and Vecchi 1983).

use crate::drawing::below;
use rand_core::Rng;

/// How far a run is: `done` of `whole` parts of its work lie behind it. The temperature falls with it.
#[derive(Clone, Copy)]
pub struct Progress {
    /// The parts that lie behind.
    pub done: u64,
    /// All parts; 0 counts as 1.
    pub whole: u64,
}

/// A run cools this many times, each time for as long.
const COOLINGS: u64 = 2;

/// By how many 256ths of a halving the temperature falls in a cooling: to a tenth.
const HALVINGS_256: u64 = 850;

/// A temperature has this many parts of a tenth.
pub(crate) const PARTS: u64 = 65_536;

/// This many parts times 2^(-i/16).
const POWERS: [u64; 16] = [
    65_536, 62_757, 60_097, 57_549, 55_109, 52_773, 50_535, 48_393, 46_341, 44_376, 42_495, 40_693,
    38_968, 37_316, 35_734, 34_219,
];

/// 256 times -ln((i + 1/2) / 64).
const LOGARITHMS: [u64; 64] = [
    1_242, 961, 830, 744, 680, 628, 585, 549, 517, 488, 463, 439, 418, 398, 380, 363, 347, 332,
    318, 304, 291, 279, 268, 256, 246, 236, 226, 216, 207, 198, 190, 181, 173, 166, 158, 151, 144,
    137, 130, 124, 117, 111, 105, 99, 93, 87, 82, 76, 71, 66, 61, 56, 51, 46, 41, 36, 32, 27, 23,
    19, 14, 10, 6, 2,
];

impl Progress {
    /// The progress since this many parts were done.
    pub(crate) fn since(self, begin: u64) -> Progress {
        Progress {
            done: self.done.saturating_sub(begin),
            whole: self.whole.saturating_sub(begin).max(1),
        }
    }

    /// Which cooling the run is in, the first being 0, and how far that cooling is.
    pub(crate) fn cooling(self) -> (u64, Progress) {
        let whole = (self.whole / COOLINGS).max(1);
        let number = (self.done / whole).min(COOLINGS - 1);
        let done = self.done.saturating_sub(number.saturating_mul(whole));
        (number, Progress { done, whole })
    }

    /// The progress after this many steps of all those that lead from this one to another.
    pub(crate) fn toward(self, to: Progress, steps: u64, all: u64) -> Progress {
        let span = to.done.saturating_sub(self.done);
        let part = span.saturating_mul(steps) / all.max(1);
        Progress {
            done: self.done.saturating_add(part),
            whole: to.whole,
        }
    }

    /// By how many tenths a trial may be dearer where the first temperature has this many parts: drawn at
    /// random, mostly few.
    pub(crate) fn draw_threshold<R: Rng>(self, random: &mut R, first: u64) -> u64 {
        let whole = self.whole.max(1);
        let fall = self.done.min(whole).saturating_mul(HALVINGS_256) / whole;
        let halvings = (fall / 256).min(63) as u32;
        let power = POWERS[(fall / 16 % 16) as usize];
        let halved = first.checked_shr(halvings).unwrap_or(0);
        let temperature = halved.saturating_mul(power) / PARTS;
        let drawn = below(random, LOGARITHMS.len());
        let logarithm = LOGARITHMS.get(drawn).copied().unwrap_or(0);
        temperature.saturating_mul(logarithm) / 256 / PARTS
    }
}
