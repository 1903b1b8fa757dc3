//! What is known of a walked route.

use tenths::Tenths;

/// What a fitting route costs in tenths, what it loads, and when it is back in tenths.
#[derive(Clone, Copy, Debug, PartialEq, Eq)]
pub struct Walk {
    pub cost: Tenths,
    pub load: u32,
    pub finish: Tenths,
}
