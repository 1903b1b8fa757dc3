//! Labels of a quick search.

use fronts::Memory;

/// The first stops of a relaxed route.
#[derive(Clone, Copy)]
pub(crate) struct QuickLabel {
    pub(crate) last: u16,
    /// When the vehicle may leave the last stop, in tenths.
    pub(crate) time: u64,
    pub(crate) load: u32,
    /// The reduced cost so far, in grains.
    pub(crate) cost: i64,
    pub(crate) memory: Memory,
    /// The index of the label before the last stop.
    pub(crate) parent: usize,
    /// The number of stops.
    pub(crate) stops: usize,
    pub(crate) is_active: bool,
}
