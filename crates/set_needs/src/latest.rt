//! How late a vehicle may leave a row and still serve customers in time.

ghost use Rattle.std.specs.Prelude.{◌≡◌, ◌<◌, ◌↔◌, ◌⊎◌, [], List, ℕ, length, IsTrue};
ghost use Rattle.set_needs.specs.Latest.{IsBy, IsLatest, IsLatestFirst};

use crate::ways::QuickestWays;
use solomon_reader::Instance;

/// The latest time at which a row may be left for the depot, in tenths, if there is one.
pub(crate) fn latest_return(instance: &Instance, ways: &QuickestWays<'_>, from: u16) -> Option<u64>
    requires ways { ways.now ≡ instance.now }
    requires from { from < length instance.now.rows }
    ensures { IsLatest instance.now from [] result }
{
    instance.due(0).checked_sub(u64::from(ways.get(from, 0)))
}

/// The latest time at which a row may be left to serve a customer who has to be left for others by a time given, if
/// there is one.
pub(crate) fn latest_before(
    instance: &Instance,
    ways: &QuickestWays<'_>,
    from: u16,
    next: u16,
    left: Option<u64>,
) -> Option<u64>
    requires ways { ways.now ≡ instance.now }
    requires from { from < length instance.now.rows }
    requires next { next < length instance.now.rows }
    ensures { (s : List ℕ) → IsLatest instance.now next s left →
        IsLatestFirst instance.now from next s result }
{
    let served = left?.checked_sub(instance.service(next))?;
    let begun = served.min(instance.due(next));
    if begun < instance.ready(next) {
        return None;
    }
    begun.checked_sub(u64::from(ways.get(from, next)))
}

/// The later of two latest times.
pub(crate) fn later(one: Option<u64>, other: Option<u64>) -> Option<u64>
    ensures { (t : ℕ) → IsBy result t ↔ (IsBy one t ⊎ IsBy other t) }
{
    match (one, other) {
        (Some(one), Some(other)) => Some(one.max(other)),
        (Some(one), None) => Some(one),
        (None, other) => other,
    }
}

/// Whether a time is no later than a latest one, if there is one.
pub(crate) fn is_no_later(time: u64, latest: Option<u64>) -> bool
    ensures { IsTrue result ↔ IsBy latest time }
{
    match latest {
        Some(latest) => time <= latest,
        None => false,
    }
}
