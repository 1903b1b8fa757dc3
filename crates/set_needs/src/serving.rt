//! Whether one vehicle can serve all of some customers in time: by the subsets of them (Held and Karp 1962).

ghost use Rattle.std.specs.Prelude.{◌≡◌, ◌+◌, ◌<◌, ◌≤◌, ◌↔◌, length, IfOk, IsTrue};
ghost use Rattle.std.specs.List.{All};
ghost use Rattle.solomon_reader.specs.CustomerSets.{IsServedInTime, most_timed};
ghost use Rattle.set_needs.specs.Quickest.{IsTable};
ghost use Rattle.set_needs.specs.Latest.{IsLatest, IsLatestAt, AreLatest, chosen, subsets};

use crate::latest::{is_no_later, later, latest_before, latest_return};
use crate::ways::QuickestWays;
use solomon_reader::Instance;
use std::alloc::{AllocError, Global};

/// How many subsets a list of so many has.
fn subsets(count: usize) -> usize
    requires { count ≤ most_timed }
    ensures value { result ≡ subsets count }
    ensures some { 1 ≤ result }
    ensures bound { result ≤ 1024 }
{
    let mut all = 1;
    for _ in 0..count {
        all *= 2;
    }
    all
}

/// The latest time at which a row may be left for a subset of the members: those for which `mask` has a bit. The table
/// has the latest times for all lower numbers, from each member.
fn latest_for(
    instance: &Instance,
    ways: &QuickestWays<'_>,
    members: &[u16],
    table: &[Vec<Option<u64>>],
    mask: usize,
    from: u16,
) -> Option<u64>
    requires ways { ways.now ≡ instance.now }
    requires known { All (λ i. i < length instance.now.rows) members.now }
    requires few { length members.now ≤ most_timed }
    requires table { AreLatest instance.now members.now mask table.now }
    requires mask { mask < subsets (length members.now) }
    requires from { from < length instance.now.rows }
    ensures { IsLatest instance.now from (chosen mask members.now) result }
{
    if mask == 0 {
        return latest_return(instance, ways, from);
    }
    let (mut rest, mut bit, mut latest) = (mask, 1, None);
    for place in 0..members.len() {
        if rest % 2 == 1 {
            let left = table[mask - bit][place];
            let first = latest_before(instance, ways, from, members[place], left);
            latest = later(first, latest);
        }
        rest /= 2;
        bit *= 2;
    }
    latest
}

/// The latest times for a subset, from each member.
fn latest_row(
    alloc: Global,
    instance: &Instance,
    ways: &QuickestWays<'_>,
    members: &[u16],
    table: &[Vec<Option<u64>>],
    mask: usize,
) -> Result<Vec<Option<u64>>, AllocError>
    requires ways { ways.now ≡ instance.now }
    requires known { All (λ i. i < length instance.now.rows) members.now }
    requires few { length members.now ≤ most_timed }
    requires table { AreLatest instance.now members.now mask table.now }
    requires mask { mask < subsets (length members.now) }
    ensures { IfOk result (λ row. IsTable (IsLatestAt instance.now members.now mask) (length members.now) row.items) }
{
    let mut row = Vec::new(alloc);
    for place in 0..members.len() {
        row.push(latest_for(instance, ways, members, table, mask, members[place]))?;
    }
    Ok(row)
}

/// The latest times for the subsets below a number.
fn latest_table(
    alloc: Global,
    instance: &Instance,
    ways: &QuickestWays<'_>,
    members: &[u16],
    count: usize,
) -> Result<Vec<Vec<Option<u64>>>, AllocError>
    requires ways { ways.now ≡ instance.now }
    requires known { All (λ i. i < length instance.now.rows) members.now }
    requires few { length members.now ≤ most_timed }
    requires count { count < subsets (length members.now) }
    ensures { IfOk result (λ table. AreLatest instance.now members.now count table.items) }
{
    let mut table = Vec::new(alloc);
    for mask in 0..count {
        let row = latest_row(alloc, instance, ways, members, table.as_slice(), mask)?;
        table.push(row)?;
    }
    Ok(table)
}

/// Whether one vehicle can serve all members in time, in some order and on the quickest ways.
pub(crate) fn are_served_in_time(
    alloc: Global,
    instance: &Instance,
    ways: &QuickestWays<'_>,
    members: &[u16],
) -> Result<bool, AllocError>
    requires ways { ways.now ≡ instance.now }
    requires known { All (λ i. i < length instance.now.rows) members.now }
    requires few { length members.now ≤ most_timed }
    ensures { IfOk result (λ r. IsTrue r ↔ IsServedInTime instance.now members.now) }
{
    instance.law_of_limits();
    let all = subsets(members.len()) - 1;
    let table = latest_table(alloc, instance, ways, members, all)?;
    let latest = latest_for(instance, ways, members, table.as_slice(), all, 0);
    Ok(is_no_later(instance.ready(0), latest))
}
