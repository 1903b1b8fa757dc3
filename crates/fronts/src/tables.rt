//! What is known of each row before the labels are made: the places of its neighbour list, and the rows
//! to which a route of the region may go from it.

ghost use Rattle.std.specs.Prelude.{◌≡◌, ◌≢◌, ◌↔◌, ℕ, ◌+◌, ◌<◌, ◌≤◌, length, IfOk, IsTrue};
ghost use Rattle.std.specs.FinSet.{contains};
ghost use Rattle.std.specs.List.{All};
ghost use Rattle.solomon_reader.specs.Problem.{customer_count};
ghost use Rattle.branching.specs.Arcs.{pair, Excludes};
ghost use Rattle.fronts.specs.Memories.{ArePlaces, IsWholeList};
ghost use Rattle.fronts.specs.Tables.{IsAllowedRow, IsOther, IsTable, IsNarrowed, IsWithin};

use crate::customer_set::CustomerSet;
use crate::neighbours::{LIST_SIZE, neighbour_list, places_from};
use branching::{Arc, Region};
use solomon_reader::Instance;
use std::alloc::{AllocError, Global};

/// The places of the rows in the neighbour list of each row.
pub(crate) fn all_places(
    alloc: Global,
    instance: &Instance,
    neighbours: u32,
) -> Result<Vec<Vec<u8>>, AllocError>
    requires { neighbours < LIST_SIZE }
    ensures { IfOk result (λ table. IsTable (ArePlaces instance.now neighbours)
        (length instance.now.rows) table.items) }
{
    let count = instance.customer_count();
    let mut table = Vec::new(alloc);
    for v in 0..count + 1 {
        table.push(places_from(alloc, instance, neighbours, v)?)?;
    }
    Ok(table)
}

/// The neighbour list of each row, by the places in it.
pub(crate) fn neighbour_lists(
    alloc: Global,
    instance: &Instance,
    neighbours: u32,
    places: &[Vec<u8>],
) -> Result<Vec<[u16; LIST_SIZE as usize]>, AllocError>
    requires few { neighbours < LIST_SIZE }
    requires places { IsTable (ArePlaces instance.now neighbours)
        (length instance.now.rows) places.now }
    ensures { IfOk result (λ table. IsTable (IsWholeList instance.now neighbours)
        (length instance.now.rows) table.items) }
{
    let count = instance.customer_count();
    let mut table = Vec::new(alloc);
    for v in 0..count + 1 {
        let row = places[usize::from(v)].as_slice();
        table.push(neighbour_list(instance, neighbours, v, row))?;
    }
    Ok(table)
}

/// The rows other than each row.
fn other_rows(alloc: Global, instance: &Instance) -> Result<Vec<CustomerSet>, AllocError>
    ensures { IfOk result (λ table. IsTable (IsOther (customer_count instance.now))
        (length instance.now.rows) table.items) }
{
    let count = instance.customer_count();
    let mut table = Vec::new(alloc);
    for i in 0..count + 1 {
        let mut others = CustomerSet::all(alloc, count)?;
        others.remove(i);
        table.push(others)?;
    }
    Ok(table)
}

/// Takes forbidden arcs out of the table.
fn forbid(table: &mut [CustomerSet], arcs: &[Arc])
    requires { All (IsWithin (length table.old)) arcs.now }
    ensures { IsNarrowed (λ b. All (λ a. pair a ≢ b) arcs.now) table.old table.new }
{
    for arc in arcs {
        table[arc.from as usize].remove(arc.to);
    }
}

/// Takes out of the rows that follow row i those that a required arc excludes.
fn exclude(rows: &mut CustomerSet, i: u16, arc: Arc)
    ensures { (j : ℕ) → IsTrue (contains rows.new j) ↔
        (IsTrue (contains rows.old j) × (¬ Excludes (pair arc) (i, j))) }
{
    if i == arc.from {
        if i != 0 {
            rows.keep_only(arc.to);
        }
    } else if arc.to != 0 {
        rows.remove(arc.to);
    }
}

/// Takes out of the table of this many customers what a required arc excludes.
fn require(table: &mut [CustomerSet], count: u16, arc: Arc)
    requires count { length table.old ≡ count + 1 }
    ensures { IsNarrowed (λ b. ¬ Excludes (pair arc) b) table.old table.new }
{
    for i in 0..=count {
        exclude(&mut table[i as usize], i, arc);
    }
}

/// Takes out of the table of this many customers what required arcs exclude.
fn require_each(table: &mut [CustomerSet], count: u16, arcs: &[Arc])
    requires count { length table.old ≡ count + 1 }
    ensures { IsNarrowed (λ b. All (λ a. ¬ Excludes (pair a) b) arcs.now) table.old table.new }
{
    for arc in arcs {
        require(table, count, *arc);
    }
}

/// Takes out of the table what isn't allowed in the region.
fn narrow(table: &mut [CustomerSet], region: &Region)
    requires { IsTable (IsOther region.now.size) (region.now.size + 1) table.old }
    ensures { IsTable (IsAllowedRow region.now) (region.now.size + 1) table.new }
{
    let count = region.size();
    forbid(table, region.forbidden_arcs());
    require_each(table, count, region.required_arcs());
}

/// The rows to which a route of the region may go, from each row. Errs where memory is refused.
pub fn allowed_rows(
    alloc: Global,
    instance: &Instance,
    region: &Region,
) -> Result<Vec<CustomerSet>, AllocError>
    requires { region.now.size ≡ customer_count instance.now }
    ensures { IfOk result (λ table. IsTable (IsAllowedRow region.now)
        (length instance.now.rows) table.items) }
{
    instance.law_of_limits();
    let mut table = other_rows(alloc, instance)?;
    narrow(table.as_mut_slice(), region);
    Ok(table)
}
