//! What a stop does to the bits of rows.

ghost use Rattle.std.specs.Prelude.{◌≡◌, ◌+◌, ◌<◌, ◌≤◌, length};
ghost use Rattle.solomon_reader.specs.declared.limits.TheConstants.{MOST_NEIGHBOURS, MOST_ROW_PRICES};
ghost use Rattle.solomon_reader.specs.Memories.{HasPlaces};
ghost use Rattle.solomon_reader.specs.Remembering.{near};
ghost use Rattle.solomon_reader.specs.SubsetRows.{keeps_row};
ghost use Rattle.row_charges.specs.Rows.{row_of, rows_of, IsStopOf};

use crate::bits::RowBits;
use crate::priced_row::PricedRow;
use solomon_reader::Instance;

/// The place of what isn't in a neighbour list.
const NO_PLACE: u8 = 16;

/// The rows that a customer is one of, and those that are remembered there, as bits.
#[derive(Clone, Copy)]
pub(crate) struct RowStop {
    pub(crate) here: RowBits,
    pub(crate) kept: RowBits,
}

/// Whether the neighbour list of a row, by the places in it, holds a customer.
fn is_near(instance: &Instance, neighbours: u32, v: u16, places: &[u8], u: u16) -> bool
    requires few { neighbours ≤ MOST_NEIGHBOURS }
    requires v { v < length instance.now.rows }
    requires places { HasPlaces instance.now neighbours v (length instance.now.rows) places.now }
    ensures { result ≡ near instance.now neighbours v u }
{
    match places.get(usize::from(u)) {
        Some(place) => *place < NO_PLACE,
        None => false,
    }
}

/// Whether a row of three customers is remembered at a row of the instance.
fn is_kept(instance: &Instance, neighbours: u32, v: u16, places: &[u8], row: &PricedRow) -> bool
    requires few { neighbours ≤ MOST_NEIGHBOURS }
    requires v { v < length instance.now.rows }
    requires places { HasPlaces instance.now neighbours v (length instance.now.rows) places.now }
    ensures { result ≡ keeps_row instance.now neighbours (row_of row.now).row v }
{
    is_near(instance, neighbours, v, places, row.first)
        || is_near(instance, neighbours, v, places, row.second)
        || is_near(instance, neighbours, v, places, row.third)
}

/// What a stop at a row of the instance does, by the places in its neighbour list.
pub(crate) fn stop_at(
    instance: &Instance,
    neighbours: u32,
    v: u16,
    places: &[u8],
    rows: &[PricedRow],
) -> RowStop
    requires few { neighbours ≤ MOST_NEIGHBOURS }
    requires v { v < length instance.now.rows }
    requires places { HasPlaces instance.now neighbours v (length instance.now.rows) places.now }
    requires rows { length rows.now ≤ MOST_ROW_PRICES }
    ensures { IsStopOf instance.now neighbours (rows_of rows.now) v result }
{
    let mut stop = RowStop {
        here: RowBits::none(),
        kept: RowBits::none(),
    };
    for place in 0..rows.len() {
        let row = &rows[place];
        let is_here = row.has(v);
        let is_kept = is_here || is_kept(instance, neighbours, v, places, row);
        stop = RowStop {
            here: stop.here.with_if(place, is_here),
            kept: stop.kept.with_if(place, is_kept),
        };
    }
    stop
}
