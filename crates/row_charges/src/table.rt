//! What stops cost, and what they leave of bits.

ghost use Rattle.std.specs.Prelude.{◌≡◌, ℕ, ◌<◌, ◌≤◌, length, take, IfOk, IsTrue, []};
ghost use Rattle.solomon_reader.specs.declared.limits.TheConstants.{MOST_NEIGHBOURS, MOST_PRICE, MOST_ROW_PRICES};
ghost use Rattle.solomon_reader.specs.SubsetRows.{row_price_sum, charged_at, bits_after, debt};
ghost use Rattle.row_charges.specs.Bits.{bit_of};
ghost use Rattle.row_charges.specs.Rows.{rows_of, price_at, ArePlaces, AreStops};

use crate::bits::RowBits;
use crate::priced_row::PricedRow;
use crate::stop::{RowStop, stop_at};
use solomon_reader::Instance;
use std::alloc::{AllocError, Global};

/// The rows that have a price at a leaf, and what a stop at each row of the instance does to their bits.
#[derive(Drop)]
pub struct RowTable<'i> {
    /// The instance.
    pub instance: &'i Instance,
    /// How many neighbours each customer has in relaxed routes, at most 15.
    pub neighbours: u32,
    /// The rows that have a price.
    pub rows: Vec<PricedRow>,
    stops: Vec<RowStop>,
    ghost few: { length rows.items ≤ MOST_ROW_PRICES },
    ghost low: { row_price_sum (rows_of rows.items) ≤ MOST_PRICE },
    ghost stops_are: { AreStops instance.now neighbours (rows_of rows.items) stops.items },
}

/// What the rows whose bit is set cost together, in grains.
fn price_of(rows: &[PricedRow], bits: RowBits) -> u64
    requires few { length rows.now ≤ MOST_ROW_PRICES }
    requires low { row_price_sum (rows_of rows.now) ≤ MOST_PRICE }
    ensures is { result ≡ price_at (rows_of rows.now) (bit_of bits) }
    ensures low { result ≤ MOST_PRICE }
{
    let mut price: u64 = 0;
    let mut place = bits.next_from(0);
    while place < rows.len() {
        if bits.has(place) {
            price += rows[place].price;
        }
        place = bits.next_from(place + 1);
    }
    price
}

impl<'i> RowTable<'i> {
    /// The table of no rows.
    pub fn none(alloc: Global, instance: &'i Instance, neighbours: u32) -> RowTable<'i>
        ensures instance { result.instance.now ≡ instance.now }
        ensures neighbours { result.neighbours ≡ neighbours }
        ensures rows { result.rows.items ≡ [] }
    {
        RowTable {
            instance,
            neighbours,
            rows: Vec::new(alloc),
            stops: Vec::new(alloc),
        }
    }

    /// The table of rows at an instance, by the place of each row of the instance in each neighbour list, unless memory
    /// runs out.
    pub fn new(
        alloc: Global,
        instance: &'i Instance,
        neighbours: u32,
        places: &[Vec<u8>],
        rows: Vec<PricedRow>,
    ) -> Result<RowTable<'i>, AllocError>
        requires known { neighbours ≤ MOST_NEIGHBOURS }
        requires places { ArePlaces instance.now neighbours places.now }
        requires few { length rows.items ≤ MOST_ROW_PRICES }
        requires low { row_price_sum (rows_of rows.items) ≤ MOST_PRICE }
        ensures instance { IfOk result (λ t. t.instance.now ≡ instance.now) }
        ensures neighbours { IfOk result (λ t. t.neighbours ≡ neighbours) }
        ensures rows { IfOk result (λ t. t.rows ≡ rows) }
    {
        let mut stops = Vec::new(alloc);
        for v in 0..instance.customer_count() + 1 {
            let near = places[usize::from(v)].as_slice();
            stops.push(stop_at(instance, neighbours, v, near, rows.as_slice()))?;
        }
        Ok(RowTable {
            instance,
            neighbours,
            rows,
            stops,
        })
    }

    /// What a stop at a row of the instance costs, in grains, where bits are these before it.
    pub fn charge(&self, bits: RowBits, j: u16) -> u64
        requires j { j < length self.now.instance.now.rows }
        ensures is { result ≡ charged_at (rows_of self.now.rows.items) (bit_of bits) j }
        ensures low { result ≤ MOST_PRICE }
    {
        match self.stops.get(usize::from(j)) {
            Some(stop) => price_of(self.rows.as_slice(), bits.and(stop.here)),
            None => 0,
        }
    }

    /// The bits behind a stop at a row of the instance.
    pub fn after(&self, bits: RowBits, j: u16) -> RowBits
        requires j { j < length self.now.instance.now.rows }
        ensures { (i : ℕ) → bit_of result i ≡ bits_after self.now.instance.now self.now.neighbours
            (rows_of self.now.rows.items) (bit_of bits) j i }
    {
        match self.stops.get(usize::from(j)) {
            Some(stop) => bits.changed_by(stop.here).and(stop.kept),
            None => RowBits::none(),
        }
    }

    /// What the rows cost together, in grains, whose bit is set in x but not in y.
    pub fn debt(&self, x: RowBits, y: RowBits) -> u64
        ensures is { result ≡ debt (rows_of self.now.rows.items) (bit_of x) (bit_of y) }
        ensures low { result ≤ MOST_PRICE }
    {
        price_of(self.rows.as_slice(), x.without(y))
    }
}
