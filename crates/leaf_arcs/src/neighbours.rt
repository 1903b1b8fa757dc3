//! Neighbour lists, and what is remembered.

ghost use Rattle.std.specs.Prelude.{◌≡◌, ◌↔◌, ℕ, ◌<◌, ◌≤◌, length, true, IfOk, IsTrue, Vec};
ghost use Rattle.std.specs.declared.alloc.Global.{Global};
ghost use Rattle.solomon_reader.specs.declared.limits.TheConstants.{MOST_NEIGHBOURS, MOST_PRICE, MOST_ROW_PRICES};
ghost use Rattle.solomon_reader.specs.Remembering.{near, remember};
ghost use Rattle.leaf_arcs.specs.declared.neighbours.Neighbour.{Neighbour};
ghost use Rattle.solomon_reader.specs.Memories.{place_of, recalls, has_bit, HasPlaces};
ghost use Rattle.solomon_reader.specs.SubsetRows.{row_price_sum};
ghost use Rattle.row_charges.specs.Rows.{rows_of};
ghost use Rattle.leaf_arcs.specs.Memories.{AreBitRows, AreNeighbourLists, IsNeighbourList};

use crate::bits::{NO_BIT, bits};
use crate::memory::{contains, insert};
use row_charges::{PricedRow, RowTable};
use solomon_reader::Instance;
use std::alloc::{AllocError, Global};

/// A customer of a neighbour list.
#[derive(Clone, Copy)]
pub struct Neighbour {
    /// The customer.
    pub customer: u16,
    /// Its bit in memories.
    pub bit: u8,
}

/// The neighbour list that belongs to these bits.
fn neighbour_list(
    alloc: Global,
    instance: &Instance,
    k: u8,
    v: u16,
    bits: &[u8],
) -> Result<Vec<Neighbour>, AllocError>
    requires few { k ≤ MOST_NEIGHBOURS }
    requires v { v < length instance.now.rows }
    requires bits { HasPlaces instance.now k v (length instance.now.rows) bits.now }
    ensures { IfOk result (λ list. IsNeighbourList instance.now k v
        (length instance.now.rows) list.items) }
{
    let mut list = Vec::new(alloc);
    for u in 0..instance.customer_count() + 1 {
        let bit = bits[u as usize];
        if bit < NO_BIT {
            list.push(Neighbour { customer: u, bit })?;
        }
    }
    Ok(list)
}

/// The bits and the neighbour lists of the rows of an instance.
#[derive(Drop)]
pub struct Neighbours<'i> {
    /// The instance.
    pub instance: &'i Instance,
    /// How many others a list has.
    pub k: u8,
    bits: Vec<Vec<u8>>,
    lists: Vec<Vec<Neighbour>>,
    ghost few: { k ≤ MOST_NEIGHBOURS },
    ghost bits_are: { AreBitRows instance.now k bits.items },
    ghost lists_are: { AreNeighbourLists instance.now k lists.items },
}

impl<'i> Neighbours<'i> {
    /// The neighbours for lists of this many others.
    pub fn new(alloc: Global, instance: &'i Instance, k: u8) -> Result<Neighbours<'i>, AllocError>
        requires { k ≤ MOST_NEIGHBOURS }
        ensures instance { IfOk result (λ n. n.instance.now ≡ instance.now) }
        ensures k { IfOk result (λ n. n.k ≡ k) }
    {
        let mut bit_rows = Vec::new(alloc);
        let mut lists = Vec::new(alloc);
        for v in 0..instance.customer_count() + 1 {
            let row = bits(alloc, instance, k, v)?;
            lists.push(neighbour_list(alloc, instance, k, v, row.as_slice())?)?;
            bit_rows.push(row)?;
        }
        Ok(Neighbours {
            instance,
            k,
            bits: bit_rows,
            lists,
        })
    }

    /// The table of rows that have a price, by the places in these lists.
    pub fn row_table(&self, alloc: Global, rows: Vec<PricedRow>) -> Result<RowTable<'i>, AllocError>
        requires few { length rows.items ≤ MOST_ROW_PRICES }
        requires low { row_price_sum (rows_of rows.items) ≤ MOST_PRICE }
        ensures instance { IfOk result (λ t. t.instance.now ≡ self.now.instance.now) }
        ensures neighbours { IfOk result (λ t. t.neighbours ≡ self.now.k) }
        ensures rows { IfOk result (λ t. t.rows.items ≡ rows.items) }
    {
        let k = u32::from(self.k);
        if rows.is_empty() {
            return Ok(RowTable::none(alloc, self.instance, k));
        }
        RowTable::new(alloc, self.instance, k, self.bits.as_slice(), rows)
    }

    /// The bit of u in memories of v.
    pub(crate) fn bit(&self, v: u16, u: u16) -> u8
        requires v { v < length self.now.instance.now.rows }
        requires u { u < length self.now.instance.now.rows }
        ensures { result ≡ place_of self.now.instance.now self.now.k v u }
    {
        self.bits[v as usize][u as usize]
    }

    /// The neighbour list of j.
    fn list(&self, j: u16) -> &[Neighbour]
        requires { j < length self.now.instance.now.rows }
        ensures { IsNeighbourList self.now.instance.now self.now.k j
            (length self.now.instance.now.rows) result.now }
    {
        self.lists[j as usize].as_slice()
    }

    /// Whether a memory of a visit of v has u, where both are rows.
    pub fn recalls(&self, v: u16, memory: u16, u: u16) -> bool
        ensures { IsTrue result ↔ ((v < length self.now.instance.now.rows)
            × (u < length self.now.instance.now.rows)
            × (recalls self.now.instance.now self.now.k v memory u ≡ true)) }
    {
        let count = self.instance.customer_count();
        v <= count && u <= count && contains(memory, self.bit(v, u))
    }

    /// What is remembered after a visit of j, where the memory is that of a visit of v.
    pub fn remember(&self, v: u16, memory: u16, j: u16) -> u16
        requires v { v < length self.now.instance.now.rows }
        requires j { j < length self.now.instance.now.rows }
        ensures { (u : ℕ) → has_bit result (place_of self.now.instance.now self.now.k j u)
            ≡ remember (near self.now.instance.now self.now.k)
            (recalls self.now.instance.now self.now.k v memory) j u }
    {
        let list = self.list(j);
        let mut after = insert(0, 0);
        for neighbour in list {
            if contains(memory, self.bit(v, neighbour.customer)) {
                after = insert(after, neighbour.bit);
            }
        }
        after
    }
}
