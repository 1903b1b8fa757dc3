//! How long the quickest ways between rows take, over whatever rows (Floyd 1962, Warshall 1962).

ghost use Rattle.std.specs.Prelude.{◌≡◌, ◌+◌, ◌<◌, ◌≤◌, length, IfOk};
ghost use Rattle.solomon_reader.specs.declared.limits.TheConstants.{MOST_DISTANCE};
ghost use Rattle.solomon_reader.specs.CustomerSets.{IsQuickest};
ghost use Rattle.set_needs.specs.Quickest.{IsQuickestBelow, IsRowBelow, AreRowsBelow};

use solomon_reader::Instance;
use std::alloc::{AllocError, Global};
use std::marker::Model;

/// How long the quickest ways between the rows of an instance take, in tenths. Contracts see the instance.
#[derive(Drop)]
pub struct QuickestWays<'i> {
    instance: &'i Instance,
    rows: Vec<Vec<u32>>,
}

impl<'i> Model for QuickestWays<'i> {
    ghost use Rattle.std.specs.Prelude.{length};
    ghost use Rattle.solomon_reader.specs.Problem.{Problem};
    ghost use Rattle.set_needs.specs.Quickest.{AreRowsBelow};

    ghost Value = { Problem };

    ghost view = { λ w. w.instance.now };

    ghost invariant = { λ w. AreRowsBelow w.instance.now (length w.instance.now.rows) w.rows.items };
}

/// The ways from a row that go over no other.
fn direct_row(alloc: Global, instance: &Instance, from: u16) -> Result<Vec<u32>, AllocError>
    requires { from < length instance.now.rows }
    ensures { IfOk result (λ row. IsRowBelow instance.now 0 from row.items) }
{
    let mut row = Vec::new(alloc);
    for to in 0..instance.customer_count() + 1 {
        row.push(instance.distance(from, to).get() as u32)?;
    }
    Ok(row)
}

/// The ways that go over no other row.
fn direct_rows(alloc: Global, instance: &Instance) -> Result<Vec<Vec<u32>>, AllocError>
    ensures { IfOk result (λ rows. AreRowsBelow instance.now 0 rows.items) }
{
    let mut rows = Vec::new(alloc);
    for from in 0..instance.customer_count() + 1 {
        rows.push(direct_row(alloc, instance, from)?)?;
    }
    Ok(rows)
}

/// The quickest ways from a row, where they may go over one row more: those known, or the way to that row and on.
fn row_through(
    alloc: Global,
    instance: &Instance,
    from: u16,
    over: u16,
    row: &[u32],
    onward: &[u32],
) -> Result<Vec<u32>, AllocError>
    requires over { over < length instance.now.rows }
    requires row { IsRowBelow instance.now over from row.now }
    requires onward { IsRowBelow instance.now over over onward.now }
    ensures { IfOk result (λ r. IsRowBelow instance.now (over + 1) from r.items) }
{
    let first = row[usize::from(over)];
    let mut quicker = Vec::new(alloc);
    for to in 0..instance.customer_count() + 1 {
        let place = usize::from(to);
        quicker.push(row[place].min(first + onward[place]))?;
    }
    Ok(quicker)
}

/// The quickest ways, where they may go over one row more.
fn rows_through(
    alloc: Global,
    instance: &Instance,
    over: u16,
    rows: &[Vec<u32>],
) -> Result<Vec<Vec<u32>>, AllocError>
    requires over { over < length instance.now.rows }
    requires rows { AreRowsBelow instance.now over rows.now }
    ensures { IfOk result (λ r. AreRowsBelow instance.now (over + 1) r.items) }
{
    let onward = rows[usize::from(over)].as_slice();
    let mut quicker = Vec::new(alloc);
    for from in 0..instance.customer_count() + 1 {
        let row = rows[usize::from(from)].as_slice();
        quicker.push(row_through(alloc, instance, from, over, row, onward)?)?;
    }
    Ok(quicker)
}

impl<'i> QuickestWays<'i> {
    /// The quickest ways of an instance. `AllocError` where memory was refused.
    pub fn new(alloc: Global, instance: &'i Instance) -> Result<QuickestWays<'i>, AllocError>
        ensures { IfOk result (λ w. w ≡ instance.now) }
    {
        let mut rows = direct_rows(alloc, instance)?;
        for over in 0..instance.customer_count() + 1 {
            rows = rows_through(alloc, instance, over, rows.as_slice())?;
        }
        Ok(QuickestWays { instance, rows })
    }

    /// How long the quickest way from a row to a row takes, in tenths.
    pub fn get(&self, from: u16, to: u16) -> u32
        requires from { from < length self.now.rows }
        requires to { to < length self.now.rows }
        ensures quickest { IsQuickest self.now from to result }
        ensures bound { result ≤ MOST_DISTANCE }
    {
        self.rows[usize::from(from)][usize::from(to)]
    }
}
