//! Bounds on what may follow on a visit that ends at the beginning of a part of the horizon or later: they tell of a
//! step what it leads to before it is made.

ghost use Rattle.std.specs.Prelude.{◌<◌, length, IfOk};
ghost use Rattle.std.specs.List.{All};
ghost use Rattle.completions.specs.Completions.{IsRowBound, IsVisitBound, AreVisitBounds, IsPart};
ghost use Rattle.fronts.specs.Tasks.{pricing_of};

use crate::bound::RowBound;
use crate::table::bound_in;
use fronts::Task;
use std::alloc::AllocError;

/// The horizon has this many parts.
const PARTS: u64 = 16;

/// The least that what follows on a visit of each row adds, where the visit ends at a time or later.
#[derive(Drop)]
pub(crate) struct Part {
    /// The time, in tenths.
    pub(crate) from: u64,
    /// The least for each row, in grains.
    pub(crate) leasts: Vec<i64>,
}

/// How long a part of the horizon is, in tenths, 1 at least.
pub(crate) fn part_length(task: &Task<'_>) -> u64 {
    task.instance.law_of_limits();
    task.instance.due(0) / PARTS + 1
}

/// The least that what follows on a visit of a row adds, as far as the bounds tell, where the visit ends at a time,
/// in tenths, or later. It ends no sooner than service does that begins with the window.
fn least_after(task: &Task<'_>, bounds: &[RowBound], v: u16, from: u64) -> i64
    requires bounds { All (IsRowBound (pricing_of task.now)) bounds.now }
    requires v { v < length task.now.instance.now.rows }
    ensures { IsVisitBound (pricing_of task.now) from v result }
{
    task.instance.law_of_limits();
    let served = task.instance.ready(v) + task.instance.service(v);
    let time = from.max(served);
    let place = task.slots.place(v, time);
    bound_in(task, bounds, place, v, time, 0).least
}

/// The part of the horizon that begins at a time, in tenths.
fn part_from(task: &Task<'_>, bounds: &[RowBound], from: u64) -> Result<Part, AllocError>
    requires { All (IsRowBound (pricing_of task.now)) bounds.now }
    ensures { IfOk result (IsPart (pricing_of task.now)) }
{
    task.instance.law_of_limits();
    let count = task.instance.customer_count();
    let mut leasts = Vec::with_capacity(task.alloc, usize::from(count) + 1)?;
    for v in 0..count + 1 {
        leasts.push(least_after(task, bounds, v, from))?;
    }
    Ok(Part { from, leasts })
}

/// The parts of the horizon, in order.
pub(crate) fn parts_of(task: &Task<'_>, bounds: &[RowBound]) -> Result<Vec<Part>, AllocError>
    requires { All (IsRowBound (pricing_of task.now)) bounds.now }
    ensures { IfOk result (λ parts. All (IsPart (pricing_of task.now)) parts.items) }
{
    let length = part_length(task);
    let mut parts = Vec::new(task.alloc);
    for number in 0..PARTS {
        parts.push(part_from(task, bounds, number.saturating_mul(length))?)?;
    }
    Ok(parts)
}
