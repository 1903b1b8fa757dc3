//! Sets that grow, and sets that are changed one by one.

use crate::found_sets::FoundSet;
use crate::inside::Inside;
use std::alloc::{AllocError, Global};

/// Lets a set grow up to a size, each time by the customer from or to whom most flows, and notes it on its way where more
/// is lacking than so much. Answers how often a customer was looked at.
pub(crate) fn grow(
    mut inside: Inside<'_, '_>,
    customers: u16,
    most: usize,
    least: i64,
    found: &mut Vec<FoundSet>,
) -> Result<u64, AllocError> {
    let mut work: u64 = 0;
    for _step in inside.size..most {
        work = work.saturating_add(u64::from(customers));
        let Some(v) = inside.nearest() else {
            return Ok(work);
        };
        inside.toggle(v);
        inside.note(found, least)?;
    }
    Ok(work)
}

/// The customer with whom a set lacks most once it is added or taken out, of those that may be changed at a step.
fn best_change(inside: &Inside<'_, '_>, until: &[usize], step: usize) -> Option<u16> {
    let mut best: Option<(i64, u16)> = None;
    let mut v: u16 = 0;
    for end in until.iter().skip(1) {
        v = v.saturating_add(1);
        if *end > step || inside.has(v) && inside.size <= 2 {
            continue;
        }
        let lack = inside.lack_with(v);
        if best.is_none_or(|(most, _)| lack > most) {
            best = Some((lack, v));
        }
    }
    Some(best?.1)
}

/// Changes a set by one customer after the other, each time by the one with whom most is lacking, also where that is
/// less than before, and none again soon; notes it on its way. Answers how often a customer was looked at.
pub(crate) fn improve(
    alloc: Global,
    mut inside: Inside<'_, '_>,
    customers: u16,
    steps: usize,
    least: i64,
    found: &mut Vec<FoundSet>,
) -> Result<u64, AllocError> {
    let mut until = vec![in alloc; 0; usize::from(customers).saturating_add(1)]?;
    let mut work: u64 = 0;
    for step in 0..steps {
        work = work.saturating_add(u64::from(customers));
        let Some(v) = best_change(&inside, until.as_slice(), step) else {
            return Ok(work);
        };
        inside.toggle(v);
        if let Some(end) = until.get_mut(usize::from(v)) {
            *end = step.saturating_add(usize::from(7 + v % 5));
        }
        inside.note(found, least)?;
    }
    Ok(work)
}
