//! The steps that a region allows, with their reduced costs.

ghost use Rattle.std.specs.Prelude.{◌≡◌, ◌+◌, ◌<◌, ◌≤◌, length, slice_index_or, pos, ◌+ℤ◌, nat_abs, IfOk};
ghost use Rattle.std.specs.List.{AllByRecursion};
ghost use Rattle.solomon_reader.specs.declared.limits.TheConstants.{MOST_PRICE};
ghost use Rattle.solomon_reader.specs.CustomerSets.{IsCustomerSet};
ghost use Rattle.solomon_reader.specs.Problem.{customer_count};
ghost use Rattle.solomon_reader.specs.Relaxed.{price_of};
ghost use Rattle.solomon_reader.specs.SetPrices.{price_sum};
ghost use Rattle.priced_sets.specs.Sets.{sets_of, IsWithin};
ghost use Rattle.fronts.specs.Payments.{paid_by};
ghost use Rattle.fronts.specs.Steps.{AreStepsTo, IsOpenList};
ghost use Rattle.fronts.specs.Tables.{IsTable};

use crate::customer_set::CustomerSet;
use crate::nearness::Nearness;
use crate::payment::Payment;
use crate::step::Step;
use priced_sets::entry_prices;
use std::alloc::{AllocError, Global};

/// What a step to a customer is paid, in grains, where a list says what steps are paid for the sets that they enter;
/// nothing where the list has none.
fn paid_to(payment: &Payment<'_>, entries: &[u64], customer: u16) -> i64
    requires some { 1 ≤ customer }
    requires within { customer ≤ length payment.now.prices.now }
    requires range { slice_index_or entries.now customer 0 + nat_abs (price_of payment.now.prices.now customer) ≤ MOST_PRICE }
    ensures { result ≡ price_of payment.now.prices.now customer +ℤ pos (slice_index_or entries.now customer 0) }
{
    let grains = match entries.get(usize::from(customer)) {
        Some(grains) => *grains,
        None => 0,
    };
    payment.prices[usize::from(customer) - 1] + grains as i64
}

/// The steps from a row to some rows, where steps are paid.
fn open_steps_from(
    alloc: Global,
    nearness: &Nearness<'_>,
    payment: &Payment<'_>,
    rows: &CustomerSet,
    v: u16,
) -> Result<Vec<Step>, AllocError>
    requires v { v < length nearness.now.instance.now.rows }
    requires count { length payment.now.prices.now ≡ customer_count nearness.now.instance.now }
    requires known { AllByRecursion (λ s. IsCustomerSet (customer_count nearness.now.instance.now) s.members) (sets_of payment.now.sets.now) }
    requires low { price_sum (sets_of payment.now.sets.now) ≤ MOST_PRICE }
    requires priced { AllByRecursion (IsWithin (sets_of payment.now.sets.now)) payment.now.prices.now }
    ensures { let n = nearness.now in
        IfOk result (AreStepsTo n.instance.now n.neighbours (paid_by payment.now) rows.now v) }
{
    let steps = nearness.steps[usize::from(v)].as_slice();
    let count = nearness.instance.customer_count();
    let entries = entry_prices(alloc, payment.sets, count, v)?;
    let grains = entries.as_slice();
    let mut chosen = Vec::with_capacity(alloc, steps.len())?;
    for step in steps {
        if rows.contains(step.customer) {
            let paid = paid_to(payment, grains, step.customer);
            chosen.push(step.at(paid))?;
        }
    }
    Ok(chosen)
}

/// The steps from each row to the rows that a table has there, where steps are paid.
pub(crate) fn open_steps(
    alloc: Global,
    nearness: &Nearness<'_>,
    payment: &Payment<'_>,
    rows: &[CustomerSet],
) -> Result<Vec<Vec<Step>>, AllocError>
    requires rows { length rows.now ≡ length nearness.now.instance.now.rows }
    requires count { length payment.now.prices.now ≡ customer_count nearness.now.instance.now }
    requires known { AllByRecursion (λ s. IsCustomerSet (customer_count nearness.now.instance.now) s.members) (sets_of payment.now.sets.now) }
    requires low { price_sum (sets_of payment.now.sets.now) ≤ MOST_PRICE }
    requires priced { AllByRecursion (IsWithin (sets_of payment.now.sets.now)) payment.now.prices.now }
    ensures { let n = nearness.now in
        let p = n.instance.now in
        let is_open = IsOpenList p n.neighbours (paid_by payment.now) rows.now in
        IfOk result (λ table. IsTable is_open (length p.rows) table.items) }
{
    let count = nearness.instance.customer_count();
    let mut table = Vec::with_capacity(alloc, usize::from(count) + 1)?;
    for v in 0..count + 1 {
        let steps = open_steps_from(alloc, nearness, payment, &rows[usize::from(v)], v)?;
        table.push(steps)?;
    }
    Ok(table)
}
