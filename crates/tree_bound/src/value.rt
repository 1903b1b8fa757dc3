//! The value of a leaf.

ghost use Rattle.tree_bound.specs.Settings.{neighbours_in, problem_in, version_in};
ghost use Rattle.std.specs.Prelude.{◌≡◌, ◌+◌, ◌*◌, ◌<◌, ◌≤◌, ◌^◌, ◌⊎◌, length, None, IfOk, IfSome, pos, ◌-ℤ◌};
ghost use Rattle.std.specs.List.{AllByRecursion};
ghost use Rattle.solomon_reader.specs.Problem.{customer_count};
ghost use Rattle.solomon_reader.specs.Relaxed.{int_sum};
ghost use Rattle.solomon_reader.specs.Bound.{IsRoundedUp};
ghost use Rattle.solomon_reader.specs.SetPrices.{paid_for_needs, price_sum};
ghost use Rattle.solomon_reader.specs.SubsetRows.{row_price_sum};
ghost use Rattle.solomon_reader.specs.CertificateText.{IsPrice};
ghost use Rattle.solomon_reader.specs.declared.limits.TheConstants.{MOST_CUSTOMERS, MOST_NEED, MOST_PRICE};
ghost use Rattle.tree_bound.specs.Cover.{or_zero};
ghost use Rattle.leaf_arcs.specs.Decisions.{region_of};
ghost use Rattle.leaf_arcs.specs.Sets.{sets_of, leaf_of};
ghost use Rattle.row_charges.specs.Rows.{rows_of};
ghost use Rattle.solomon_reader.specs.SumLaws.{up, down};
ghost use Rattle.tree_bound.specs.Grains.{ArePrices, IsSmall, IsWorth, IsLowered, IsLesserValue, grains_by, leaf_sum, sum_in};

use crate::difference::Difference;
use crate::dive::dive;
use crate::fault::BoundFault;
use crate::setting::Setting;
use crate::work::least;
use leaf_arcs::{Decision, Leaf, PricedSet, Task};
use row_charges::{PricedRow, RowTable};
use solomon_reader::Instance;
use std::alloc::Global;

/// The sum of the prices.
fn sum_of(prices: &[i64]) -> Difference
    requires priced { AllByRecursion IsPrice prices.now }
    requires few { length prices.now ≤ MOST_CUSTOMERS }
    ensures value { pos result.above -ℤ pos result.below ≡ int_sum prices.now }
    ensures above { result.above ≤ MOST_CUSTOMERS * MOST_PRICE }
    ensures below { result.below ≤ MOST_CUSTOMERS * MOST_PRICE }
{
    let mut above: u64 = 0;
    let mut below: u64 = 0;
    for price in prices {
        if *price < 0 {
            below += price.unsigned_abs();
        } else {
            above += price.unsigned_abs();
        }
    }
    Difference { above, below }
}

/// What all needed entries of sets are paid.
fn needs_of(sets: &[PricedSet<'_>]) -> u64
    requires within { price_sum (sets_of sets.now) ≤ MOST_PRICE }
    requires needs { AllByRecursion (λ s. s.need ≤ MOST_NEED) (sets_of sets.now) }
    ensures value { result ≡ paid_for_needs (sets_of sets.now) }
    ensures bound { result ≤ MOST_PRICE * MOST_NEED }
{
    let mut grains: u64 = 0;
    for set in sets {
        grains += set.price * u64::from(set.need);
    }
    grains
}

/// What a charge by each row costs together.
fn charges_of(rows: &[PricedRow]) -> u64
    requires { row_price_sum (rows_of rows.now) ≤ MOST_PRICE }
    ensures value { result ≡ row_price_sum (rows_of rows.now) }
    ensures bound { result ≤ MOST_PRICE }
{
    let mut grains: u64 = 0;
    for row in rows {
        grains += row.price;
    }
    grains
}

/// The sum of the prices, and of what all needed entries of sets are paid, less a charge by each row.
fn leaf_sum(
    instance: &Instance,
    prices: &[i64],
    sets: &[PricedSet<'_>],
    rows: &RowTable<'_>,
) -> Difference
    requires { ArePrices instance.now (leaf_of prices.now sets.now rows.now) }
    ensures value { sum_in result ≡ leaf_sum (leaf_of prices.now sets.now rows.now) }
    ensures small { IsSmall result }
{
    instance.law_of_limits();
    let sum = sum_of(prices);
    Difference {
        above: sum.above + needs_of(sets),
        below: sum.below + charges_of(rows.rows.as_slice()),
    }
}

/// The least reduced cost, 0 where there is none, as a difference of which one side is 0.
fn difference_of(least: Option<i64>) -> Difference
    ensures above { result.above ≡ up (or_zero least) }
    ensures below { result.below ≡ down (or_zero least) }
{
    match least {
        Some(cost) if cost < 0 => Difference {
            above: 0,
            below: cost.unsigned_abs(),
        },
        Some(cost) => Difference {
            above: cost.unsigned_abs(),
            below: 0,
        },
        None => Difference { above: 0, below: 0 },
    }
}

/// A product that fits.
fn times(count: u32, grains: u64) -> u128
    ensures value { result ≡ count * grains }
    ensures bound { result < 2 ^ 96 }
{
    u128::from(count) * u128::from(grains)
}

/// The value in tenths, rounded up; 0 where the grains are below 0.
fn round_up(sum: Difference, fleet: u16, routes: u32, least: Difference) -> u128
    ensures { IsRoundedUp (pos (sum.above + routes * least.above) -ℤ pos
        (sum.below + fleet * least.below)) result }
{
    let above = u128::from(sum.above) + times(routes, least.above);
    let below = u128::from(sum.below) + times(u32::from(fleet), least.below);
    above.saturating_sub(below).div_ceil(1000)
}

/// The value of a leaf with this sum, in tenths, if this is its least reduced cost; `None` stands for 0.
fn value_at(setting: &Setting<'_>, sum: Difference, least: Option<i64>) -> u128
    ensures { IsRoundedUp (grains_by (version_in setting.now)
        (problem_in setting.now) (sum_in sum) (or_zero least)) result }
{
    let instance = setting.network.neighbours.instance;
    instance.law_of_limits();
    round_up(sum, instance.fleet(), setting.routes, difference_of(least))
}

/// About the least reduced cost with which a leaf's value is this many tenths: nothing is said of it.
fn guess_limit(setting: &Setting<'_>, sum: Difference, most: u32) -> i64
    requires { IsSmall sum }
{
    let instance = setting.network.neighbours.instance;
    instance.law_of_limits();
    let wanted = (1000 * u64::from(most) + sum.below).saturating_sub(999);
    let fleet = u64::from(instance.fleet()).max(1);
    if sum.above >= wanted {
        let spare = (sum.above - wanted) / fleet;
        return -(spare as i64);
    }
    let missing = (wanted - sum.above).div_ceil(u64::from(setting.routes).max(1));
    missing as i64
}

/// A reduced cost with which a leaf's value is this many tenths or more; `None` where no relaxed route is known
/// and the value without any is less.
fn limit_of(setting: &Setting<'_>, sum: Difference, most: u32, known: Option<i64>) -> Option<i64>
    requires { IsSmall sum }
    ensures worth { IfSome result (λ t. IsWorth
        (version_in setting.now) (problem_in setting.now) (sum_in sum) t most) }
    ensures routeless { IfSome result (λ _. known ≡ None
        → IsWorth (version_in setting.now) (problem_in setting.now) (sum_in sum)
        (pos 0) most) }
{
    if known.is_none() && value_at(setting, sum, None) < u128::from(most) {
        return None;
    }
    let limit = Some(guess_limit(setting, sum, most));
    if value_at(setting, sum, limit) >= u128::from(most) {
        return limit;
    }
    None
}

/// A number of tenths, or less where the leaf's value is known to be less: by the reduced cost of a relaxed
/// route, or, where no routes are counted on, as one without relaxed routes.
fn lowered(setting: &Setting<'_>, sum: Difference, most: u32, known: Option<i64>) -> u32
    ensures { (result ≡ most) ⊎ IsLowered
        (version_in setting.now) (problem_in setting.now) (sum_in sum) known most result }
{
    if known.is_none() && setting.routes > 0 {
        return most;
    }
    u128::from(most).min(value_at(setting, sum, known)) as u32
}

/// The lesser of a number of tenths and the value of a leaf, and how fine floors of the next one are to be.
#[derive(Clone, Copy)]
pub(crate) struct Lesser {
    pub(crate) bound: u32,
    pub(crate) level: usize,
}

/// The lesser of a number of tenths and the value of the leaf with these decisions on its path, these prices,
/// these sets and these rows. Where the value isn't less, it isn't found.
pub(crate) fn lesser_value<'i>(
    alloc: Global,
    setting: &Setting<'i>,
    path: &[Decision],
    prices: &[i64],
    sets: &[PricedSet<'_>],
    rows: &RowTable<'i>,
    most: u32,
    level: usize,
) -> Result<Lesser, BoundFault>
    requires same { rows.now.instance.now ≡ problem_in setting.now }
    requires listed { rows.now.neighbours ≡ neighbours_in setting.now }
    requires prices { ArePrices (problem_in setting.now) (leaf_of prices.now sets.now rows.now) }
    ensures { IfOk result (λ b. IsLesserValue
        (version_in setting.now) (problem_in setting.now)
        (region_of (customer_count (problem_in setting.now)) path.now)
        (neighbours_in setting.now) (leaf_of prices.now sets.now rows.now) most b.bound) }
{
    let network = &setting.network;
    network.neighbours.instance.law_of_limits();
    let sum = leaf_sum(network.neighbours.instance, prices, sets, rows);
    let leaf = Leaf {
        network,
        path,
        prices,
        sets,
        rows,
    };
    let mut task = Task::new(alloc, leaf)?;
    let known = dive(&task);
    let most = lowered(setting, sum, most, known);
    if most == 0 {
        return Ok(Lesser { bound: 0, level });
    }
    task.limit = limit_of(setting, sum, most, known);
    task.add_floors(alloc, level)?;
    let found = least(alloc, &mut task, setting.state_limit)?;
    Ok(Lesser {
        bound: u128::from(most).min(value_at(setting, sum, found.cost)) as u32,
        level: found.level,
    })
}
