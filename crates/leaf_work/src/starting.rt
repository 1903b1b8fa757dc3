//! Prices to start from.

ghost use Rattle.std.specs.Prelude.{◌≡◌, ◌≤◌, [], length, IfOk};
ghost use Rattle.std.specs.List.{AllByRecursion};
ghost use Rattle.solomon_reader.specs.Problem.{customer_count};
ghost use Rattle.solomon_reader.specs.CertificateText.{IsPrice};

use crate::pricing::{price_alone, task_without_cuts};
use crate::raising::higher;
use fronts::Nearness;
use pooled_routes::arc_cost;
use prices::Priced;
use solomon_reader::{Instance, MOST_PRICE};
use std::alloc::{AllocError, Global};

/// A customer's share of the cost of an arc to or from another row, in grains: the half, or the whole
/// where the row is the depot.
fn arc_share(instance: &Instance, customer: u16, row: u16) -> i64 {
    let cost = arc_cost(instance, customer, row);
    if row == 0 { cost } else { cost / 2 }
}

/// A customer's share of the cost of a route, in grains; 0 where the route doesn't visit it.
fn route_share(instance: &Instance, stops: &[u16], customer: u16) -> i64 {
    let Some(place) = stops.iter().position(|stop| *stop == customer) else {
        return 0;
    };
    let before = stops.get(place.wrapping_sub(1)).copied().unwrap_or(0);
    let after = stops.get(place.wrapping_add(1)).copied().unwrap_or(0);
    arc_share(instance, customer, before).saturating_add(arc_share(instance, customer, after))
}

/// A customer's first price: 30 percent of its share of the cost of the routes, in grains.
fn first_price(instance: &Instance, routes: &[Vec<u16>], customer: u16) -> i64
    ensures { IsPrice result }
{
    let mut share: i64 = 0;
    for route in routes {
        share = share.saturating_add(route_share(instance, route.as_slice(), customer));
    }
    let most = MOST_PRICE as i64;
    (share / 10).saturating_mul(3).clamp(-most, most)
}

/// Prices to start from, in grains, that of customer i at i - 1: 30 percent of each customer's share
/// of the cost of a plan's routes, which are given by their customers in order.
fn first_prices(
    alloc: Global,
    instance: &Instance,
    routes: &[Vec<u16>],
) -> Result<Vec<i64>, AllocError>
    ensures count { IfOk result (λ v. length v.items ≡ customer_count instance.now) }
    ensures in_range { IfOk result (λ v. AllByRecursion IsPrice v.items) }
{
    let end = instance.customer_count() + 1;
    let mut prices = Vec::new(alloc);
    for customer in 1..end {
        prices.push(first_price(instance, routes, customer))?;
    }
    Ok(prices)
}

/// The leaf with these prices where their value is higher; else the leaf as it is, also where memory or
/// labels don't suffice. The tables of the instance are lent.
pub(crate) fn higher_at<'i>(
    alloc: Global,
    nearness: &Nearness<'_>,
    leaf: Priced<'i>,
    prices: Vec<i64>,
    labels: Option<usize>,
) -> Priced<'i>
    requires count { length prices.items ≡ customer_count leaf.problem }
    requires in_range { AllByRecursion IsPrice prices.items }
    ensures problem { result.problem ≡ leaf.entry.problem }
    ensures region { result.region ≡ leaf.entry.region }
    ensures neighbours { result.neighbours ≡ leaf.entry.neighbours }
    ensures not_lower { leaf.entry.value ≤ result.value }
    ensures no_sets { leaf.entry.sets ≡ [] → result.sets ≡ [] }
    ensures no_rows { leaf.entry.rows ≡ [] → result.rows ≡ [] }
{
    let Ok(task) = task_without_cuts(alloc, &leaf, prices) else {
        return leaf;
    };
    match price_alone(alloc, nearness, task, labels) {
        Ok(other) => higher(leaf, other),
        Err(_) => leaf,
    }
}

/// The root with the prices that the routes of a plan say to start from, where their value is higher;
/// else the root as it is, also where memory or labels don't suffice. The tables of the instance are lent.
pub(crate) fn start_from<'i>(
    alloc: Global,
    nearness: &Nearness<'_>,
    root: Priced<'i>,
    routes: &[Vec<u16>],
    labels: Option<usize>,
) -> Priced<'i>
    ensures problem { result.problem ≡ root.entry.problem }
    ensures region { result.region ≡ root.entry.region }
    ensures neighbours { result.neighbours ≡ root.entry.neighbours }
    ensures not_lower { root.entry.value ≤ result.value }
    ensures no_sets { root.entry.sets ≡ [] → result.sets ≡ [] }
    ensures no_rows { root.entry.rows ≡ [] → result.rows ≡ [] }
{
    match first_prices(alloc, root.instance(), routes) {
        Ok(prices) => higher_at(alloc, nearness, root, prices, labels),
        Err(_) => root,
    }
}
