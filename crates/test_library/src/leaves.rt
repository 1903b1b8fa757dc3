//! Prices at leaves: their values, steps, and the least reduced costs.

use crate::words::{List, OrNone, list_of, pair_of};
use crate::workers::tell_worker;
use branching::{Arc, Region};
use labelling::{Hints, Kept, least, least_by_hints};
use prices::{PriceFault, Priced, improve};
use schedule::walk;
use solomon_reader::{Instance, MOST_NEIGHBOURS};
use std::alloc::Global;

/// The root, or its child where an arc is used or unused, as `used:0,1`.
pub(crate) fn region_of(alloc: Global, size: u16, word: &str) -> Option<Region> {
    let root = Region::root(alloc, size);
    if word == "root" {
        return Some(root);
    }
    let (choice, arc) = word.split_once(':')?;
    let (from, to) = pair_of(arc)?;
    match choice {
        "used" => root.used(Arc { from, to }).ok(),
        "unused" => root.forbidden(Arc { from, to }).ok(),
        _ => None,
    }
}

/// Tells why there is no leaf of a region and prices, and what came back.
fn tell_refused(
    told: &mut String,
    region: &Region,
    prices: &[i64],
    fault: PriceFault,
) -> Option<()> {
    let (customers, prices) = (region.size(), List(prices));
    writeln!(told, "{fault} back_customers {customers} prices{prices}").ok()
}

/// The leaf of a region, neighbours and prices, perhaps with a limit of labels; where there is none, why and what
/// came back is told.
fn leaf_at<'i>(
    alloc: Global,
    told: &mut String,
    instance: &'i Instance,
    [region, neighbours, prices]: [&str; 3],
    limit: Option<usize>,
) -> Option<Option<Priced<'i>>> {
    let count = instance.customer_count();
    let neighbours = neighbours.parse::<u32>().ok()?;
    let prices = list_of(alloc, prices)?;
    let region = region_of(alloc, count, region)?;
    let fit = region.size() == count && prices.len() == usize::from(count);
    if !fit || neighbours > MOST_NEIGHBOURS {
        return None;
    }
    match Priced::of(alloc, instance, region, neighbours, prices, limit) {
        Ok(leaf) => Some(Some(leaf)),
        Err((region, prices, fault)) => {
            tell_refused(told, &region, prices.as_slice(), fault)?;
            Some(None)
        }
    }
}

/// Tells the value of a leaf, its prices, and what else it was made of.
fn tell_value(told: &mut String, leaf: &Priced<'_>) -> Option<()> {
    let (value, customers) = (leaf.value(), leaf.instance().customer_count());
    let (neighbours, prices) = (leaf.neighbours(), List(leaf.prices()));
    writeln!(
        told,
        "value {value} customers {customers} neighbours {neighbours} prices{prices}"
    )
    .ok()
}

/// Tells the least reduced cost at a leaf, found with a limit of labels.
fn tell_least(alloc: Global, told: &mut String, leaf: &Priced<'_>, limit: usize) -> Option<()> {
    let (instance, region, prices) = (leaf.instance(), leaf.region(), leaf.prices());
    let (neighbours, limit) = (leaf.neighbours(), Some(limit));
    match least(alloc, instance, region, prices, neighbours, limit) {
        Ok(found) => writeln!(told, "least {}", OrNone(found.value)).ok(),
        Err(fault) => writeln!(told, "{fault}").ok(),
    }
}

/// The reduced cost of a list of customers in grains, if it is one that a vehicle can go along.
fn reduced_cost(instance: &Instance, prices: &[i64], stops: &[u16]) -> Option<i64> {
    let tenths = walk(instance, stops)?.cost.get();
    let mut cost = i64::try_from(tenths).ok()?.checked_mul(1000)?;
    for stop in stops {
        let price = prices.get(usize::from(*stop).checked_sub(1)?)?;
        cost = cost.checked_sub(*price)?;
    }
    Some(cost)
}

/// The reduced costs of routes at a leaf.
fn reduced_costs(alloc: Global, leaf: &Priced<'_>, routes: &[Vec<u16>]) -> Option<Vec<i64>> {
    let (instance, prices) = (leaf.instance(), leaf.prices());
    let mut costs = Vec::new(alloc);
    for route in routes {
        let cost = reduced_cost(instance, prices, route.as_slice())?;
        costs.push(cost).ok()?;
    }
    Some(costs)
}

/// Tells the least reduced cost at a leaf where a route is known, and the reduced costs of the further routes that
/// were met.
fn tell_met(alloc: Global, told: &mut String, leaf: &Priced<'_>, route: &str) -> Option<()> {
    let known = list_of(alloc, route)?;
    let mut hints = Hints::none(alloc);
    hints.known = known;
    let mut kept = Kept::nothing(alloc);
    let found = least_by_hints(alloc, leaf.task(), None, &hints, &mut kept);
    let value = found.ok()?.value;
    let costs = reduced_costs(alloc, leaf, kept.met.as_slice())?;
    let (least, costs) = (OrNone(value), List(costs.as_slice()));
    writeln!(told, "least {least} met{costs}").ok()
}

/// Tells what steps make of the prices of a leaf: it before them and behind them, and its least reduced cost.
fn tell_steps(alloc: Global, told: &mut String, leaf: Priced<'_>, steps: &str) -> Option<()> {
    let steps = list_of(alloc, steps)?;
    tell_value(told, &leaf)?;
    let better = improve(alloc, leaf, steps.as_slice(), None);
    tell_value(told, &better)?;
    writeln!(told, "least {}", OrNone(better.least().value)).ok()
}

/// Tells what comes of a call for a leaf, by the words behind the leaf's own.
fn tell_at<'i>(
    alloc: Global,
    told: &mut String,
    instance: &'i Instance,
    leaf: &Priced<'i>,
    (call, rest): (&str, &[&str]),
) -> Option<()> {
    match (call, rest) {
        ("leaf", _) => tell_value(told, leaf),
        ("least", []) => writeln!(told, "least {}", OrNone(leaf.least().value)).ok(),
        ("least", [limit]) => tell_least(alloc, told, leaf, limit.parse().ok()?),
        ("met", [route]) => tell_met(alloc, told, leaf, route),
        _ => tell_worker(alloc, told, instance, leaf, (call, rest)),
    }
}

/// Tells what comes of a call for the leaf of its words, with words behind them.
pub(crate) fn tell_leaf(
    alloc: Global,
    told: &mut String,
    instance: &Instance,
    call: &str,
    words: [&str; 3],
    rest: &[&str],
) -> Option<()> {
    let most = match (call, rest) {
        ("leaf", [limit]) => Some(limit.parse().ok()?),
        _ => None,
    };
    let Some(leaf) = leaf_at(alloc, told, instance, words, most)? else {
        return Some(());
    };
    match (call, rest) {
        ("steps", [steps]) => tell_steps(alloc, told, leaf, steps),
        _ => tell_at(alloc, told, instance, &leaf, (call, rest)),
    }
}
