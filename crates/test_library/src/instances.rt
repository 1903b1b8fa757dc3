//! Instances that are read, what they tell, and plans that insertion builds of them.

use crate::words::{List, Routes, list_of};
use insertion::{Built, Weights, build};
use schedule::walk;
use solomon_reader::{Instance, read};
use std::alloc::Global;
use test_starts::{DEPOT, behind, bytes_meant, instance_text};

/// Tells the name, the sizes and the last row of an instance: its place, its demand, its window and the service.
pub(crate) fn tell_instance(told: &mut String, instance: &Instance) -> Option<()> {
    let name = str::from_utf8(instance.name()).ok()?;
    let (fleet, capacity) = (instance.fleet(), instance.capacity());
    let customers = instance.customer_count();
    write!(
        told,
        "{name} fleet {fleet} capacity {capacity} customers {customers}"
    )
    .ok()?;
    let row = instance.rows().last()?;
    write!(told, " last {},{},{}", row.x, row.y, row.demand).ok()?;
    writeln!(told, ",{},{},{}", row.ready, row.due, row.service).ok()
}

/// The rows of the depot and this many customers from (X,Y) on, each a step to the right of the one before.
fn rows_in(alloc: Global, word: &str) -> Option<String> {
    let numbers = list_of::<u16>(alloc, word)?;
    let [count, mut x, y, step] = *numbers.as_slice() else {
        return None;
    };
    let mut rows = String::from_str(alloc, DEPOT).ok()?;
    for number in 1..=count {
        writeln!(rows, "{number} {x} {y} 1 0 1000 0").ok()?;
        x = x.saturating_add(step);
    }
    Some(rows)
}

/// The byte that a tilde stands for.
pub(crate) const HIGH: u8 = 0x80;

/// The text of an instance, by its fleet and capacity, its first rows and the others as a line shows them.
fn text_with(alloc: Global, sizes: [&str; 2], first: &str, shown: &str) -> Option<String> {
    let rows = bytes_meant(alloc, shown, HIGH).ok()?;
    let rows = str::from_utf8(rows.as_slice()).ok()?;
    instance_text(alloc, sizes[0], sizes[1], first, rows).ok()
}

/// The text of an instance, by a call's fleet and capacity and its rows, before which a `line` has the
/// customers of such a line.
pub(crate) fn text_by(alloc: Global, line: &str, words: &[&str]) -> Option<String> {
    match words {
        ["line", fleet, capacity, customers, ..] => {
            let first = rows_in(alloc, customers)?;
            text_with(alloc, [fleet, capacity], first.as_str(), behind(line, 4))
        }
        [_, fleet, capacity, ..] => text_with(alloc, [fleet, capacity], "", behind(line, 3)),
        _ => None,
    }
}

/// Tells whether an instance is the one of a text.
pub(crate) fn tell_same(
    alloc: Global,
    told: &mut String,
    instance: &Instance,
    text: &str,
) -> Option<()> {
    let is_same = *instance == read(alloc, text.as_bytes()).ok()?;
    writeln!(told, "{}", if is_same { "the same" } else { "another" }).ok()
}

/// Tells the walk of a route.
pub(crate) fn tell_walk(
    alloc: Global,
    told: &mut String,
    instance: &Instance,
    route: &str,
) -> Option<()> {
    let Some(walk) = walk(instance, list_of(alloc, route)?.as_slice()) else {
        return writeln!(told, "none").ok();
    };
    let (cost, load, finish) = (walk.cost.get(), walk.load, walk.finish.get());
    writeln!(told, "cost {cost} load {load} finish {finish}").ok()
}

/// Tells the routes of a whole plan, or those of a part and who is left.
fn tell_built(told: &mut String, built: &Built<'_>) -> Option<()> {
    match built {
        Built::Whole(plan) => writeln!(told, "whole{}", Routes(plan.routes())).ok(),
        Built::Part { routes, left } => {
            let (part, left) = (Routes(routes.as_slice()), List(left.as_slice()));
            writeln!(told, "part{part} left{left}").ok()
        }
    }
}

/// Tells what a build by these weights ends with.
pub(crate) fn tell_build(
    alloc: Global,
    told: &mut String,
    instance: &Instance,
    [mu, lambda, a1]: [&str; 3],
) -> Option<()> {
    let weights = Weights::new(mu.parse().ok()?, lambda.parse().ok()?, a1.parse().ok()?);
    let Some(weights) = weights else {
        return writeln!(told, "weights out of range").ok();
    };
    tell_built(told, &build(alloc, instance, &weights).ok()?)
}
