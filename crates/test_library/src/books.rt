//! Books that are offered plans, and whose leaves get prices and are split.

use crate::leaves::region_of;
use crate::plans::routes_of;
use crate::words::{List, OrNone, list_of, pair_of};
use branching::{Arc, TreeNode};
use incumbent_book::{Book, BookFault, Limits, Offered, Outcome};
use priced_sets::PricedSet;
use prices::Priced;
use schedule::Feasible;
use solomon_reader::Instance;
use std::alloc::Global;
use test_starts::{children_at, paid_at, priced_at};

/// Limits of events, leaves and depth, and of the sets that may have prices where there is a fourth.
fn limits_of(alloc: Global, word: &str) -> Option<(Limits, Option<u32>)> {
    let numbers = list_of::<u32>(alloc, word)?;
    let (events, leaves, depth, sets) = match *numbers.as_slice() {
        [events, leaves, depth] => (events, leaves, depth, None),
        [events, leaves, depth, sets] => (events, leaves, depth, Some(sets)),
        _ => return None,
    };
    let events = usize::try_from(events).ok()?;
    let limits = Limits {
        events,
        leaves,
        depth,
    };
    Some((limits, sets))
}

/// A set of customers with its need and its price.
fn set_of(alloc: Global, members: &str, paid: &str) -> Option<PricedSet> {
    let (need, price) = paid.split_once(',')?;
    Some(PricedSet {
        members: list_of(alloc, members)?,
        need: need.parse().ok()?,
        price: price.parse().ok()?,
    })
}

/// Offers a plan, and tells whether it was better, and the best cost that was known.
fn offer<'i>(
    told: &mut String,
    book: &mut Book<'i>,
    instance: &'i Instance,
    routes: Vec<Vec<u16>>,
) -> Option<()> {
    let plan = Feasible::check(instance, routes).ok()?;
    let reply = match book.offer(0, plan) {
        Ok(reply) => reply,
        Err((_plan, fault)) => return writeln!(told, "{fault}").ok(),
    };
    match &reply {
        Offered::Better { before } => {
            writeln!(told, "better {}", OrNone(before.map(|cost| cost.get()))).ok()
        }
        Offered::NotBetter { best, .. } => writeln!(told, "not_better {}", best.get()).ok(),
    }
}

/// The prices of a word at the region of a word.
fn priced_by<'i>(
    alloc: Global,
    instance: &'i Instance,
    region: &str,
    prices: &str,
) -> Option<Priced<'i>> {
    let prices = list_of(alloc, prices)?;
    let region = region_of(alloc, instance.customer_count(), region)?;
    priced_at(alloc, instance, region, 1, prices.as_slice())
}

/// The prices of a word at the region of a word, with that of a set if there is one.
fn paid_by<'i>(alloc: Global, instance: &'i Instance, words: &[&str]) -> Option<Priced<'i>> {
    match words {
        [region, prices] => priced_by(alloc, instance, region, prices),
        [region, prices, members, paid] => {
            let set = set_of(alloc, members, paid)?;
            paid_at(alloc, &priced_by(alloc, instance, region, prices)?, &[set])
        }
        _ => None,
    }
}

/// Gives a leaf prices at a region, with that of a set if there is one, and tells what comes of it.
fn reprice<'i>(
    alloc: Global,
    told: &mut String,
    book: &mut Book<'i>,
    instance: &'i Instance,
    words: &[&str],
) -> Option<()> {
    let [leaf, words @ ..] = words else {
        return None;
    };
    let leaf = leaf.parse().ok()?;
    let priced = paid_by(alloc, instance, words)?;
    match book.reprice(0, leaf, priced) {
        Ok(()) => writeln!(told, "raised").ok(),
        Err((_priced, fault)) => writeln!(told, "{fault}").ok(),
    }
}

/// The prices of a word at both children of the region of a word.
fn children_by<'i>(
    alloc: Global,
    instance: &'i Instance,
    arc: Arc,
    region: &str,
    prices: &str,
) -> Option<(Priced<'i>, Priced<'i>)> {
    let prices = list_of(alloc, prices)?;
    let region = region_of(alloc, instance.customer_count(), region)?;
    children_at(alloc, instance, &region, 1, arc, prices.as_slice())
}

/// Splits a leaf at the book, and answers the numbers of its children or the fault.
fn split_by<'i>(
    book: &mut Book<'i>,
    leaf: u32,
    arc: Arc,
    (used, unused): (Priced<'i>, Priced<'i>),
) -> Result<(u32, u32), BookFault> {
    match book.split(0, leaf, arc, used, unused) {
        Ok(numbers) => Ok(numbers),
        Err((_used, _unused, fault)) => Err(fault),
    }
}

/// Splits a leaf by an arc, with prices at both children of a region, and tells their numbers or the fault.
fn split<'i>(
    alloc: Global,
    told: &mut String,
    book: &mut Book<'i>,
    instance: &'i Instance,
    words: &[&str],
) -> Option<()> {
    let [leaf, arc, region, prices] = words else {
        return None;
    };
    let (from, to) = pair_of(arc)?;
    let (leaf, arc) = (leaf.parse().ok()?, Arc { from, to });
    let children = children_by(alloc, instance, arc, region, prices)?;
    match split_by(book, leaf, arc, children) {
        Ok((used, unused)) => writeln!(told, "leaves {used} {unused}").ok(),
        Err(fault) => writeln!(told, "{fault}").ok(),
    }
}

/// Tells the value of a leaf, if there is such a leaf.
fn tell_value(told: &mut String, book: &Book<'_>, words: &[&str]) -> Option<()> {
    let [leaf] = words else {
        return None;
    };
    let leaf = book.leaf(leaf.parse().ok()?);
    writeln!(told, "value {}", OrNone(leaf.map(|leaf| leaf.value()))).ok()
}

/// The least cost and the bound of a book in tenths, and how many events its history has.
fn numbers_of(book: &Book<'_>) -> (Option<u64>, u64, usize) {
    let gap = book.gap();
    let cost = gap.cost.map(|cost| cost.get());
    (cost, gap.bound.get(), book.history().len())
}

/// Tells the least cost and the bound of a book, and how many events its history has.
fn tell_gap(told: &mut String, book: &Book<'_>) -> Option<()> {
    let (cost, bound, events) = numbers_of(book);
    let cost = OrNone(cost);
    writeln!(told, "cost {cost} bound {bound} events {events}").ok()
}

/// Takes a step at a book, and tells what comes of it.
fn tell_step<'i>(
    alloc: Global,
    told: &mut String,
    book: &mut Book<'i>,
    (instance, earlier): (&'i Instance, Option<&'i Instance>),
    parts: &[&str],
) -> Option<()> {
    let (call, words) = parts.split_first()?;
    match *call {
        "offer" => offer(told, book, instance, routes_of(alloc, words)?),
        "foreign" => offer(told, book, earlier?, routes_of(alloc, words)?),
        "reprice" => reprice(alloc, told, book, instance, words),
        "split" => split(alloc, told, book, instance, words),
        "value" => tell_value(told, book, words),
        "gap" if words.is_empty() => tell_gap(told, book),
        _ => None,
    }
}

/// Takes steps at a book, and tells what comes of each.
fn tell_steps<'i>(
    alloc: Global,
    told: &mut String,
    book: &mut Book<'i>,
    instances: (&'i Instance, Option<&'i Instance>),
    steps: &[&str],
) -> Option<()> {
    for step in steps {
        let parts: Vec<&str> = step.split('/').collect(alloc).ok()?;
        tell_step(alloc, told, book, instances, parts.as_slice())?;
    }
    Some(())
}

/// Tells a node of a tree: the arc by which it is split, or its prices, each set's behind its number.
fn tell_node(told: &mut String, node: &TreeNode) -> Option<()> {
    let prices = match node {
        TreeNode::Split(arc) => return writeln!(told, "split {},{}", arc.from, arc.to).ok(),
        TreeNode::Leaf(prices) => prices,
    };
    write!(told, "leaf{}", List(prices.customers.as_slice())).ok()?;
    for paid in &prices.sets {
        write!(told, " {}:{}", paid.set, paid.price).ok()?;
    }
    writeln!(told).ok()
}

/// Tells the nodes of the tree of a finished book.
fn tell_nodes(alloc: Global, told: &mut String, left: &Outcome<'_>) -> Option<()> {
    for node in &left.nodes(alloc).ok()? {
        tell_node(told, node)?;
    }
    Some(())
}

/// Tells the sets that a finished book lists, and the nodes of its tree.
fn tell_left(alloc: Global, told: &mut String, left: &Outcome<'_>) -> Option<()> {
    for set in left.sets() {
        let members = List(set.members.as_slice());
        writeln!(told, "set{members} need {}", set.need).ok()?;
    }
    tell_nodes(alloc, told, left)
}

/// Prices of 0 at a region.
fn free_at<'i>(alloc: Global, instance: &'i Instance, region: &str) -> Option<Priced<'i>> {
    let size = instance.customer_count();
    let prices = vec![in alloc; 0; usize::from(size)].ok()?;
    let region = region_of(alloc, size, region)?;
    priced_at(alloc, instance, region, 1, prices.as_slice())
}

/// A book of prices, with limits; the fault is told where there is none.
fn opened<'i>(
    alloc: Global,
    told: &mut String,
    priced: Priced<'i>,
    limits: Limits,
    sets: Option<u32>,
) -> Option<Option<Book<'i>>> {
    let opened = match sets {
        None => Book::with_limits(alloc, priced, limits),
        Some(sets) => Book::with_sets(alloc, priced, limits, sets),
    };
    match opened {
        Ok(book) => Some(Some(book)),
        Err((_priced, fault)) => {
            writeln!(told, "{fault}").ok()?;
            Some(None)
        }
    }
}

/// Opens a book of prices of 0 at a region, with limits, and tells what comes of it and of each step, and where sets
/// may have prices what the book leaves.
pub(crate) fn tell_book<'i>(
    alloc: Global,
    told: &mut String,
    instances: (&'i Instance, Option<&'i Instance>),
    [limits, region]: [&str; 2],
    steps: &[&str],
) -> Option<()> {
    let (limits, sets) = limits_of(alloc, limits)?;
    let priced = free_at(alloc, instances.0, region)?;
    let Some(mut book) = opened(alloc, told, priced, limits, sets)? else {
        return Some(());
    };
    writeln!(told, "opened").ok()?;
    tell_steps(alloc, told, &mut book, instances, steps)?;
    match sets {
        Some(_) => tell_left(alloc, told, &book.finish()),
        None => Some(()),
    }
}
