//! Plans, prices and books that rows start from.

ghost use Rattle.std.specs.Prelude.{IsTrue};
ghost use Rattle.std.specs.List.{AllByRecursion};
ghost use Rattle.priced_sets.specs.Sets.{IsWithin};

use branching::{Arc, Region};
use incumbent_book::{Book, Limits};
use labelling::{Hints, Kept};
use priced_sets::{NeededSets, PricedSet, PricedSets};
use prices::Priced;
use schedule::Feasible;
use solomon_reader::{Instance, MOST_NEIGHBOURS, MOST_PRICE};
use std::alloc::Global;

/// The plan of these routes, if they are one and memory suffices.
/// No contract: the rows show the plan, by what becomes of it.
pub fn plan_at<'i>(
    alloc: Global,
    instance: &'i Instance,
    routes: &[&[u16]],
) -> Option<Feasible<'i>> {
    let mut lists = Vec::new(alloc);
    for route in routes {
        lists.push(Vec::from_slice(alloc, route).ok()?).ok()?;
    }
    match Feasible::check(instance, lists) {
        Ok(plan) => Some(plan),
        Err((_lists, _fault)) => None,
    }
}

/// These prices at a region, if they are the customers' and memory suffices.
/// No contract: the rows show the prices, by what becomes of them.
pub fn priced_at<'i>(
    alloc: Global,
    instance: &'i Instance,
    region: Region,
    neighbours: u32,
    prices: &[i64],
) -> Option<Priced<'i>> {
    let count = instance.customer_count();
    let fit = region.size() == count && prices.len() == usize::from(count);
    if !fit || neighbours > MOST_NEIGHBOURS {
        return None;
    }
    let prices = Vec::from_slice(alloc, prices).ok()?;
    match Priced::of(alloc, instance, region, neighbours, prices, None) {
        Ok(priced) => Some(priced),
        Err((_region, _prices, _fault)) => None,
    }
}

/// Whether each customer's price is in its range beside those of sets.
fn are_within(prices: &[i64], sets: &PricedSets<'_>) -> bool
    ensures { IsTrue result → AllByRecursion (IsWithin sets.now.sets) prices.now }
{
    let most = MOST_PRICE - sets.sum();
    for price in prices {
        if price.unsigned_abs() > most {
            return false;
        }
    }
    true
}

/// The same prices with those of some sets beside them, if they fit and memory suffices. A set that doesn't need as many
/// entries as it says gets none.
/// No contract: the rows show the prices, by what becomes of them.
pub fn paid_at<'i>(alloc: Global, priced: &Priced<'i>, sets: &[PricedSet]) -> Option<Priced<'i>> {
    let instance = priced.instance();
    let mut needed = NeededSets::new(alloc, instance).ok()?;
    let sets = PricedSets::of(alloc, instance, &mut needed, sets).ok()?;
    let prices = priced.prices().to_vec(alloc).ok()?;
    if !are_within(prices.as_slice(), &sets) {
        return None;
    }
    let task = priced.task().with(prices, sets).ok()?;
    let (hints, mut kept) = (Hints::none(alloc), Kept::nothing(alloc));
    match Priced::by_hints(alloc, task, None, &hints, &mut kept) {
        Ok(paid) => Some(paid),
        Err((_task, _fault)) => None,
    }
}

/// These prices at both children of a region by an arc: where it is used, and where it is forbidden.
/// No contract: the rows show the prices, by what becomes of them.
pub fn children_at<'i>(
    alloc: Global,
    instance: &'i Instance,
    region: &Region,
    neighbours: u32,
    arc: Arc,
    prices: &[i64],
) -> Option<(Priced<'i>, Priced<'i>)> {
    let used = region.used(arc).ok()?;
    let used = priced_at(alloc, instance, used, neighbours, prices)?;
    let unused = region.forbidden(arc).ok()?;
    let unused = priced_at(alloc, instance, unused, neighbours, prices)?;
    Some((used, unused))
}

/// A book of the root at prices of 0.
/// No contract: the rows show the book, by what becomes of it.
pub fn book_of<'i>(
    alloc: Global,
    instance: &'i Instance,
    neighbours: u32,
    limits: Limits,
) -> Option<Book<'i>> {
    if neighbours > MOST_NEIGHBOURS {
        return None;
    }
    let root = Priced::root(alloc, instance, neighbours, None, &Hints::none(alloc)).ok()?;
    match Book::with_limits(alloc, root, limits) {
        Ok(book) => Some(book),
        Err((_root, _fault)) => None,
    }
}
