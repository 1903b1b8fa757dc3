//! Stops and lists, joined in trees.

use crate::few::Few;
use crate::words::OrNone;
use segments::{Linked, RouteTree, Segment};
use solomon_reader::Instance;
use std::alloc::Global;

/// Tells the numbers of a join, if there is one.
fn tell_join(told: &mut String, join: Option<&Segment>) -> Option<()> {
    let Some(join) = join else {
        return writeln!(told, "none").ok();
    };
    let (latest, duration, earliest) = (join.latest(), join.duration(), join.earliest());
    let (load, cost) = (join.load(), join.cost());
    write!(
        told,
        "latest {latest} duration {duration} earliest {earliest}"
    )
    .ok()?;
    writeln!(told, " load {load} cost {cost}").ok()
}

/// Tells the joins of customers 1 and 2, alone and by a tree into which the first was put later, and who is last
/// in that.
pub(crate) fn tell_joins(alloc: Global, told: &mut String, instance: &Instance) -> Option<()> {
    if instance.customer_count() != 2 {
        return None;
    }
    let (first, second) = (Segment::stop(instance, 1), Segment::stop(instance, 2));
    tell_join(told, Segment::join(instance, &first, &second).as_ref())?;
    let mut tree = RouteTree::new(alloc, instance, vec![in alloc; second].ok()?).ok()?;
    tree.splice(instance, 0, 0, &[first]).ok()?;
    if tree.len() != 2 {
        return None;
    }
    tell_join(told, tree.whole())?;
    let last = tree.span(instance, 1, 2).map(|stop| stop.first());
    writeln!(told, "last {}", OrNone(last)).ok()
}

/// Tells how many numbers eight joined lists of one number have, and how many nine, and their last eight.
pub(crate) fn tell_lists(alloc: Global, told: &mut String) -> Option<()> {
    let mut items = Vec::new(alloc);
    for number in 0..8 {
        items.push(Few::one(number)).ok()?;
    }
    let mut tree = RouteTree::new(alloc, &(), items).ok()?;
    if tree.len() != 8 {
        return None;
    }
    let eight = tree.whole().map(|list| list.len());
    tree.splice(&(), 3, 3, &[Few::one(9)]).ok()?;
    if tree.len() != 9 {
        return None;
    }
    let nine = tree.whole().map(|list| list.len());
    let last = tree.span(&(), 1, 9).map(|list| list.len());
    write!(told, "eight {} nine {} ", OrNone(eight), OrNone(nine)).ok()?;
    writeln!(told, "last {}", OrNone(last)).ok()
}
