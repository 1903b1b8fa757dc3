//! Calls of a book that has no room for a further event without a growth, nor, where a leaf is split, for
//! its children: two customers in a line, which one vehicle can serve.

use crate::starts::{Host, made, tell_ready};
use branching::{Arc, Region};
use incumbent_book::{Book, BookFault, Limits, Offered};
use prices::Priced;
use schedule::Feasible;
use solomon_reader::Instance;
use std::alloc::Global;
use std::fmt::Display;
use std::{fmt, io};
use test_starts::{book_of, children_at, plan_at, priced_at};

/// How many events a book has room for at first.
const FIRST_ROOM: usize = 16;

/// The arc from the first customer to the second.
const ONWARD: Arc = Arc { from: 1, to: 2 };

/// The arc from the second customer to the first.
const BACK: Arc = Arc { from: 2, to: 1 };

/// The leaf at which the first of both is forbidden, once the root is split by it.
const APART: u32 = 2;

/// What a book is given: a plan, prices for the root, or prices for both children of a leaf.
#[derive(Drop)]
enum Given<'i> {
    Plan(Feasible<'i>),
    Root(Priced<'i>),
    Children(Priced<'i>, Priced<'i>),
}

/// Prices for both children of the leaf at which the first arc is forbidden.
fn children_apart(alloc: Global, instance: &Instance) -> Option<Given<'_>> {
    let apart = Region::root(alloc, 2).forbidden(ONWARD).ok()?;
    let (used, unused) = children_at(alloc, instance, &apart, 1, BACK, &[0; 2])?;
    Some(Given::Children(used, unused))
}

/// What the call of a name gives a book; prices are for one neighbour.
fn given_of<'i>(alloc: Global, instance: &'i Instance, name: &str) -> Option<Given<'i>> {
    match name {
        "offer" => plan_at(alloc, instance, &[&[1, 2]]).map(Given::Plan),
        "reprice" => {
            let root = Region::root(alloc, 2);
            priced_at(alloc, instance, root, 1, &[100_000; 2]).map(Given::Root)
        }
        _ => children_apart(alloc, instance),
    }
}

/// Splits the root of a book by the first arc.
fn split_root<'i>(alloc: Global, instance: &'i Instance, book: &mut Book<'i>) -> Option<()> {
    let root = Region::root(alloc, 2);
    let (used, unused) = children_at(alloc, instance, &root, 1, ONWARD, &[0; 2])?;
    book.split(0, 0, ONWARD, used, unused).ok().map(|_| ())
}

/// Offers a book a route for each customer, until its room is full.
fn fill<'i>(alloc: Global, instance: &'i Instance, book: &mut Book<'i>) -> Option<()> {
    for _ in book.history().len()..FIRST_ROOM {
        let plan = plan_at(alloc, instance, &[&[1], &[2]])?;
        book.offer(0, plan).ok()?;
    }
    Some(())
}

/// A book whose room is full of offers of a route for each customer. The call `split` finds its root split.
fn book_for<'i>(alloc: Global, instance: &'i Instance, name: &str) -> Option<Book<'i>> {
    let mut book = book_of(alloc, instance, 1, Limits::MOST)?;
    if name == "split" {
        split_root(alloc, instance, &mut book)?;
    }
    fill(alloc, instance, &mut book)?;
    Some(book)
}

/// What came of a call: its answer, or the fault and what it gave back.
#[derive(Drop)]
enum Came<'i> {
    Offered(Offered<'i>),
    Repriced,
    Split(u32, u32),
    Refused(BookFault, Given<'i>),
}

impl<'i> Came<'i> {
    /// What the call gave back, or else other such values.
    fn back_or(self, other: Given<'i>) -> Given<'i> {
        match self {
            Came::Refused(_fault, back) => back,
            _ => other,
        }
    }
}

/// Prices that came back, with their value.
#[derive(Clone, Copy)]
struct Back<'a, 'i>(&'a Priced<'i>);

impl Display for Back<'_, '_> {
    fn fmt<W: fmt::Write>(&self, f: &mut fmt::Formatter<W>) -> fmt::Result {
        write!(f, "back {} {:?}", self.0.value(), self.0.prices())
    }
}

impl Display for Given<'_> {
    fn fmt<W: fmt::Write>(&self, f: &mut fmt::Formatter<W>) -> fmt::Result {
        match self {
            Given::Plan(plan) => write!(f, "back {} {:?}", plan.cost().get(), plan.routes()),
            Given::Root(priced) => write!(f, "{}", Back(priced)),
            Given::Children(used, unused) => write!(f, "{} {}", Back(used), Back(unused)),
        }
    }
}

impl Display for Came<'_> {
    fn fmt<W: fmt::Write>(&self, f: &mut fmt::Formatter<W>) -> fmt::Result {
        match self {
            Came::Offered(Offered::Better { before }) => {
                write!(f, "Better {}", before.map_or(0, |cost| cost.get()))
            }
            Came::Offered(Offered::NotBetter { best, plan }) => {
                write!(f, "NotBetter {} {:?}", best.get(), plan.routes())
            }
            Came::Repriced => write!(f, "Ok"),
            Came::Split(used, unused) => write!(f, "Ok {used} {unused}"),
            Came::Refused(fault, given) => write!(f, "{fault} {given}"),
        }
    }
}

/// Offers a book a plan.
fn offer<'i>(book: &mut Book<'i>, plan: Feasible<'i>) -> Came<'i> {
    match book.offer(0, plan) {
        Ok(reply) => Came::Offered(reply),
        Err((plan, fault)) => Came::Refused(fault, Given::Plan(plan)),
    }
}

/// Gives the root of a book new prices.
fn reprice<'i>(book: &mut Book<'i>, priced: Priced<'i>) -> Came<'i> {
    match book.reprice(0, 0, priced) {
        Ok(()) => Came::Repriced,
        Err((priced, fault)) => Came::Refused(fault, Given::Root(priced)),
    }
}

/// Splits a leaf of a book.
fn split<'i>(book: &mut Book<'i>, used: Priced<'i>, unused: Priced<'i>) -> Came<'i> {
    match book.split(0, APART, BACK, used, unused) {
        Ok((used, unused)) => Came::Split(used, unused),
        Err((used, unused, fault)) => Came::Refused(fault, Given::Children(used, unused)),
    }
}

/// Gives a book what its call takes.
fn give<'i>(book: &mut Book<'i>, given: Given<'i>) -> Came<'i> {
    match given {
        Given::Plan(plan) => offer(book, plan),
        Given::Root(priced) => reprice(book, priced),
        Given::Children(used, unused) => split(book, used, unused),
    }
}

/// Prints what came of a call, and how many events a book has, its best cost and its bound.
fn tell_came<R: Host>(rt: &R, came: &Came<'_>, book: &Book<'_>) -> io::Result<()> {
    let (events, gap) = (book.history().len(), book.gap());
    let (cost, bound) = (gap.cost.map_or(0, |cost| cost.get()), gap.bound.get());
    println!(rt; "{came} events {events} cost {cost} bound {bound}")
}

/// Makes a call twice, and prints what came of it: once more with what came back, or else with other such values.
fn tell_both<'i, R: Host>(
    rt: &R,
    book: &mut Book<'i>,
    given: Given<'i>,
    other: Given<'i>,
) -> io::Result<()> {
    let came = give(book, given);
    tell_came(rt, &came, book)?;
    let again = give(book, came.back_or(other));
    tell_came(rt, &again, book)
}

/// Makes the call of a name twice on a book.
fn tell_gifts<'i, R: Host>(
    rt: &R,
    instance: &'i Instance,
    name: &str,
    book: &mut Book<'i>,
) -> io::Result<()> {
    let given = made(given_of(rt.alloc(), instance, name))?;
    let other = made(given_of(rt.alloc(), instance, name))?;
    tell_ready(rt)?;
    tell_both(rt, book, given, other)
}

/// Makes the call of a name twice on a book whose room is full: once more with what came back, or else with
/// other such values.
pub(crate) fn tell_given<R: Host>(rt: &R, instance: &Instance, name: &str) -> io::Result<()> {
    let mut book = made(book_for(rt.alloc(), instance, name))?;
    tell_gifts(rt, instance, name, &mut book)
}
