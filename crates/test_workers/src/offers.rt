//! Offers, new prices and splits at a desk.

use branching::{Arc, Region};
use desk::{Desk, LookFault, Naming, Share};
use incumbent_book::{BookFault, Offered};
use solomon_reader::Instance;
use std::process::Abort;
use std::sync::Wait;
use tenths::Tenths;
use test_starts::{children_at, plan_at, priced_at};

/// The arc from the first customer to the second.
pub(crate) const ONWARD: Arc = Arc { from: 1, to: 2 };

/// The arc from the second customer to the first.
const BACK: Arc = Arc { from: 2, to: 1 };

/// Plans that are offered in turn, of 300, 200, 300 and 200 tenths: the routes, whether the plan is better, and the
/// best cost that is known before.
const OFFERED: [(&[&[u16]], bool, Option<u32>); 4] = [
    (&[&[1], &[2]], true, None),
    (&[&[1, 2]], true, Some(300)),
    (&[&[1], &[2]], false, Some(200)),
    (&[&[1, 2]], false, Some(200)),
];

/// New prices that are given in turn once the root is split: the leaf, the node whose region they are for, the
/// prices, and what comes of it.
const REPRICED: [(u32, u32, [i64; 2], Result<(), BookFault>); 4] = [
    (2, 2, [100_000, 100_000], Ok(())),
    (2, 2, [100_000, 100_000], Err(BookFault::NotHigher)),
    (1, 0, [200_000, 0], Err(BookFault::WrongRegion)),
    (1, 1, [200_000, 0], Err(BookFault::NotHigher)),
];

/// A worker at a desk over a book of an instance, with its share.
#[derive(Drop)]
struct DeskWorker<'a, 'i, R, J: Naming> {
    rt: &'a R,
    instance: &'i Instance,
    desk: &'a Desk<'i, J>,
    share: Share<J>,
}

/// Offers a plan: whether it was better, and the best cost that was known.
fn offer<R: Abort + Wait + AllocGlobal, J: Naming>(
    worker: &mut DeskWorker<'_, '_, R, J>,
    routes: &[&[u16]],
) -> Result<(bool, Option<Tenths>), BookFault> {
    let plan = plan_at(worker.rt.alloc(), worker.instance, routes).expect(worker.rt, "a plan");
    let reply = match worker.desk.offer(worker.rt, &mut worker.share, plan) {
        Ok(reply) => reply,
        Err((_, fault)) => return Err(fault),
    };
    match &reply {
        Offered::Better { before } => Ok((true, *before)),
        Offered::NotBetter { best, .. } => Ok((false, Some(*best))),
    }
}

/// The region of the root, or of one of its children: 1 uses the arc, and 2 doesn't.
fn region_of<R: Abort + AllocGlobal>(rt: &R, node: u32) -> Region {
    let root = Region::root(rt.alloc(), 2);
    let region = match node {
        0 => return root,
        1 => root.used(ONWARD),
        _ => root.forbidden(ONWARD),
    };
    region.ok().expect(rt, "a region")
}

/// Gives a leaf new prices at the region of a node: what comes of it.
fn reprice<R: Abort + Wait + AllocGlobal, J: Naming>(
    worker: &mut DeskWorker<'_, '_, R, J>,
    leaf: u32,
    node: u32,
    prices: [i64; 2],
) -> Result<(), BookFault> {
    let (rt, region) = (worker.rt, region_of(worker.rt, node));
    let priced = priced_at(rt.alloc(), worker.instance, region, 1, &prices);
    let priced = priced.expect(rt, "prices");
    match worker.desk.reprice(rt, &mut worker.share, leaf, priced) {
        Ok(()) => Ok(()),
        Err((_, fault)) => Err(fault),
    }
}

/// Splits a leaf, with prices of zero at both children: their numbers, or the fault.
fn split<R: Abort + Wait + AllocGlobal, J: Naming>(
    worker: &mut DeskWorker<'_, '_, R, J>,
    leaf: u32,
    arc: Arc,
) -> Result<(u32, u32), BookFault> {
    let (rt, region) = (worker.rt, region_of(worker.rt, leaf));
    let children = children_at(rt.alloc(), worker.instance, &region, 1, arc, &[0, 0]);
    let (used, unused) = children.expect(rt, "prices");
    match worker
        .desk
        .split(rt, &mut worker.share, leaf, arc, used, unused)
    {
        Ok(made) => Ok(made),
        Err((_, _, fault)) => Err(fault),
    }
}

/// The value of a leaf.
fn value<R: Wait, J: Naming>(
    worker: &mut DeskWorker<'_, '_, R, J>,
    leaf: u32,
) -> Result<i128, LookFault> {
    Ok(
        worker
            .desk
            .look(worker.rt, &mut worker.share, leaf)?
            .value(),
    )
}

/// Splits the root, and is refused to split it again. Gives the child without the arc a higher value, and is
/// refused an equal one and a split to lower ones. For the other child it is refused prices of another
/// region, and as high ones.
fn split_and_reprice<R: Abort + Wait + AllocGlobal, J: Naming>(
    worker: &mut DeskWorker<'_, '_, R, J>,
) {
    let made = (split(worker, 0, ONWARD), split(worker, 0, ONWARD));
    assert_eq!(worker.rt; made, (Ok((1, 2)), Err(BookFault::NotALeaf)));
    let values = (value(worker, 1), value(worker, 2));
    assert_eq!(worker.rt; values, (Ok(200), Ok(100)));
    for (leaf, node, prices, expected) in REPRICED {
        let told = reprice(worker, leaf, node, prices);
        assert_eq!(worker.rt; told, expected);
    }
    let values = (value(worker, 2), value(worker, 0), split(worker, 2, BACK));
    assert_eq!(worker.rt;
        values,
        (Ok(200), Err(LookFault::NotALeaf), Err(BookFault::Lower))
    );
}

/// Offers plans, splits and reprices with a share, which comes back.
pub(crate) fn work<'i, J: Naming, R: Abort + Wait + AllocGlobal>(
    rt: &R,
    desk: &Desk<'i, J>,
    share: Share<J>,
    instance: &'i Instance,
) -> Share<J> {
    let mut worker = DeskWorker {
        rt,
        instance,
        desk,
        share,
    };
    for (routes, is_better, cost) in OFFERED {
        let told = offer(&mut worker, routes);
        assert_eq!(rt; told, Ok((is_better, cost.map(|cost| Tenths::from(cost)))));
    }
    split_and_reprice(&mut worker);
    let DeskWorker { share, .. } = worker;
    share
}
