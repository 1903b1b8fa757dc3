//! Calls at a desk: one share makes them, and another asks what came of them.

ghost use Rattle.std.specs.Prelude.{◌≡◌};
ghost use Rattle.incumbent_book.specs.Reaching.{IsReached};
ghost use Rattle.desk.specs.Opening.{WasOffered};
ghost use Rattle.desk.specs.Tally.{each};
ghost use Rattle.desk.specs.Blanks.{names_of, parts_of};

use crate::offers::{ONWARD, work};
use branching::Region;
use desk::{Blanks, Desk, DeskFault, Naming, Share};
use incumbent_book::{Book, Gap, Limits, Outcome, Steps};
use solomon_reader::{Instance, read};
use std::alloc::Global;
use std::marker::Brand;
use std::process::Abort;
use std::sync::Wait;
use std::test::Fail;
use std::thread;
use std::thread::Threads;
use tenths::Tenths;
use test_starts::{DEPOT, IN_LINE, book_of, children_at, instance_text};

/// The first share's calls in a thread, and then the second's question in another.
fn both<'i, J: Naming + Send, R: Abort + Threads + Wait + Sync + AllocGlobal>(
    rt: &R,
    desk: &Desk<'i, J>,
    first: Share<J>,
    second: Share<J>,
    instance: &'i Instance,
) -> Option<(Gap, Share<J>, Share<J>)> {
    thread::scope(thread::scope_env(), rt, |scope| {
        let worker = scope.spawn(move || work(rt, desk, first, instance)).ok()?;
        let first = worker.join(rt);
        let worker = scope.spawn(move || {
            let mut share = second;
            (desk.gap(rt, &mut share), share)
        });
        let (gap, second) = worker.ok()?.join(rt);
        Some((gap, first, second))
    })
}

/// Two customers in a line, which one vehicle can serve, and two vehicles.
fn instance_of(alloc: Global) -> Result<Instance, Fail> {
    let text = instance_text(alloc, 2, 2, DEPOT, IN_LINE)?;
    Ok(read(alloc, text.as_bytes())?)
}

/// The gap told at a desk of two shares, and what closing leaves. With one share it isn't closed.
fn run<'i, J: Naming + Send, R: Abort + Threads + Wait + Sync + AllocGlobal>(
    rt: &R,
    instance: &'i Instance,
    book: Book<'i>,
    blanks: Blanks,
) -> Result<(Gap, Outcome<'i>), Fail>
    requires problem { book.problem ≡ J.problem }
    requires neighbours { book.neighbours ≡ J.neighbours }
    requires sets { book.most_sets ≡ J.sets }
    requires rows { book.most_rows ≡ J.rows }
    requires offered { WasOffered J.opening_cost book.past }
    requires reached { IsReached J.opening_bound book }
    requires workers { J.workers ≡ 2 }
    requires names { names_of blanks ≡ J.names }
    requires parts { parts_of blanks ≡ each J.workers }
{
    let Ok((desk, mut shares)) = Desk::<J>::open(rt.alloc(), book, 2, blanks) else {
        return Err(Fail::from("no desk"));
    };
    let second = shares.pop().expect(rt, "two shares");
    let first = shares.pop().expect(rt, "two shares");
    let (gap, first, second) = both(rt, &desk, first, second, instance).ok_or("no thread")?;
    shares.push(first)?;
    let Err((desk, mut shares, DeskFault::MissingShare)) = desk.close(shares) else {
        return Err(Fail::from("closed with a share left out"));
    };
    shares.push(second)?;
    match desk.close(shares) {
        Ok(outcome) => Ok((gap, outcome)),
        Err(_) => Err(Fail::from("not closed with both shares")),
    }
}

#[tactic(auto, using(incumbent_book::proofs::Reached::nothing_reached))]
#[test]
fn a_second_share_is_told_what_the_first_did(rt: HostRuntime) -> Result<(), Fail> {
    let instance = instance_of(rt.alloc())?;
    let book = book_of(rt.alloc(), &instance, 1, Limits::MOST).ok_or("no book")?;
    let (gap, outcome) = run::<Brand, _>(&rt, &instance, book, Blanks::new(2))?;
    let of_plan = Tenths::from(200);
    let bounds = [gap.bound, outcome.bound()];
    assert!(rt; gap.cost == Some(of_plan) && bounds == [of_plan; 2]);
    assert_eq!(rt; outcome.history().len(), 6);
    let nodes = outcome.nodes(rt.alloc())?;
    let tree = format!(in rt.alloc(); "{nodes:?}")?;
    assert_eq!(rt;
        tree.as_str(),
        "[Split(Arc { from: 1, to: 2 }), Leaf(LeafPrices { customers: [0, 0], sets: [], rows: [] }), Leaf(LeafPrices { customers: [100000, 100000], sets: [], rows: [] })]"
    );
    Ok(())
}

#[test]
fn the_bound_is_found_at_once_however_many_leaves_stand(rt: HostRuntime) -> Result<(), Fail> {
    let instance = instance_of(rt.alloc())?;
    let mut book = book_of(rt.alloc(), &instance, 1, Limits::MOST).ok_or("no book")?;
    let root = Region::root(rt.alloc(), 2);
    let children = children_at(rt.alloc(), &instance, &root, 1, ONWARD, &[0, 0]);
    let (used, unused) = children.ok_or("no prices")?;
    let is_split = book.split(0, 0, ONWARD, used, unused).is_ok();
    let mut steps = Steps::new();
    let bound = book.gap_counted(&mut steps).bound.get();
    assert_eq!(rt; (is_split, steps.get(), bound), (true, 1, 100));
    Ok(())
}
