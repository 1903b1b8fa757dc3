//! A deque from which two threads steal while a third pops.

ghost use Rattle.std.specs.Prelude.{◌≡◌, IfOk};
ghost use Rattle.node_pool.specs.Deques.{FitsAt};
ghost use Rattle.node_pool.specs.Ends.{deque_at, deque_of};

use crate::ends::ends;
use node_pool::{Hand, Pass, PoolFault, Stolen, Thief};
use std::alloc::Global;
use std::sync::Wait;
use std::test::Fail;
use std::thread;
use std::thread::Threads;

/// How often a thread tries to steal.
const TRIES: u32 = 1_000_000;

/// Tries until a number is stolen, or too often.
fn steal_one(thief: &Thief, mut pass: Pass) -> (Pass, Option<u32>)
    requires { FitsAt (deque_at thief.now) pass }
    ensures { FitsAt (deque_at thief.now) result.0 }
{
    for _ in 0..TRIES {
        match thief.steal(&mut pass) {
            Stolen::One(number) => return (pass, Some(number)),
            Stolen::Empty | Stolen::Again => thread::yield_now(),
        }
    }
    (pass, None)
}

/// Two threads steal a number each.
fn steal_two<R: Threads + Wait + Sync>(
    rt: &R,
    thief: &Thief,
    first: Pass,
    second: Pass,
) -> ((Pass, Option<u32>), (Pass, Option<u32>))
    requires first { FitsAt (deque_at thief.now) first }
    requires second { FitsAt (deque_at thief.now) second }
    ensures first { FitsAt (deque_at thief.now) result.0.0 }
    ensures second { FitsAt (deque_at thief.now) result.1.0 }
{
    thread::join(
        rt,
        move ||
            requires { FitsAt (deque_at thief.now) first }
            ensures { FitsAt (deque_at thief.entry.now) result.0 }
        { steal_one(thief, first) },
        move ||
            requires { FitsAt (deque_at thief.now) second }
            ensures { FitsAt (deque_at thief.entry.now) result.0 }
        { steal_one(thief, second) },
    )
}

/// One thread pops a number while two steal a number each.
fn take_three<R: Threads + Wait + Sync>(
    rt: &R,
    hand: Hand,
    thief: &Thief,
    first: Pass,
    second: Pass,
) -> (
    (Hand, Option<u32>),
    ((Pass, Option<u32>), (Pass, Option<u32>)),
)
    requires first { FitsAt (deque_at thief.now) first }
    requires second { FitsAt (deque_at thief.now) second }
    ensures hand { deque_of result.0.0 ≡ deque_of hand }
    ensures first { FitsAt (deque_at thief.now) result.1.0.0 }
    ensures second { FitsAt (deque_at thief.now) result.1.1.0 }
{
    thread::join(
        rt,
        move ||
            ensures { deque_of result.0 ≡ deque_of hand }
        {
            let mut hand = hand;
            let popped = hand.pop();
            (hand, popped)
        },
        move ||
            requires first { FitsAt (deque_at thief.now) first }
            requires second { FitsAt (deque_at thief.now) second }
            ensures first { FitsAt (deque_at thief.entry.now) result.0.0 }
            ensures second { FitsAt (deque_at thief.entry.now) result.1.0 }
        { steal_two(rt, thief, first, second) },
    )
}

/// What the audit says that stands, which needs the passes.
fn stands_with(alloc: Global, hand: Hand, first: Pass, second: Pass) -> Result<Vec<u32>, Fail>
    requires first { FitsAt (deque_of hand) first }
    requires second { FitsAt (deque_of hand) second }
{
    let Err((hand, PoolFault::MissingPass)) = hand.audit(alloc, &mut []) else {
        return Err(Fail::from("audited with no pass"));
    };
    match hand.audit(alloc, &mut [first, second]) {
        Ok(stands) => Ok(stands),
        Err(_) => Err(Fail::from("no audit with both passes")),
    }
}

/// Pushes 7, 8 and 9, and is refused 10.
fn is_filled(hand: &mut Hand) -> bool
    ensures { deque_of hand.new ≡ deque_of hand.old }
{
    let pushed = [hand.push(7), hand.push(8), hand.push(9)];
    pushed == [Ok(()), Ok(()), Ok(())] && hand.push(10) == Err((10, PoolFault::Full))
}

/// Whether all numbers are gone, for the hand, the thief and the audit, and none can be pushed.
fn is_done(
    alloc: Global,
    mut hand: Hand,
    thief: &Thief,
    mut first: Pass,
    second: Pass,
) -> Result<bool, Fail>
    requires thief { deque_at thief.now ≡ deque_of hand }
    requires first { FitsAt (deque_at thief.now) first }
    requires second { FitsAt (deque_at thief.now) second }
{
    let is_empty = hand.pop().is_none() && thief.steal(&mut first) == Stolen::Empty;
    let is_full = hand.push(11) == Err((11, PoolFault::Full));
    let stands = stands_with(alloc, hand, first, second)?;
    Ok(is_empty && is_full && stands.is_empty())
}

#[test]
fn each_number_is_taken_once(rt: HostRuntime) -> Result<(), Fail> {
    let (mut hand, thief, first, second) = ends(rt.alloc())?;
    let is_filled = is_filled(&mut hand);
    let ((hand, popped), ((first, one), (second, other))) = take_three(
        &rt, hand, &thief, first, second,
    );
    let mut taken = [popped, one, other];
    taken.sort_unstable();
    let is_done = is_done(rt.alloc(), hand, &thief, first, second)?;
    assert!(rt; is_filled && is_done && taken == [Some(7), Some(8), Some(9)]);
    Ok(())
}

#[test]
fn what_stands_is_audited(rt: HostRuntime) -> Result<(), Fail> {
    let (mut hand, thief, mut first, second) = ends(rt.alloc())?;
    let is_filled = is_filled(&mut hand);
    let stolen = thief.steal(&mut first);
    let stands = stands_with(rt.alloc(), hand, first, second)?;
    assert!(rt; is_filled && stolen == Stolen::One(7) && stands.as_slice() == [8, 9].as_slice());
    Ok(())
}
