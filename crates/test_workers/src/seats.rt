//! Two seats move the words of a ceiling, each from a thread of its own.

ghost use Rattle.std.specs.Prelude.{IfOk};
ghost use Rattle.ceiling.specs.Seats.{IsSeatOf};

use ceiling::{Ceiling, CeilingFault, CeilingSeat};
use std::alloc::Global;
use std::test::Fail;
use std::thread::{Threads, join};

/// A ceiling of 1001 above 0, and its two seats.
fn opened(alloc: Global) -> Result<(Ceiling, CeilingSeat, CeilingSeat), Fail>
    ensures first { IfOk result (λ r. IsSeatOf r.0 r.1) }
    ensures second { IfOk result (λ r. IsSeatOf r.0 r.2) }
{
    let (ceiling, mut seats) = Ceiling::new(alloc, 2, 1001, 0)?;
    let second = seats.pop().ok_or("two seats")?;
    let first = seats.pop().ok_or("a seat")?;
    Ok((ceiling, first, second))
}

/// One seat offers 500 while the other offers 450: what each is answered, and the seats.
fn offer_both<R: Threads + Sync>(
    rt: &R,
    ceiling: &Ceiling,
    first: CeilingSeat,
    second: CeilingSeat,
) -> ((u64, CeilingSeat), (u64, CeilingSeat))
    requires first { IsSeatOf ceiling.now first }
    requires second { IsSeatOf ceiling.now second }
    ensures first { IsSeatOf ceiling.now result.0.1 }
    ensures second { IsSeatOf ceiling.now result.1.1 }
{
    join(
        rt,
        || -> (u64, CeilingSeat)
            requires { IsSeatOf ceiling.now first }
            ensures { IsSeatOf ceiling.entry.now result.1 }
        {
            let mut seat = first;
            (ceiling.offer(&mut seat, 500), seat)
        },
        || -> (u64, CeilingSeat)
            requires { IsSeatOf ceiling.now second }
            ensures { IsSeatOf ceiling.entry.now result.1 }
        {
            let mut seat = second;
            (ceiling.offer(&mut seat, 450), seat)
        },
    )
}

#[test]
fn both_seats_are_told_cost_and_bound(rt: HostRuntime) -> Result<(), Fail> {
    let (ceiling, first, second) = opened(rt.alloc())?;
    let ((one, mut first), (other, mut second)) = offer_both(&rt, &ceiling, first, second);
    let costs = (ceiling.offer(&mut second, 440), ceiling.cost(&mut first));
    let bounds = [
        ceiling.floor(&mut second),
        ceiling.raise(&mut first, 30),
        ceiling.raise(&mut first, 20),
        ceiling.floor(&mut second),
    ];
    let mut seats = Vec::new(rt.alloc());
    seats.push(first)?;
    let Err((ceiling, mut seats, CeilingFault::MissingSeat)) = ceiling.close(seats) else {
        return Err(Fail::from("closed with one seat"));
    };
    seats.push(second)?;
    let closed = ceiling.close(seats).ok();
    assert!(rt; (one == 500 || one == 450) && other == 450);
    assert!(rt; costs == (440, 440) && bounds == [0, 30, 30, 30] && closed == Some((440, 30)));
    Ok(())
}
