//! An example of use: a function that plans by the library, and has plan and certificate checked by a crate that finds
//! costs and bounds by code of its own.
#![tactic(auto)]

ghost use Rattle.std.specs.Prelude.{IfSome};
ghost use Rattle.small_fleet.specs.Answers.{Answers};

use checker::{Verdict, check};
use std::sync::Wait;
use std::thread::Threads;
use tenths::MemorySink;
use vrptw::{NoGate, Settings, solve};

/// The check may hold this many pairs of time and cost at once for a leaf.
const STATES: usize = 1_000_000;

/// Solves the instance of a text, and answers what the check says of its plan and its certificate: `Best` or `Gap`,
/// which is true of every plan. Nothing where the text is no instance, where no plan was found, since there is none or
/// the turns ended before one was, and where memory, a thread, the labels or the states didn't suffice.
#[tactic(auto, using(crate::proofs::Judged::judged))]
pub fn solved_and_checked<R: AllocGlobal + Threads + Wait + Sync>(
    rt: &R,
    text: &[u8],
) -> Option<Verdict>
    ensures { IfSome result (Answers text.now) }
{
    let alloc = rt.alloc();
    let settings = Settings::default();
    let mut plan = MemorySink::new(alloc);
    let mut certificate = MemorySink::new(alloc);
    solve(
        rt,
        alloc,
        text,
        &settings,
        &NoGate,
        &mut plan,
        &mut certificate,
    )
    .ok()?;
    let solution = Some(plan.as_slice());
    check(alloc, text, certificate.as_slice(), solution, STATES).ok()
}
