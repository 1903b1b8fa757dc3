//! The lines that the program prints, and the statuses that go with them.

ghost use Rattle.std.specs.Prelude.{◌≡◌, ◌⊎◌};

use crate::answer::{Answer, SolveFault};
use crate::starting::StartFault;
use checker::{CheckFault, Verdict};
use command_line::{UsageFault, wrong_words};
use solomon_reader::ReadFault;
use std::alloc::{AllocError, Global};
use std::io;
use tenths::{Device, Sink, Tenths, write_tenths, write_text};

/// The status of a plan that no plan is cheaper than, of no plan at all, and of help.
const FOUND: u8 = 0;

/// The status of a plan whose cost isn't the bound, and of a bound alone.
const UNDECIDED: u8 = 1;

/// The status of words that give no job.
const USAGE: u8 = 2;

/// The status of a text that is no instance.
const INSTANCE: u8 = 3;

/// The status of refused memory, and of a refused thread.
const MEMORY: u8 = 4;

/// The status of a certificate or a plan that isn't right.
const CHECK: u8 = 5;

/// The status of a file or a stream that fails.
const FILE: u8 = 6;

/// The status of labels, states or leaves that don't suffice, and of an instance too large to be closed.
const LIMIT: u8 = 7;

/// Writes a line on standard error, and answers the status that goes with it.
fn fail<Y: Sink>(errors: &mut Y, line: &str, status: u8) -> u8
    ensures { result ≡ status }
{
    // Where standard error fails too, the status alone tells.
    let _ = write_text(line.as_bytes(), errors);
    status
}

fn memory_fault<Y: Sink>(errors: &mut Y) -> u8
    ensures { result ≡ MEMORY }
{
    fail(errors, "vrptw: memory\n", MEMORY)
}

/// What is said of a file or a stream that can't be opened, read or written.
pub(crate) fn file_fault<Y: Sink>(errors: &mut Y) -> u8
    ensures { result ≡ FILE }
{
    fail(errors, "vrptw: file\n", FILE)
}

/// What is said of a file that can't be read or made.
pub(crate) fn open_fault<Y: Sink>(error: &io::Error, errors: &mut Y) -> u8
    ensures { (result ≡ MEMORY) ⊎ (result ≡ FILE) }
{
    if error.kind() == io::ErrorKind::OutOfMemory {
        return memory_fault(errors);
    }
    file_fault(errors)
}

/// What is said of words that give no job: clap's text, on standard output where help was asked for.
pub(crate) fn usage_fault<X: Sink, Y: Sink>(
    alloc: Global,
    fault: &UsageFault,
    out: &mut X,
    errors: &mut Y,
) -> u8 {
    let UsageFault::Usage(error) = fault else {
        return memory_fault(errors);
    };
    let Ok(text) = error.to_string(alloc) else {
        return memory_fault(errors);
    };
    if error.use_stderr() {
        return fail(errors, text.as_str(), USAGE);
    }
    match write_text(text.as_bytes(), out) {
        Ok(()) => FOUND,
        Err(Device) => file_fault(errors),
    }
}

/// What the program says where it can't have its words, on `errors` in place of standard error, and
/// the status that goes with it: 2 with clap's text where a word isn't UTF-8, 4 where memory was
/// refused, and 6 where the system has none.
pub fn words_fault<Y: Sink>(alloc: Global, error: &io::Error, errors: &mut Y) -> u8
    ensures { (result ≡ USAGE) ⊎ (result ≡ MEMORY) ⊎ (result ≡ FILE) }
{
    if error.kind() != io::ErrorKind::InvalidData {
        return open_fault(error, errors);
    }
    let Ok(text) = wrong_words(alloc) else {
        return memory_fault(errors);
    };
    fail(errors, text.as_str(), USAGE)
}

/// Writes a line that was to be made on standard error, and answers the status that goes with it.
fn fail_as<Y: Sink>(errors: &mut Y, line: Result<String, AllocError>, status: u8) -> u8
    ensures { (result ≡ status) ⊎ (result ≡ MEMORY) }
{
    match line {
        Ok(line) => fail(errors, line.as_str(), status),
        Err(_) => memory_fault(errors),
    }
}

/// What is said of a text that is no instance.
fn instance_fault<Y: Sink>(alloc: Global, fault: ReadFault, errors: &mut Y) -> u8
    ensures { (result ≡ INSTANCE) ⊎ (result ≡ MEMORY) }
{
    fail_as(
        errors,
        format!(in alloc; "vrptw: instance: {fault}\n"),
        INSTANCE,
    )
}

/// What is said where the solver gives no answer.
fn solve_fault<Y: Sink>(alloc: Global, fault: SolveFault, errors: &mut Y) -> u8 {
    match fault {
        SolveFault::Memory => memory_fault(errors),
        SolveFault::NoThread => fail(errors, "vrptw: thread\n", MEMORY),
        SolveFault::BadSettings => fail(errors, "vrptw: settings\n", USAGE),
        SolveFault::LabelLimit => fail(errors, "vrptw: limit: LabelLimit\n", LIMIT),
        SolveFault::LeafLimit => fail(errors, "vrptw: limit: LeafLimit\n", LIMIT),
        SolveFault::TooLarge => fail(errors, "vrptw: limit: TooLarge\n", LIMIT),
        SolveFault::Device => file_fault(errors),
        SolveFault::Instance(fault) => instance_fault(alloc, fault, errors),
    }
}

/// What is said where the solver gives no answer, perhaps since a plan to start from or a tree was refused: the latter
/// as the checker would say it.
pub(crate) fn start_fault<Y: Sink>(alloc: Global, fault: StartFault, errors: &mut Y) -> u8 {
    match fault {
        StartFault::Solve(fault) => solve_fault(alloc, fault, errors),
        StartFault::Start(fault) | StartFault::Tree(fault) => check_fault(alloc, fault, errors),
    }
}

/// Writes a line of a text and numbers on standard error, and answers the status that goes with it.
fn fail_with<Y: Sink>(errors: &mut Y, text: &str, numbers: &[Tenths], status: u8) -> u8
    ensures { result ≡ status }
{
    // Where standard error fails too, the status alone tells.
    let _ = write_line(text, numbers, errors);
    status
}

/// What is said where a certificate or a solution is refused.
pub(crate) fn check_fault<Y: Sink>(alloc: Global, fault: CheckFault, errors: &mut Y) -> u8 {
    match fault {
        CheckFault::Memory => memory_fault(errors),
        CheckFault::StateLimit => fail(errors, "vrptw: limit: StateLimit\n", LIMIT),
        CheckFault::OtherName => fail(errors, "vrptw: check: OtherName\n", CHECK),
        CheckFault::OtherSize => fail(errors, "vrptw: check: OtherSize\n", CHECK),
        CheckFault::NeedTooGreat { .. } => {
            fail_as(errors, format!(in alloc; "vrptw: check: {fault}\n"), CHECK)
        }
        CheckFault::BoundDiffers { printed, derived } => {
            let numbers = [printed, derived];
            fail_with(errors, "vrptw: check: BoundDiffers", &numbers, CHECK)
        }
        CheckFault::CostDiffers { printed, real } => {
            fail_with(errors, "vrptw: check: CostDiffers", &[printed, real], CHECK)
        }
        CheckFault::Instance(fault) => instance_fault(alloc, fault, errors),
        CheckFault::Certificate(fault) => {
            fail_as(
                errors,
                format!(in alloc; "vrptw: certificate: {fault}\n"),
                CHECK,
            )
        }
        CheckFault::Solution(fault) => {
            fail_as(
                errors,
                format!(in alloc; "vrptw: solution: {fault}\n"),
                CHECK,
            )
        }
        CheckFault::PlanRefused(why) => {
            fail_as(errors, format!(in alloc; "vrptw: plan: {why}\n"), CHECK)
        }
    }
}

/// Writes a text, and numbers of tenths after it, as a line.
fn write_line<X: Sink>(text: &str, numbers: &[Tenths], out: &mut X) -> Result<(), Device> {
    write_text(text.as_bytes(), out)?;
    for number in numbers {
        write_text(b" ", out)?;
        write_tenths(*number, out)?;
    }
    write_text(b"\n", out)
}

/// Prints a line of a text and numbers, and answers the status that goes with it.
fn tell_line<X: Sink, Y: Sink>(
    text: &str,
    numbers: &[Tenths],
    status: u8,
    out: &mut X,
    errors: &mut Y,
) -> u8 {
    match write_line(text, numbers, out) {
        Ok(()) => status,
        Err(Device) => file_fault(errors),
    }
}

/// Prints a verdict, and answers its status: as an answer is printed, but for a bound alone.
pub(crate) fn tell_verdict<X: Sink, Y: Sink>(verdict: &Verdict, out: &mut X, errors: &mut Y) -> u8 {
    let answer = match *verdict {
        Verdict::Best { cost } => Answer::Best { cost },
        Verdict::Gap { cost, bound } => Answer::Gap { cost, bound },
        Verdict::NoPlan => Answer::NoPlan,
        Verdict::BoundOnly { bound } => {
            return tell_line("BOUND", &[bound], UNDECIDED, out, errors);
        }
    };
    tell(&answer, out, errors)
}

/// Prints an answer, and answers its status.
pub(crate) fn tell<X: Sink, Y: Sink>(answer: &Answer, out: &mut X, errors: &mut Y) -> u8 {
    match *answer {
        Answer::Best { cost } => tell_line("BEST", &[cost], FOUND, out, errors),
        Answer::Gap { cost, bound } => tell_line("GAP", &[cost, bound], UNDECIDED, out, errors),
        Answer::NoPlan => tell_line("NO PLAN", &[], FOUND, out, errors),
        Answer::Open { bound } => tell_line("OPEN", &[bound], UNDECIDED, out, errors),
    }
}
