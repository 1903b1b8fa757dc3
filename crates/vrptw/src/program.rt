//! What the program does with its words.

ghost use Rattle.std.specs.Prelude.{◌≡◌, ◌⊎◌, IsTrue, ◌↔◌};

use crate::answer::Answer;
use crate::closing_text::close_from;
use crate::going_on::{GivenTexts, solve_on};
use crate::lines::{
    check_fault, file_fault, open_fault, start_fault, tell, tell_verdict, usage_fault,
};
use crate::paths::is_same_path;
use crate::plans::PlansGate;
use crate::progress::{ProgressGate, Telling};
use crate::starting::StartFault;
use checker::check;
use closing::MOST_CLOSED;
use command_line::{Job, job};
use run_settings::{MOST_LABELS, Part, Settings};
use solomon_reader::read;
use std::alloc::Global;
use std::io::Write;
use std::rt::Files;
use std::sync::Wait;
use std::thread::Threads;
use std::{fs, io};
use tenths::{Sink, StdSink};

/// How an instance is solved, as it is handed on behind the words: the paths, the settings, the most leaves where it
/// is closed, and whether to tell how far the turns are.
#[derive(Clone, Copy)]
struct SolveJob<'a> {
    instance: &'a str,
    start: Option<&'a str>,
    tree: Option<&'a str>,
    part: Part,
    solution: &'a str,
    certificate: &'a str,
    plans: Option<&'a str>,
    settings: &'a Settings,
    closing: Option<u32>,
    telling: Telling,
}

impl SolveJob<'_> {
    /// Whether a path is one of those that are read.
    fn reads(&self, path: &str) -> bool {
        is_same_path(self.instance, path)
            || self.start.is_some_and(|start| is_same_path(start, path))
            || self.tree.is_some_and(|tree| is_same_path(tree, path))
    }

    /// Whether a file that is to be written is also to be read, or to be written again.
    fn overwrite(&self) -> bool {
        let (solution, certificate) = (self.solution, self.certificate);
        let has_two = is_same_path(solution, certificate);
        if has_two || self.reads(solution) || self.reads(certificate) {
            return true;
        }
        match self.plans {
            Some(plans) => {
                self.reads(plans)
                    || is_same_path(solution, plans)
                    || is_same_path(certificate, plans)
            }
            None => false,
        }
    }
}

/// The files that a run writes: the last of them the plans that it meets, if that is named.
#[derive(Drop)]
struct Outputs<W: Write + Drop> {
    solution: StdSink<W>,
    certificate: StdSink<W>,
    plans: Option<StdSink<W>>,
}

/// Makes the files that a run writes, each empty.
fn make_outputs<R: Files>(rt: &R, job: SolveJob<'_>) -> io::Result<Outputs<R::File>> {
    let solution = StdSink::new(fs::create(rt, job.solution)?);
    let certificate = StdSink::new(fs::create(rt, job.certificate)?);
    let plans = match job.plans {
        Some(path) => Some(StdSink::new(fs::create(rt, path)?)),
        None => None,
    };
    Ok(Outputs {
        solution,
        certificate,
        plans,
    })
}

/// How many customers a text's instance has, where its vehicles together don't carry what these demand. Then the set of
/// all customers shows that there is no plan.
fn overload(alloc: Global, text: &[u8]) -> Option<u16> {
    let instance = read(alloc, text).ok()?;
    let is_overloaded = u32::from(instance.fleet()) < instance.fewest_routes();
    is_overloaded.then_some(instance.customer_count())
}

/// Closes the instance of a text, or solves it, from a plan and a tree where there are some. One whose loads alone leave
/// no plan is solved, with a set.
fn solve_text<R: Eprint + Threads + Wait + Sync, W: Write + Drop + Send>(
    rt: &R,
    alloc: Global,
    (text, given): (&[u8], GivenTexts<'_>),
    job: SolveJob<'_>,
    outputs: Outputs<W>,
) -> Result<Answer, StartFault> {
    let Outputs {
        mut solution,
        mut certificate,
        plans,
    } = outputs;
    let (mut settings, mut closing) = (*job.settings, job.closing);
    if let Some(customers) = overload(alloc, text) {
        settings.sets = settings.sets.max(1);
        if closing.is_some() && customers <= MOST_CLOSED {
            // As closing would, it takes as many labels as it needs.
            (closing, settings.labels) = (None, MOST_LABELS);
        }
    }
    if let Some(leaves) = closing {
        return close_from(
            alloc,
            text,
            given.start,
            &settings,
            leaves,
            &mut solution,
            &mut certificate,
        );
    }
    let progress = ProgressGate::new(rt, &settings, job.telling);
    let gate = PlansGate::new(rt, alloc, progress, plans);
    let answer = solve_on(
        rt,
        alloc,
        text,
        given,
        &settings,
        &gate,
        &mut solution,
        &mut certificate,
    );
    gate.end();
    answer
}

/// The bytes of a file, if one is named.
fn read_if<R: Files + AllocGlobal>(rt: &R, path: Option<&str>) -> io::Result<Option<Vec<u8>>> {
    match path {
        Some(path) => Ok(Some(fs::read(rt, path)?)),
        None => Ok(None),
    }
}

/// The bytes of two files, each if it is named.
fn read_both<R: Files + AllocGlobal>(
    rt: &R,
    first: Option<&str>,
    second: Option<&str>,
) -> io::Result<(Option<Vec<u8>>, Option<Vec<u8>>)> {
    let first = read_if(rt, first)?;
    Ok((first, read_if(rt, second)?))
}

/// The bytes, if there are some.
fn bytes_of(text: &Option<Vec<u8>>) -> Option<&[u8]> {
    match text {
        Some(text) => Some(text.as_slice()),
        None => None,
    }
}

/// Solves the instance of a file, from the plan and the tree of others where they are named, into others, which are
/// made once those were read. No file that is written may be another of them, since it would be overwritten.
fn solve_files<R: Eprint + Files + AllocGlobal + Threads + Wait + Sync, X: Sink, Y: Sink>(
    rt: &R,
    alloc: Global,
    job: SolveJob<'_>,
    out: &mut X,
    errors: &mut Y,
) -> u8
where
    R::File: Send,
{
    if job.overwrite() {
        return file_fault(errors);
    }
    let text = match fs::read(rt, job.instance) {
        Ok(text) => text,
        Err(error) => return open_fault(&error, errors),
    };
    let (start, tree) = match read_both(rt, job.start, job.tree) {
        Ok(texts) => texts,
        Err(error) => return open_fault(&error, errors),
    };
    let outputs = match make_outputs(rt, job) {
        Ok(outputs) => outputs,
        Err(error) => return open_fault(&error, errors),
    };
    let given = GivenTexts {
        start: bytes_of(&start),
        tree: bytes_of(&tree),
        part: job.part,
    };
    let texts = (text.as_slice(), given);
    match solve_text(rt, alloc, texts, job, outputs) {
        Err(fault) => start_fault(alloc, fault, errors),
        Ok(answer) => tell(&answer, out, errors),
    }
}

/// Checks the certificate of a file, and the plan of another one if it is named, against the
/// instance of a file.
fn check_files<R: Files + AllocGlobal, X: Sink, Y: Sink>(
    rt: &R,
    alloc: Global,
    (instance, certificate, solution): (&str, &str, Option<&str>),
    states: u32,
    out: &mut X,
    errors: &mut Y,
) -> u8 {
    let instance = match fs::read(rt, instance) {
        Ok(text) => text,
        Err(error) => return open_fault(&error, errors),
    };
    let certificate = match fs::read(rt, certificate) {
        Ok(text) => text,
        Err(error) => return open_fault(&error, errors),
    };
    let solution = match read_if(rt, solution) {
        Ok(solution) => solution,
        Err(error) => return open_fault(&error, errors),
    };
    match check(
        alloc,
        instance.as_slice(),
        certificate.as_slice(),
        bytes_of(&solution),
        states as usize,
    ) {
        Err(fault) => check_fault(alloc, fault, errors),
        Ok(verdict) => tell_verdict(&verdict, out, errors),
    }
}

/// What flags ask for: one line where both are given.
fn telling_asked(progress: bool, live: bool) -> Telling {
    if live {
        Telling::Live
    } else if progress {
        Telling::Lines
    } else {
        Telling::Nothing
    }
}

/// Does what the program does with the words after its name and the files that they name: prints
/// to `out` in place of standard output and to `errors` in place of standard error, and answers
/// the status: 0 for `BEST`, `NO PLAN` and help, 1 for `GAP`, `OPEN` and `BOUND`, 2 for wrong words,
/// 3 for a refused instance, 4 where memory was refused, 5 for a refused certificate or solution, or plan or
/// tree to go on from, 6 where a file or a stream failed or `solve` would overwrite one of its files, 7 where the
/// labels, the states or the leaves don't suffice, or an instance is too large to be closed. With `--progress`
/// and `--live` lines stand on standard error itself besides; a file of plans that fails changes nothing. What files hold
/// no contract can say.
pub fn run_words<R: Eprint + Files + AllocGlobal + Threads + Wait + Sync, X: Sink, Y: Sink>(
    rt: &R,
    alloc: Global,
    words: &[&str],
    out: &mut X,
    errors: &mut Y,
) -> u8
where
    R::File: Send,
{
    let job = match job(alloc, words) {
        Ok(job) => job,
        Err(fault) => return usage_fault(alloc, &fault, out, errors),
    };
    match job {
        Job::Solve {
            instance,
            solution,
            certificate,
            start,
            tree,
            part,
            settings,
            close,
            leaves,
            progress,
            live,
            plans,
        } => {
            let job = SolveJob {
                instance,
                start,
                tree,
                part,
                solution,
                certificate,
                plans,
                settings: &settings,
                closing: close.then_some(leaves),
                telling: telling_asked(progress, live),
            };
            solve_files(rt, alloc, job, out, errors)
        }
        Job::Check {
            instance,
            certificate,
            solution,
            states,
        } => {
            let paths = (instance, certificate, solution);
            check_files(rt, alloc, paths, states, out, errors)
        }
    }
}
