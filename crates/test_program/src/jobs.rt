//! What words ask for.

use std::alloc::{AllocError, Global};
use vrptw::{Job, job};

/// Tells what the words ask for.
pub(crate) fn tell_job(alloc: Global, told: &mut String, words: &[&str]) -> Result<(), AllocError> {
    match job(alloc, words) {
        Ok(
            Job::Solve {
                instance,
                solution,
                certificate,
                start,
                tree,
                part,
                settings,
                close,
                leaves,
                progress,
                live,
                plans,
            },
        ) => {
            writeln!(told, "solve {instance} {solution} {certificate}")?;
            writeln!(told, "{settings:?}")?;
            write!(
                told,
                "close {close} leaves {leaves} progress {progress} live {live}"
            )?;
            writeln!(told, " start {start:?}")?;
            if let Some(plans) = plans {
                writeln!(told, "plans {plans}")?;
            }
            match tree {
                Some(tree) => writeln!(told, "tree {tree} part {}/{}", part.place, part.count),
                None => Ok(()),
            }
        }
        Ok(
            Job::Check {
                instance,
                certificate,
                solution,
                states,
            },
        ) => writeln!(
            told,
            "check {instance} {certificate} {solution:?} states {states}"
        ),
        Err(_) => writeln!(told, "refused"),
    }
}
