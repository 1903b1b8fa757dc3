//! What the words ask for, and why they ask for nothing.
ghost use Rattle.std.specs.Prelude.{◌≡◌};

use run_settings::{Part, Settings};
use std::alloc::AllocError;
use thiserror::Error;

/// The most pairs of time and cost that the check of one leaf keeps.
pub const MOST_STATES: u32 = 50_000_000;
/// How many sets may have prices where the words have `--cuts` and don't say it themselves.
pub const CUT_SETS: u32 = 200;
/// How many rows may have prices where the words have `--cuts` and don't say it themselves.
pub const CUT_ROWS: u32 = 300;

/// What the program is asked to do.
#[derive(Drop)]
pub enum Job<'a> {
    /// To find a plan and a bound for an instance.
    Solve {
        /// The path of the instance.
        instance: &'a str,
        /// The path that the plan is written to.
        solution: &'a str,
        /// The path that the certificate of the bound is written to.
        certificate: &'a str,
        /// The path of a plan to start from, if there is one.
        start: Option<&'a str>,
        /// The path of a certificate whose tree the work goes on from, if there is one. Its neighbours count then in
        /// place of those of the settings, which are the default ones, and `close` is false.
        tree: Option<&'a str>,
        /// At which open leaves of that tree to work: by default, and without a tree, `Part::WHOLE`.
        part: Part,
        /// How much work to put into it.
        settings: Settings,
        /// Whether to close the instance, by one thread; of the settings only the neighbours and the numbers of sets and
        /// rows count then.
        close: bool,
        /// The most leaves of the closing's tree: 1 to 100,000, by default 100,000.
        leaves: u32,
        /// Whether to tell on standard error how far the turns are. It changes nothing of the answer.
        progress: bool,
        /// Whether to tell the same on one line, which is written anew each time.
        live: bool,
        /// The path that each plan is written to that is cheaper than all before, if it is named.
        plans: Option<&'a str>,
    },
    /// To check a certificate, and a plan if there is one.
    Check {
        /// The path of the instance.
        instance: &'a str,
        /// The path of the certificate.
        certificate: &'a str,
        /// The path of the plan, if one is to be checked too.
        solution: Option<&'a str>,
        /// How many pairs of time and cost the check of one leaf keeps at most: 1 to `MOST_STATES`,
        /// by default 5,000,000.
        states: u32,
    },
}

/// Why the words give no job.
#[derive(Debug, Drop, Error)]
pub enum UsageFault {
    /// There was no memory, so nothing is said of the words.
    #[error("out of memory")]
    Memory,
    /// The words are wrong, or ask for help: the error says which, and has the text to print.
    #[error(transparent)]
    Usage(clap::Error),
}

impl From<AllocError> for UsageFault {
    ghost use Rattle.command_line.specs.declared.jobs.UsageFault.TheVariants.{Memory};

    ghost from_gives = { λ _ fault. fault ≡ Memory };

    fn from(_error: AllocError) -> UsageFault {
        UsageFault::Memory
    }
}

impl From<clap::Error> for UsageFault {
    ghost use Rattle.command_line.specs.Jobs.{IsFaultOf};

    ghost from_gives = { IsFaultOf };

    fn from(error: clap::Error) -> UsageFault {
        if error.kind() == clap::error::ErrorKind::OutOfMemory {
            return UsageFault::Memory;
        }
        UsageFault::Usage(error)
    }
}
