//! The command line of the program: its commands, and the job that the words give.
#![tactic(auto)]

mod arguments;
mod commands;
mod jobs;
mod trees;

pub use commands::{job, wrong_words};
pub use jobs::{CUT_ROWS, CUT_SETS, Job, MOST_STATES, UsageFault};
