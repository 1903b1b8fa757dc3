//! A solver of the vehicle routing problem with time windows, from bytes to bytes: a plan, and the
//! certificate of a lower bound on the cost of every plan. Beside it the program's words and lines.
#![tactic(auto)]

mod answer;
mod certifying;
mod closing_text;
mod found;
mod going_on;
mod lines;
mod paths;
mod plans;
mod program;
mod progress;
mod solving;
mod starting;
mod writing;

pub use answer::{Answer, SolveFault};
pub use closing_text::{close, close_from};
pub use command_line::{Job, MOST_STATES, UsageFault, job};
pub use going_on::{GivenTexts, solve_on};
pub use lines::words_fault;
pub use program::run_words;
pub use run_settings::{
    MOST_BOUNDERS, MOST_GAP, MOST_LABELS, MOST_PARTS, MOST_SEARCHERS, MOST_TURNS, Part, Settings,
};
pub use solving::{solve, solve_from};
pub use starting::StartFault;
pub use worker_turns::{Gate, GatePoint, NoGate};
