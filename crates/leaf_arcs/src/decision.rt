//! Decisions on the path of a leaf, and the arcs that they leave allowed.

ghost use Rattle.std.specs.Prelude.{◌≤◌, not, ◌==◌, IfOk};
ghost use Rattle.leaf_arcs.specs.Decisions.{admits, IsNarrowed, AreAllowed};

use std::alloc::{AllocError, Global};

/// An arc that is required, or forbidden.
#[derive(Clone, Copy)]
pub struct Decision {
    /// The row that the arc leaves.
    pub from: u16,
    /// The row that the arc enters.
    pub to: u16,
    /// Whether it is required, and not forbidden.
    pub required: bool,
}

/// Excludes row j.
fn exclude(allowed: &mut [bool], j: u16)
    ensures { IsNarrowed (λ m. not (j == m)) allowed.old allowed.new }
{
    if usize::from(j) < allowed.len() {
        allowed[j as usize] = false;
    }
}

/// Excludes all rows but j.
fn exclude_others(allowed: &mut [bool], j: u16)
    ensures { IsNarrowed (λ m. j == m) allowed.old allowed.new }
{
    for m in 0..allowed.len() {
        if m != usize::from(j) {
            allowed[m] = false;
        }
    }
}

/// Excludes the rows to which a decision admits no arc from row i. An arc that leaves or enters the depot
/// isn't excluded by another one that does.
fn restrict(allowed: &mut [bool], decision: &Decision, i: u16)
    ensures { IsNarrowed (admits decision.now i) allowed.old allowed.new }
{
    let leaves = decision.from == i;
    if !decision.required {
        if leaves {
            exclude(allowed, decision.to);
        }
    } else if !leaves {
        if decision.to != 0 {
            exclude(allowed, decision.to);
        }
    } else if i != 0 {
        exclude_others(allowed, decision.to);
    }
}

/// Whether each row may follow row i in a route after these decisions, for this many customers.
pub(crate) fn allowed_rows(
    alloc: Global,
    path: &[Decision],
    count: u16,
    i: u16,
) -> Result<Vec<bool>, AllocError>
    requires { i ≤ count }
    ensures { IfOk result (λ allowed. AreAllowed count path.now i allowed.items) }
{
    let mut allowed = vec![in alloc; true; usize::from(count) + 1]?;
    let marks = allowed.as_mut_slice();
    exclude(marks, i);
    for decision in path {
        restrict(marks, decision, i);
    }
    Ok(allowed)
}
