//! A count that only proofs read.

ghost use Rattle.std.specs.Prelude.{◌≡◌, ◌+◌, ℕ};
ghost use Rattle.std.specs.Borrow.{ftrue};

use std::marker::Model;

/// How many writes failed. Only proofs read it: it takes no memory, its calls do nothing when they run,
/// and no number of failures is too many for it.
#[derive(Drop)]
pub struct FailureCount {
    pub ghost count: { ℕ },
}

impl Model for FailureCount {
    ghost also_owns = { λ _. ftrue };
}

impl FailureCount {
    /// No write failed so far.
    pub fn none() -> FailureCount
        ensures { result.count ≡ 0 }
    {
        FailureCount {}
    }

    /// One more write failed.
    pub fn and_one(&self) -> FailureCount
        ensures { result.count ≡ self.now.count + 1 }
    {
        FailureCount {}
    }
}
