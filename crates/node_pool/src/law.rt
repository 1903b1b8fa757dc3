//! The rule of a deque: what was pushed is what was taken and what still stands.

use crossbeam_deque::protocol::{Join, Lesson, Outcome, Protocol, Split};
use std::collections::LinkedList;

/// What is known at one end of a deque: whether it is the one that pushes, its parts of the right to know
/// the whole, what it has pushed, and what it has taken. No value of it is made.
pub struct Known {
    pub pushes: bool,
    pub parts: u64,
    pub pushed: LinkedList<u32>,
    pub taken: LinkedList<u32>,
}

/// The rule.
pub struct Law;

impl Protocol<u32, Known> for Law {
    ghost use Rattle.node_pool.specs.Law.{Balanced, all_parts, known};
    ghost use Rattle.std.specs.Prelude.{true, false, []};

    ghost holds = { Balanced };

    ghost first = { known true all_parts [] [] };

    ghost guest = { known false 0 [] [] };
}

/// Gives one part away.
pub struct Dealt;

impl Split<Known> for Dealt {
    ghost use Rattle.node_pool.specs.Law.{known};
    ghost use Rattle.std.specs.Prelude.{◌-◌, false, []};

    ghost left = { λ v. known v.pushes (v.parts - 1) v.pushed v.taken };

    ghost right = { λ v. known false 1 [] [] };
}

/// Gives no part away.
pub struct Spent;

impl Split<Known> for Spent {
    ghost use Rattle.node_pool.specs.Law.{known};
    ghost use Rattle.std.specs.Prelude.{false, []};

    ghost left = { λ v. v };

    ghost right = { λ v. known false 0 [] [] };
}

/// Takes the parts of another end, and what it knows.
pub struct Joined;

impl Join<Known> for Joined {
    ghost use Rattle.node_pool.specs.Law.{known};
    ghost use Rattle.std.specs.Prelude.{◌+◌, ◌++◌, false, []};

    ghost both = { λ v w. known v.pushes (v.parts + w.parts) v.pushed (v.taken ++ w.taken) };

    ghost spent = { known false 0 [] [] };
}

/// What the owner knows after a push.
pub struct Pushed;

impl Outcome<u32, Known> for Pushed {
    ghost use Rattle.std.specs.Prelude.{◌≡◌, ◌++◌};
    ghost use Rattle.node_pool.specs.Law.{known};

    ghost then = { λ v xs w. w ≡ known v.pushes v.parts (v.pushed ++ xs) v.taken };
}

/// What is known after a number was taken, or none was there.
pub struct Taken;

impl Outcome<u32, Known> for Taken {
    ghost use Rattle.std.specs.Prelude.{◌≡◌, ◌++◌};
    ghost use Rattle.node_pool.specs.Law.{known, StoodFirst, WasEmpty};

    ghost then = { λ v xs w. (w ≡ known v.pushes v.parts v.pushed (v.taken ++ xs))
        × StoodFirst v xs };

    ghost empty = { WasEmpty };
}

/// What stands, for the one who is alone.
pub struct Standing;

impl Lesson<u32, Known> for Standing {
    ghost use Rattle.node_pool.specs.Law.{Stand};

    ghost fact = { Stand };
}
