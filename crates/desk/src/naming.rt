//! What the type of a desk names.

use std::marker::Brand;

/// Which instance and which number of neighbours a desk is about, how many sets and how many rows its book may list,
/// what a plan costs that was offered before it was opened, if one was, which bound its book had reached then, how many
/// workers it has, and the names of the ledgers that it counts in.
///
/// A caller names a desk by a function `f<J: Naming>` that opens it, with the nine facts that
/// `Desk::open` requires as its own. Where it calls `f::<Brand>` with a book and blanks, its
/// `proofs/` pick what `J` stands for in a definition of `ghosts-f`: the instance and the numbers of
/// neighbours, of sets and of rows of the book, the cost of a plan that it was offered, if it was, a bound that it had
/// reached, the number of workers, and `names_of` the blanks.
pub trait Naming {
    ghost use Rattle.std.specs.Prelude.{ℕ, Option};
    ghost use Rattle.solomon_reader.specs.Problem.{Problem};
    ghost use Rattle.desk.specs.Tally.{Tally};

    ghost problem: { Problem };

    ghost neighbours: { ℕ };

    ghost sets: { ℕ };

    ghost rows: { ℕ };

    ghost opening_cost: { Option ℕ };

    ghost opening_bound: { ℕ };

    ghost workers: { ℕ };

    ghost names: { Tally };
}

impl Naming for Brand {
    ghost use Rattle.std.specs.Prelude.{None};
    ghost use Rattle.desk.specs.Empty.{no_names, no_problem};

    ghost problem = { no_problem };

    ghost neighbours = { 0 };

    ghost sets = { 0 };

    ghost rows = { 0 };

    ghost opening_cost = { None };

    ghost opening_bound = { 0 };

    ghost workers = { 0 };

    ghost names = { no_names };
}
