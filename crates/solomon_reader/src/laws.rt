//! Laws of the definitions, and the definitions at small instances.

ghost use Rattle.solomon_reader.specs.Duality.{CeilingHolds, NoPlanAbove, TreeBoundHolds, WeakDuality};
ghost use Rattle.solomon_reader.specs.Laws.{FirstFaultStays, OneBound, OneLeast, PaidByCustomer};
ghost use Rattle.solomon_reader.specs.SetDuality.{ChargesAreHalf, LeafWeakDuality, NeedsHold, PaidBySets, PlanIsChargedOnce, SameWithout};
ghost use Rattle.solomon_reader.specs.Rows.{WorkedBounds, WorkedMoves, WorkedRows, WorkedSets, WorkedSubsetRows};

/// What the definitions give on small instances: distances, costs, walks, and both texts.
pub fn worked_rows()
    ensures { WorkedRows }
{}

/// The bound of a tree with two leaves, and a list that comes back too soon to be a relaxed route.
pub fn worked_bounds()
    ensures { WorkedBounds }
{}

/// What sets of customers need, and the value of a leaf at which one has a price.
pub fn worked_sets()
    ensures { WorkedSets }
{}

/// What rows of three customers charge, and the value of a leaf at which one has a price.
pub fn worked_subset_rows()
    ensures { WorkedSubsetRows }
{}

/// The routes that each kind of move leaves.
pub fn worked_moves()
    ensures { WorkedMoves }
{}

/// There is one least reduced cost, which is 0 where no route is relaxed.
pub fn one_least()
    ensures { OneLeast }
{}

/// Where each step is paid the price of the customer that it leads to, the reduced cost of a list is its cost less the
/// prices of its stops.
pub fn paid_by_customer()
    ensures { PaidByCustomer }
{}

/// A tree has one bound.
pub fn one_bound()
    ensures { OneBound }
{}

/// The fault of a list of words is the first from the left.
pub fn first_fault()
    ensures { FirstFaultStays }
{}

/// A plan that obeys the region of a leaf costs at least the leaf's value.
pub fn weak_duality()
    ensures { WeakDuality }
{}

/// A plan costs at most the ceiling, and at least the bound of a tree whose sets need what they are said
/// to; where that is above the ceiling, there is no plan.
pub fn bounds_hold()
    ensures ceiling { CeilingHolds }
    ensures tree { TreeBoundHolds }
    ensures no_plan { NoPlanAbove }
{}

/// A plan enters a set of customers at least as often as it needs, by load and by time (Laporte and
/// Nobert 1983; Kohl, Desrosiers, Madsen, Solomon and Soumis 1999).
pub fn needs_hold()
    ensures { NeedsHold }
{}

/// A route is charged by a row of three customers at most for half of its visits to them, so that a plan is charged
/// at most once (Jepsen, Petersen, Spoorendonk and Pisinger 2008), wherever rows are remembered.
pub fn rows_charge()
    ensures half { ChargesAreHalf }
    ensures once { PlanIsChargedOnce }
{}

/// A plan that obeys the region of a leaf costs at least its value with sets that need what they are said
/// to and with any rows; without sets and rows that is its value. Where steps are paid for entering sets, the
/// reduced cost of a list is its cost less the prices of its stops and entries, and what rows charge.
pub fn leaf_bounds_hold()
    ensures leaf { LeafWeakDuality }
    ensures without { SameWithout }
    ensures steps { PaidBySets }
{}
