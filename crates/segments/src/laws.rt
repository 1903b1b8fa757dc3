//! What is proved of segments and of a plan's trees.

ghost use Rattle.segments.specs.Statements.{SegmentLaws, TreeLaws};

/// Joining three segments is the same from both sides. A stop is the segment of its list, and a
/// join that of the joined lists; there is none exactly where no arrival is feasible. The join of
/// the stops of customers is the segment of their list, and gives the exact cost of a fitting route.
pub fn laws_of_segments()
    ensures { SegmentLaws }
{}

/// A route that is written back is the one that changes, and all are trees again where it is one.
pub fn laws_of_trees()
    ensures { TreeLaws }
{}
