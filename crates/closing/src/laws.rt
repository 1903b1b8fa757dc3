//! A law of trees.

ghost use Rattle.closing.specs.Depths.{DepthHolds};

/// Each split on a path decides one more of the n * (n + 1) arcs of n customers, so that no path of
/// their tree has more splits than that. A law for proofs: it does nothing.
pub fn depth_holds()
    ensures { DepthHolds }
{}
