//! What is proved of descents.

ghost use Rattle.search.specs.Descents.{DescentLaw};

/// Two descents from one plan, each to a plan that no single move makes cheaper, end at the same
/// plan.
pub fn law_of_descents()
    ensures { DescentLaw }
{}
